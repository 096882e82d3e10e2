// Labellings in code: the label of a variable or an array, setting one, and joins.
ghost use Rattle.std.specs.Prelude.{◌<◌, ◌≡◌};
ghost use Rattle.labels.specs.Masks.{bit, put_bit};
ghost use Rattle.labels.specs.Labellings.{label_of, set_label, join as joined};
ghost use Rattle.analysis.specs.Marks.{mark_of, HasDigit};

use awhile::Labelling;

// What bears a label: a variable or an array, by its number.
#[derive(Clone, Copy, PartialEq, Eq)]
pub enum Mark {
    Variable(usize),
    Array(usize),
}

// Whether digit n of a mask is set. No mask has a digit from 64 up.
fn digit(mask: u64, n: usize) -> bool
    ensures { result ≡ bit mask n }
{
    n < 64 && (mask >> n) % 2 == 1
}

// The mask with digit n set or cleared.
fn put_digit(mask: u64, n: usize, secret: bool) -> u64
    requires { n < 64 }
    ensures { result ≡ put_bit mask n secret }
{
    let one = 1u64 << n;
    let set = mask | one;
    if secret { set } else { set - one }
}

impl Mark {
    // Its label.
    pub fn label(self, labels: Labelling) -> bool
        ensures { result ≡ label_of labels (mark_of self) }
    {
        match self {
            Mark::Variable(n) => digit(labels.variables, n),
            Mark::Array(n) => digit(u64::from(labels.arrays), n),
        }
    }

    // Sets it.
    pub fn set(self, labels: &mut Labelling, secret: bool)
        requires { HasDigit self }
        ensures { labels.new ≡ set_label labels.old (mark_of self) secret }
    {
        match self {
            Mark::Variable(n) => labels.variables = put_digit(labels.variables, n, secret),
            Mark::Array(n) => labels.arrays = put_digit(u64::from(labels.arrays), n, secret) as u16,
        }
    }
}

// What is secret in either.
#[tactic(auto, unfolding(labels::specs::Labellings::join))]
pub fn join(l: Labelling, m: Labelling) -> Labelling
    ensures { result ≡ joined l m }
{
    Labelling {
        variables: l.variables | m.variables,
        arrays: l.arrays | m.arrays,
    }
}
