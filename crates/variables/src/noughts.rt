// Products with the constant 0: the operand itself is a number node of value 0. An expression whose value is 0 is none.
ghost use Rattle.std.specs.Prelude.{◌≡◌};
ghost use Rattle.reader.specs.Index.{numeric_in, HasSort};
ghost use Rattle.awhile.specs.declared.Sort.TheVariants.{Numeric};
ghost use Rattle.labels.specs.Labellings.{is_nought, times_nought};

use awhile::Node;
use reader::accepted::Accepted;

// Whether a numeric node is a number of value 0. (`matches!` with `value: 0` fails in two ways, each of which is proved; the derived `==` tells all
// kinds of two nodes apart.)
fn is_nought(table: &Accepted, n: usize) -> bool
    requires { HasSort table.now Numeric n }
    ensures { result ≡ is_nought (numeric_in table.now n) }
{
    match table.numeric(n) {
        Node::Number { value } => value == 0,
        _ => false,
    }
}

// Whether the product of two numeric nodes is one with such a number.
#[tactic(auto, unfolding(labels::specs::Labellings::times_nought))]
pub fn times_nought(table: &Accepted, left: usize, right: usize) -> bool
    requires { HasSort table.now Numeric left × HasSort table.now Numeric right }
    ensures { result ≡ times_nought (numeric_in table.now left) (numeric_in table.now right) }
{
    is_nought(table, left) || is_nought(table, right)
}
