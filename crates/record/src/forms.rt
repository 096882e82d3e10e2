// What a node's record holds: its kind, the sort of what it stands for, and its fields. All else about a record is read off this:
// its length, the ranges and sorts that it asks for, its children, and its bytes.
ghost use Rattle.std.specs.Prelude.{◌+◌, ◌≡◌, map};
ghost use Rattle.awhile.specs.Lists.{sum};
ghost use Rattle.awhile.specs.Nodes.{form, row, field_size, field_in_range};
ghost use Rattle.record.specs.RecordRead.{field_of, fields_of, form_of, SortOfKind, RowOf};
ghost use Rattle.awhile.specs.declared.Sort.TheVariants.{Truth};
ghost use Rattle.record.specs.declared.forms.Field.TheVariants.{Child};
ghost use Rattle.record.specs.declared.forms.Fields.TheVariants.{Two, Three};

use awhile::{Header, Node, Sort};

// The kinds of a sort stand side by side: those of numbers, then those of truths from their first one on, then those of commands.
const FIRST_TRUTH: usize = 32;

const FIRST_COMMAND: usize = 48;

// What a 2-byte field holds.
#[derive(Clone, Copy)]
pub enum Field {
    Constant { value: usize },
    Variable { variable: usize },
    Array { array: usize },
    Child { sort: Sort, node: usize },
}

// The fields of a record: none, a 4-byte number, or up to three of 2 bytes. A sum, and no struct of three fields some of which are absent: with
// that, reading a table took longer. Who goes over them (`check_record`, `count_fields`) matches by himself: no function hands out an array whose
// length its argument tells.
#[derive(Clone, Copy)]
pub enum Fields {
    Nothing,
    Word {
        value: u32,
    },
    One {
        first: Field,
    },
    Two {
        first: Field,
        second: Field,
    },
    Three {
        first: Field,
        second: Field,
        third: Field,
    },
}

// A record's kind, the sort of what it stands for, and its fields.
#[derive(Clone, Copy)]
pub struct Form {
    pub kind: usize,
    pub sort: Sort,
    pub fields: Fields,
}

// A child of a wanted sort; two of one sort; a condition and two of one sort.
fn child(sort: Sort, node: usize) -> Field
    ensures { result ≡ Child sort node }
{
    Field::Child { sort, node }
}

fn pair(sort: Sort, left: usize, right: usize) -> Fields
    ensures { result ≡ Two (Child sort left) (Child sort right) }
{
    Fields::Two {
        first: Field::Child { sort, node: left },
        second: Field::Child { sort, node: right },
    }
}

fn branch(sort: Sort, condition: usize, yes: usize, no: usize) -> Fields
    ensures { result ≡ Three (Child Truth condition) (Child sort yes) (Child sort no) }
{
    Fields::Three {
        first: Field::Child {
            sort: Sort::Truth,
            node: condition,
        },
        second: Field::Child { sort, node: yes },
        third: Field::Child { sort, node: no },
    }
}

// The sort of the nodes of a kind; of no account where no node is of it. The rows below go by it, and so does `node::sort_at`: two
// comparisons tell a child's sort, where `decode` would tell 18 kinds apart and read fields that are not asked for.
pub fn sort_of_kind(kind: usize) -> Sort
    ensures { SortOfKind kind result }
{
    if kind < FIRST_TRUTH {
        Sort::Numeric
    } else if kind < FIRST_COMMAND {
        Sort::Truth
    } else {
        Sort::Command
    }
}

// A row of the list below: its kind, which tells its sort, and its fields.
fn row(kind: usize, fields: Fields) -> Form
    ensures { RowOf kind (fields_of fields) (form_of result) }
{
    Form {
        kind,
        sort: sort_of_kind(kind),
        fields,
    }
}

// The form of each node, as document 01 lists the kinds.
// A kind is a number, as in `form` of awhile/specs/Nodes and in `decode::node_of`: an enum of them would be `Node` without its fields, and its one
// use would be to be made a number again.
#[tactic(auto, unfolding(awhile::specs::Nodes::form, awhile::specs::Nodes::sort_of))]
pub fn form_of(node: Node) -> Form
    ensures { form_of result ≡ form node }
{
    match node {
        Node::Number { value } => row(16, Fields::Word { value }),
        Node::Variable { variable } => row(
            17,
            Fields::One {
                first: Field::Variable { variable },
            },
        ),
        Node::Add { left, right } => row(18, pair(Sort::Numeric, left, right)),
        Node::Subtract { left, right } => row(19, pair(Sort::Numeric, left, right)),
        Node::Multiply { left, right } => row(20, pair(Sort::Numeric, left, right)),
        Node::Choice { condition, yes, no } => row(21, branch(Sort::Numeric, condition, yes, no)),
        Node::Constant { value } => row(
            32,
            Fields::One {
                first: Field::Constant { value },
            },
        ),
        Node::Equal { left, right } => row(33, pair(Sort::Numeric, left, right)),
        Node::Less { left, right } => row(34, pair(Sort::Numeric, left, right)),
        Node::Not { truth } => row(
            35,
            Fields::One {
                first: child(Sort::Truth, truth),
            },
        ),
        Node::And { left, right } => row(36, pair(Sort::Truth, left, right)),
        Node::Skip => row(48, Fields::Nothing),
        Node::Assign { variable, value } => row(
            49,
            Fields::Two {
                first: Field::Variable { variable },
                second: child(Sort::Numeric, value),
            },
        ),
        Node::Sequence { first, second } => row(50, pair(Sort::Command, first, second)),
        Node::If { condition, yes, no } => row(51, branch(Sort::Command, condition, yes, no)),
        Node::While { condition, body } => row(
            52,
            Fields::Two {
                first: child(Sort::Truth, condition),
                second: child(Sort::Command, body),
            },
        ),
        Node::Read {
            variable,
            array,
            index,
        } => row(
            53,
            Fields::Three {
                first: Field::Variable { variable },
                second: Field::Array { array },
                third: child(Sort::Numeric, index),
            },
        ),
        Node::Write {
            array,
            index,
            value,
        } => row(
            54,
            Fields::Three {
                first: Field::Array { array },
                second: child(Sort::Numeric, index),
                third: child(Sort::Numeric, value),
            },
        ),
    }
}

// The byte length of a record with these fields: 4 for its length and kind, a word 4, any other field 2.
#[tactic(auto, using(crate::proofs::RecordForms::two_bytes), unfolding(awhile::specs::Lists::sum, awhile::specs::Nodes::field_size))]
pub fn record_size(fields: Fields) -> usize
    ensures { result ≡ 4 + sum (map field_size (fields_of fields)) }
{
    match fields {
        Fields::Nothing => 4,
        Fields::Word { .. } => 8,
        Fields::One { .. } => 6,
        Fields::Two { .. } => 8,
        Fields::Three { .. } => 10,
    }
}

// A variable, an array or a child that a field names is one that there is; a constant is 0 or 1.
#[tactic(auto, unfolding(awhile::specs::Nodes::field_in_range))]
pub fn in_range(field: Field, header: Header, parent: usize) -> bool
    ensures { result ≡ field_in_range header.variables header.arrays parent (field_of field) }
{
    match field {
        Field::Constant { value } => value <= 1,
        Field::Variable { variable } => variable < header.variables,
        Field::Array { array } => array < header.arrays,
        Field::Child { node, .. } => node < parent,
    }
}
