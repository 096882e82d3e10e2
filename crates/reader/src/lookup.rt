// Nodes of a table that was read, by their numbers: one look at the index, and of the record only what its kind has. The index leads to whole
// records, so nothing is tested; and a caller knows the sort of the node that it asks for, so only the kinds of that sort are told apart.
// One look-up for all kinds, as the reader's decoder has it, would be slower: runs took 2.2 times the reference's time with it, and take 1.1 times
// with the three. The kinds are numbers as in record/decode.rt, and the last kind of each sort is `_`, since nothing else of the sort is left.
// Each look-up takes table and index by themselves, as their promises (docs/PROMISES) are made; the methods of `Accepted` hand in its own.
ghost use Rattle.std.specs.Prelude.{◌+◌, ◌*◌, ◌≤◌, ◌<◌, ◌≡◌, length};
ghost use Rattle.bytes_le.specs.Numbers.{le_at};
ghost use Rattle.awhile.specs.Nodes.{sort_of, same_sort};
ghost use Rattle.awhile.specs.declared.Sort.TheVariants.{Numeric, Truth, Command};
ghost use Rattle.reader.specs.Index.{Indexed, nodes_in, node_in};

use awhile::{Node, Sort};
use bytes_le::get::{whole_u16, whole_u32};
use record::node::sort_at;

// The 2-byte field of a place in the record at an offset: the kind at 0, behind the length, then the fields.
fn field<const K: usize>(table: &[u8], at: usize) -> usize
    requires { at + (4 + 2 * K) ≤ length table.now }
    ensures { result ≡ le_at 2 table.now (at + (2 + 2 * K)) }
{
    whole_u16(table, at + (2 + 2 * K))
}

// The 4-byte field of a number's record.
fn word(table: &[u8], at: usize) -> u32
    requires { at + 8 ≤ length table.now }
    ensures { result ≡ le_at 4 table.now (at + 4) }
{
    whole_u32(table, at + 4)
}

// The numeric node of a number.
pub fn numeric_at(table: &[u8], index: &[u16], n: usize) -> Node
    requires { Indexed table.now index.now × (n < nodes_in table.now) × (sort_of (node_in table.now n) ≡ Numeric) }
    ensures { result ≡ node_in table.now n }
{
    let at = usize::from(index[n]);
    match field::<0>(table, at) {
        16 => Node::Number {
            value: word(table, at),
        },
        17 => Node::Variable {
            variable: field::<1>(table, at),
        },
        18 => Node::Add {
            left: field::<1>(table, at),
            right: field::<2>(table, at),
        },
        19 => Node::Subtract {
            left: field::<1>(table, at),
            right: field::<2>(table, at),
        },
        20 => Node::Multiply {
            left: field::<1>(table, at),
            right: field::<2>(table, at),
        },
        _ => Node::Choice {
            condition: field::<1>(table, at),
            yes: field::<2>(table, at),
            no: field::<3>(table, at),
        },
    }
}

// The truth node of a number.
pub fn truth_at(table: &[u8], index: &[u16], n: usize) -> Node
    requires { Indexed table.now index.now × (n < nodes_in table.now) × (sort_of (node_in table.now n) ≡ Truth) }
    ensures { result ≡ node_in table.now n }
{
    let at = usize::from(index[n]);
    match field::<0>(table, at) {
        32 => Node::Constant {
            value: field::<1>(table, at),
        },
        33 => Node::Equal {
            left: field::<1>(table, at),
            right: field::<2>(table, at),
        },
        34 => Node::Less {
            left: field::<1>(table, at),
            right: field::<2>(table, at),
        },
        35 => Node::Not {
            truth: field::<1>(table, at),
        },
        _ => Node::And {
            left: field::<1>(table, at),
            right: field::<2>(table, at),
        },
    }
}

// The command node of a number.
pub fn command_at(table: &[u8], index: &[u16], n: usize) -> Node
    requires { Indexed table.now index.now × (n < nodes_in table.now) × (sort_of (node_in table.now n) ≡ Command) }
    ensures { result ≡ node_in table.now n }
{
    let at = usize::from(index[n]);
    match field::<0>(table, at) {
        48 => Node::Skip,
        49 => Node::Assign {
            variable: field::<1>(table, at),
            value: field::<2>(table, at),
        },
        50 => Node::Sequence {
            first: field::<1>(table, at),
            second: field::<2>(table, at),
        },
        51 => Node::If {
            condition: field::<1>(table, at),
            yes: field::<2>(table, at),
            no: field::<3>(table, at),
        },
        52 => Node::While {
            condition: field::<1>(table, at),
            body: field::<2>(table, at),
        },
        53 => Node::Read {
            variable: field::<1>(table, at),
            array: field::<2>(table, at),
            index: field::<3>(table, at),
        },
        _ => Node::Write {
            array: field::<1>(table, at),
            index: field::<2>(table, at),
            value: field::<3>(table, at),
        },
    }
}

// The sort of the node of a number.
fn sort_of(table: &[u8], index: &[u16], n: usize) -> Sort
    requires { Indexed table.now index.now × (n < nodes_in table.now) }
    ensures { result ≡ sort_of (node_in table.now n) }
{
    sort_at(table, usize::from(index[n]))
}

// The node of a number, whatever its sort.
pub fn node_at(table: &[u8], index: &[u16], n: usize) -> Node
    requires { Indexed table.now index.now × (n < nodes_in table.now) }
    ensures { result ≡ node_in table.now n }
{
    match sort_of(table, index, n) {
        Sort::Numeric => numeric_at(table, index, n),
        Sort::Truth => truth_at(table, index, n),
        Sort::Command => command_at(table, index, n),
    }
}

// Whether the node of a number is a command.
pub fn is_command(table: &[u8], index: &[u16], n: usize) -> bool
    requires { Indexed table.now index.now × (n < nodes_in table.now) }
    ensures { result ≡ same_sort (sort_of (node_in table.now n)) Command }
{
    sort_of(table, index, n) == Sort::Command
}
