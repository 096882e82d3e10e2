// Copies of expressions, each written at the front of what is left of the output, its nodes numbered from a given number on.
// A node goes by its number: its sort is a fact about that and the table (`HasSort`), in each contract. Two children are two fields of their node.
// No struct holds `from` and `out`: what is left is lent on from the byte where a part ended, so it would be taken apart and made anew at each part.
ghost use Rattle.std.specs.Prelude.{◌+◌, ◌-◌, ◌≤◌, ◌<◌, ◌≡◌};
ghost use Rattle.awhile.specs.Language.{choice, and};
ghost use Rattle.awhile.specs.Encoding.{nodes_of_a, nodes_of_b, write_a, write_b};
ghost use Rattle.reader.specs.Index.{numeric_in, truth_in, HasSort};
ghost use Rattle.awhile.specs.Tables.{max_nodes};
ghost use Rattle.awhile.specs.declared.Sort.TheVariants.{Numeric, Truth};
ghost use Rattle.copier.specs.Sizes.{bytes_of_a, bytes_of_b, Few};
ghost use Rattle.copier.specs.Written.{SpaceFor, SpaceForNumeric, SpaceForTruth, Wrote, WrotePair, WroteBinary, Both};

use crate::records::{append, append_record};
use crate::{NOTHING, Pair, Record, Size};
use awhile::Node;
use reader::accepted::Accepted;
use record::forms::form_of;

// The number of the last of so many nodes.
pub fn last(from: usize, nodes: usize) -> usize
    requires { (0 < nodes) × (from + nodes ≤ max_nodes) }
    ensures { result ≡ from + nodes - 1 }
{
    from + nodes - 1
}

// Two copies, the second behind the first.
pub fn both(from: usize, first: Size, second: Size) -> Pair
    requires { Few (from + first.nodes + second.nodes) (first.bytes + second.bytes) × (0 < first.nodes) }
    ensures { Both from first second result }
{
    let size = first + second;
    Pair {
        left: last(from, first.nodes),
        right: last(from, size.nodes),
        size,
    }
}

// Copies a numeric node.
// Numbers and truths have a function each: one over both would look at each node's sort before its kind, and its callers know the sort.
#[cycle(copies)]
pub fn copy_numeric(table: &Accepted, n: usize, from: usize, out: &mut [u8]) -> Size
    requires of_sort { HasSort table.now Numeric n }
    requires space_for { SpaceForNumeric from (numeric_in table.now n) out.old }
    ensures { Wrote (write_a from (numeric_in table.now n)) out.old out.new result }
{
    let node = table.numeric(n);
    match node {
        Node::Number { .. } | Node::Variable { .. } => append(out, NOTHING, node),
        Node::Add { left, right }
        | Node::Subtract { left, right }
        | Node::Multiply { left, right } => copy_binary(table, node, left, right, from, out),
        Node::Choice { condition, yes, no } => { copy_choice(table, condition, yes, no, from, out) }
        // nodes of other sorts never stand here
        _ => NOTHING,
    }
}

// Copies a truth node.
#[cycle(copies)]
pub fn copy_truth(table: &Accepted, n: usize, from: usize, out: &mut [u8]) -> Size
    requires of_sort { HasSort table.now Truth n }
    requires space_for { SpaceForTruth from (truth_in table.now n) out.old }
    ensures { Wrote (write_b from (truth_in table.now n)) out.old out.new result }
{
    let node = table.truth(n);
    match node {
        Node::Constant { .. } => append(out, NOTHING, node),
        Node::Equal { left, right } | Node::Less { left, right } => copy_binary(
            table, node, left, right, from, out,
        ),
        Node::Not { truth } => {
            let part = copy_truth(table, truth, from, &mut *out);
            let truth = last(from, part.nodes);
            append(out, part, Node::Not { truth })
        }
        Node::And { left, right } => copy_and(table, left, right, from, out),
        // nodes of other sorts never stand here
        _ => NOTHING,
    }
}

// Copies two numeric nodes, the second from the byte where the first ended.
#[cycle(copies)]
fn copy_pair(table: &Accepted, left: usize, right: usize, from: usize, out: &mut [u8]) -> Pair
    requires of_sort { HasSort table.now Numeric left × HasSort table.now Numeric right }
    requires space_for { SpaceFor from
        (nodes_of_a (numeric_in table.now left) + nodes_of_a (numeric_in table.now right))
        (bytes_of_a (numeric_in table.now left) + bytes_of_a (numeric_in table.now right))
        out.old }
    ensures { WrotePair from (numeric_in table.now left) (numeric_in table.now right) out.old out.new result }
{
    let first = copy_numeric(table, left, from, &mut *out);
    let second = copy_numeric(table, right, from + first.nodes, &mut out[first.bytes..]);
    both(from, first, second)
}

// Copies two numeric nodes and behind them the node over both.
#[cycle(copies)]
fn copy_binary(
    table: &Accepted,
    node: Node,
    left: usize,
    right: usize,
    from: usize,
    out: &mut [u8],
) -> Size
    requires of_sort { HasSort table.now Numeric left × HasSort table.now Numeric right }
    requires space_for { SpaceFor from
        (nodes_of_a (numeric_in table.now left) + nodes_of_a (numeric_in table.now right) + 1)
        (bytes_of_a (numeric_in table.now left) + bytes_of_a (numeric_in table.now right) + 8)
        out.old }
    ensures { WroteBinary node from (numeric_in table.now left) (numeric_in table.now right) out.old out.new result }
{
    let parts = copy_pair(table, left, right, from, &mut *out);
    let copy = Record {
        kind: form_of(node).kind,
        fields: [parts.left, parts.right],
    };
    append_record(out, parts.size, copy)
}

// Copies a choice: its condition, its two sides, and the node over them.
#[cycle(copies)]
fn copy_choice(
    table: &Accepted,
    condition: usize,
    yes: usize,
    no: usize,
    from: usize,
    out: &mut [u8],
) -> Size
    requires of_sort { HasSort table.now Truth condition
        × HasSort table.now Numeric yes
        × HasSort table.now Numeric no }
    requires space_for { SpaceForNumeric from
        (choice (truth_in table.now condition) (numeric_in table.now yes) (numeric_in table.now no))
        out.old }
    ensures { Wrote
        (write_a from (choice (truth_in table.now condition) (numeric_in table.now yes) (numeric_in table.now no)))
        out.old out.new result }
{
    let first = copy_truth(table, condition, from, &mut *out);
    let sides = copy_pair(table, yes, no, from + first.nodes, &mut out[first.bytes..]);
    let copy = Node::Choice {
        condition: last(from, first.nodes),
        yes: sides.left,
        no: sides.right,
    };
    append(out, first + sides.size, copy)
}

// Copies two truth nodes, the second from the byte where the first ended, and the `and` over both.
// There is no `copy_pair` of either sort: it would tell the sort anew at each of its calls, and only the `and` has two truths.
#[cycle(copies)]
fn copy_and(table: &Accepted, left: usize, right: usize, from: usize, out: &mut [u8]) -> Size
    requires of_sort { HasSort table.now Truth left × HasSort table.now Truth right }
    requires space_for { SpaceForTruth from (and (truth_in table.now left) (truth_in table.now right)) out.old }
    ensures { Wrote (write_b from (and (truth_in table.now left) (truth_in table.now right))) out.old out.new result }
{
    let first = copy_truth(table, left, from, &mut *out);
    let second = copy_truth(table, right, from + first.nodes, &mut out[first.bytes..]);
    let parts = both(from, first, second);
    let copy = Node::And {
        left: parts.left,
        right: parts.right,
    };
    append(out, parts.size, copy)
}
