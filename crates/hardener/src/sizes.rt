// How much a table takes once it is hardened: one total for each node, made once from those of its parts. Children come before their parents, so
// one loop by node number has them all, and nothing is walked twice or nested.
// The table and its decisions are lent one by one: a `Plan` holds the flag besides, and no length goes by the flag.
ghost use Rattle.std.specs.Prelude.{◌+◌, ◌*◌, ◌^◌, ◌≤◌, ◌<◌, cond, ◌≡◌, All, length, sum_by, get_or};
ghost use Rattle.reader.specs.Index.{nodes_in};
ghost use Rattle.copier.specs.Totals.{total, largest, HasTotal};
ghost use Rattle.hardener.specs.Sizes.{Sizable, NodeSize, SizesBelow, AllSized};

use awhile::Node;
use copier::totals::{NODE, more, over, sum_of};
use deciding::decisions::Decision;
use masking::Maskable;
use reader::accepted::Accepted;

// What a mask adds: (flag = 0) and .. to a condition, (flag = 1) ? 0 : .. to an index; the mask of a value is joined on by a sequence.
const CONDITION_MASK: u32 = 4 * NODE + 30;

const INDEX_MASK: u32 = 5 * NODE + 40;

const VALUE_MASK: u32 = 8 * NODE + 62;

// So much more where something is masked.
fn added(mask: bool, size: u32) -> u32
    ensures { result ≡ cond mask size 0 }
{
    if mask { size } else { 0 }
}

// An if or a loop: its condition stands in it and in two updates, each of 4 nodes more and joined on by a sequence. The parts are its commands.
fn guarded_size<const N: usize>(totals: &[u32], condition: Maskable, parts: [usize; N]) -> u32
    requires few { N ≤ 2 }
    requires each { HasTotal totals.now condition.node × All (HasTotal totals.now) parts }
    ensures { result ≡ 3 * (get_or totals.now condition.node 0 + cond condition.mask (total 4 30) 0)
        + sum_by (λ part. get_or totals.now part 0) parts.entry
        + total 11 (86 + 2 * N) }
{
    let test = totals[condition.node] + added(condition.mask, CONDITION_MASK);
    more(3 * test + sum_of(totals, parts), 11, 86 + 2 * N as u32)
}

// A read or a write: its index, and the mask that hides what is read or the value that is written.
fn access_size(totals: &[u32], place: Maskable, value: u32) -> u32
    requires { HasTotal totals.now place.node × (value ≤ largest) }
    ensures { result ≡ get_or totals.now place.node 0 + cond place.mask (total 5 40) 0 + value + total 1 10 }
{
    more(
        totals[place.node] + added(place.mask, INDEX_MASK) + value,
        1,
        10,
    )
}

// The total of a node, from those of its parts.
fn node_size(table: &Accepted, decisions: &[Decision], totals: &[u32], n: usize) -> u32
    requires { Sizable table.now decisions.now × (n < nodes_in table.now) × SizesBelow table.now decisions.now totals.now n }
    ensures { NodeSize table.now decisions.now n result }
{
    match table.node(n) {
        Node::Skip => NODE + 4,
        Node::Variable { .. } | Node::Constant { .. } => NODE + 6,
        Node::Number { .. } => NODE + 8,
        Node::Not { truth } => over(totals, [truth]),
        Node::Add { left, right }
        | Node::Subtract { left, right }
        | Node::Multiply { left, right }
        | Node::Equal { left, right }
        | Node::Less { left, right }
        | Node::And { left, right } => over(totals, [left, right]),
        Node::Sequence { first, second } => over(totals, [first, second]),
        Node::Choice { condition, yes, no } => over(totals, [condition, yes, no]),
        Node::Assign { value, .. } => more(totals[value], 1, 8),
        Node::If { condition, yes, no } => {
            let mask = decisions[n].condition;
            guarded_size(
                totals,
                Maskable {
                    node: condition,
                    mask,
                },
                [yes, no],
            )
        }
        Node::While { condition, body } => {
            let mask = decisions[n].condition;
            guarded_size(
                totals,
                Maskable {
                    node: condition,
                    mask,
                },
                [body],
            )
        }
        Node::Read { index, .. } => {
            let mask = decisions[n].index;
            access_size(
                totals,
                Maskable { node: index, mask },
                added(decisions[n].value, VALUE_MASK),
            )
        }
        Node::Write { index, value, .. } => {
            let mask = decisions[n].index;
            access_size(totals, Maskable { node: index, mask }, totals[value])
        }
    }
}

// The totals of all nodes of a table.
pub fn size_all(table: &Accepted, decisions: &[Decision], totals: &mut [u32])
    requires { Sizable table.now decisions.now × (nodes_in table.now ≤ length totals.old) }
    ensures { AllSized table.now decisions.now totals.new }
{
    for n in 0..table.count() {
        totals[n] = node_size(table, decisions, &*totals, n);
    }
}
