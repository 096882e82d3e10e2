// Hardened commands, each written at the front of what is left of the output. A command is hardened from its parts, whose numbers are lower.
// The number of the next node and what is left of the output are two parameters: the output is lent on from the byte where a part ended. So are two
// child commands, which are two fields of their node. A node goes by its number: its sort (`HasSort`) is a fact about that and the plan's table.
ghost use Rattle.std.specs.Prelude.{◌+◌, true, false, ◌≡◌};
ghost use Rattle.awhile.specs.Encoding.{nodes_of, write_c};
ghost use Rattle.awhile.specs.declared.Sort.TheVariants.{Numeric, Command};
ghost use Rattle.reader.specs.Admitted.{Admitted};
ghost use Rattle.reader.specs.Index.{node_in, HasSort, Single};
ghost use Rattle.copier.specs.Sizes.{bytes_of};
ghost use Rattle.copier.specs.Written.{SpaceFor, SpaceForCommand, WroteTwo};
ghost use Rattle.hardener.specs.Forms.{assign_in, hardened_by, sequence_by, side_by, if_by, loop_by, while_by, WroteCommand};

use crate::plan::{Plan, Test};
use awhile::Node;
use copier::copies::{both, copy_numeric, last};
use copier::records::append;
use copier::{NOTHING, Pair, Size};
use deciding::decisions::Decision;
use masking::Maskable;
use masking::accesses::{append_sequence, harden_read, harden_write};
use masking::masked::{copy_condition, put_flag_update};
use reader::accepted::Accepted;

// An assignment: its value, and the node.
fn harden_assign(
    table: &Accepted,
    variable: usize,
    value: usize,
    from: usize,
    out: &mut [u8],
) -> Size
    requires of_sort { HasSort table.now Numeric value }
    requires space_for { SpaceForCommand from (assign_in table.now variable value) out.old }
    ensures { WroteCommand from (assign_in table.now variable value) out.old out.new result }
{
    let part = copy_numeric(table, value, from, &mut *out);
    append(
        out,
        part,
        Node::Assign {
            variable,
            value: last(from, part.nodes),
        },
    )
}

// A command without command parts: a skip, an assignment, a read or a write.
fn harden_single(plan: &Plan, n: usize, node: Node, from: usize, out: &mut [u8]) -> Size
    requires single { HasSort plan.now.table.now Command n × (node ≡ node_in plan.now.table.now n) × Single node × Admitted plan.now.table.now }
    requires space_for { SpaceForCommand from (hardened_by plan.now n) out.old }
    ensures { WroteCommand from (hardened_by plan.now n) out.old out.new result }
{
    let Decision {
        index: mask,
        value: hide,
        ..
    } = plan.decisions[n];
    match node {
        Node::Assign { variable, value } => harden_assign(plan.table, variable, value, from, out),
        Node::Read {
            variable,
            array,
            index: node,
        } => {
            let place = Maskable { node, mask };
            harden_read(
                plan.table, plan.flag, variable, array, place, hide, from, out,
            )
        }
        Node::Write {
            array,
            index: node,
            value,
        } => {
            let place = Maskable { node, mask };
            harden_write(plan.table, plan.flag, array, place, value, from, out)
        }
        // a skip; nodes of other sorts never stand here
        _ => append(out, NOTHING, Node::Skip),
    }
}

// Hardens a command.
#[cycle(commands)]
pub fn harden_command(plan: &Plan, n: usize, from: usize, out: &mut [u8]) -> Size
    requires of_sort { HasSort plan.now.table.now Command n }
    requires space_for { SpaceForCommand from (hardened_by plan.now n) out.old }
    ensures { WroteCommand from (hardened_by plan.now n) out.old out.new result }
{
    let node = plan.table.command(n);
    let mask = plan.decisions[n].condition;
    match node {
        Node::Sequence { first, second } => harden_sequence(plan, first, second, from, out),
        Node::If {
            condition: node,
            yes,
            no,
        } => {
            let condition = Maskable { node, mask };
            let test = Test {
                plan: &*plan,
                condition,
            };
            harden_if(&test, yes, no, from, out)
        }
        Node::While {
            condition: node,
            body,
        } => {
            let condition = Maskable { node, mask };
            let test = Test {
                plan: &*plan,
                condition,
            };
            harden_while(&test, body, from, out)
        }
        _ => harden_single(plan, n, node, from, out),
    }
}

// A sequence: both commands, one behind the other, and the node.
#[cycle(commands)]
fn harden_sequence(plan: &Plan, first: usize, second: usize, from: usize, out: &mut [u8]) -> Size
    requires of_sort { HasSort plan.now.table.now Command first × HasSort plan.now.table.now Command second }
    requires space_for { SpaceForCommand from (sequence_by plan.now first second) out.old }
    ensures { WroteCommand from (sequence_by plan.now first second) out.old out.new result }
{
    let one = harden_command(plan, first, from, &mut *out);
    let two = harden_command(plan, second, from + one.nodes, &mut out[one.bytes..]);
    append_sequence(out, from, one, two)
}

// A side of an if, or a loop's body: it begins with the flag's update.
#[cycle(commands)]
fn harden_side(test: &Test, taken: bool, side: usize, from: usize, out: &mut [u8]) -> Size
    requires of_sort { HasSort test.now.plan.now.table.now Command side }
    requires space_for { SpaceForCommand from (side_by test.now taken side) out.old }
    ensures { WroteCommand from (side_by test.now taken side) out.old out.new result }
{
    let plan = test.plan;
    let update = put_flag_update(
        plan.table,
        test.condition,
        plan.flag,
        taken,
        from,
        &mut *out,
    );
    let rest = harden_command(plan, side, from + update.nodes, &mut out[update.bytes..]);
    append_sequence(out, from, update, rest)
}

// Both sides of an if, one behind the other.
#[cycle(commands)]
fn harden_sides(test: &Test, first: usize, second: usize, from: usize, out: &mut [u8]) -> Pair
    requires of_sort { HasSort test.now.plan.now.table.now Command first × HasSort test.now.plan.now.table.now Command second }
    requires space_for { SpaceFor from
        (nodes_of (side_by test.now true first) + nodes_of (side_by test.now false second))
        (bytes_of (side_by test.now true first) + bytes_of (side_by test.now false second))
        out.old }
    ensures { WroteTwo from
        (write_c from (side_by test.now true first))
        (write_c (from + nodes_of (side_by test.now true first)) (side_by test.now false second))
        out.old out.new result }
{
    let one = harden_side(test, true, first, from, &mut *out);
    let two = harden_side(test, false, second, from + one.nodes, &mut out[one.bytes..]);
    both(from, one, two)
}

// An if: its condition, masked or not, both sides from the byte where that ended, and the node.
#[cycle(commands)]
fn harden_if(test: &Test, first: usize, second: usize, from: usize, out: &mut [u8]) -> Size
    requires of_sort { HasSort test.now.plan.now.table.now Command first × HasSort test.now.plan.now.table.now Command second }
    requires space_for { SpaceForCommand from (if_by test.now first second) out.old }
    ensures { WroteCommand from (if_by test.now first second) out.old out.new result }
{
    let plan = test.plan;
    let copy = copy_condition(plan.table, test.condition, plan.flag, from, &mut *out);
    let sides = harden_sides(
        test,
        first,
        second,
        from + copy.nodes,
        &mut out[copy.bytes..],
    );
    append(
        out,
        copy + sides.size,
        Node::If {
            condition: last(from, copy.nodes),
            yes: sides.left,
            no: sides.right,
        },
    )
}

// A loop without what stands after it.
#[cycle(commands)]
fn harden_loop(test: &Test, body: usize, from: usize, out: &mut [u8]) -> Size
    requires of_sort { HasSort test.now.plan.now.table.now Command body }
    requires space_for { SpaceForCommand from (loop_by test.now body) out.old }
    ensures { WroteCommand from (loop_by test.now body) out.old out.new result }
{
    let plan = test.plan;
    let copy = copy_condition(plan.table, test.condition, plan.flag, from, &mut *out);
    let side = harden_side(test, true, body, from + copy.nodes, &mut out[copy.bytes..]);
    let parts = both(from, copy, side);
    append(
        out,
        parts.size,
        Node::While {
            condition: parts.left,
            body: parts.right,
        },
    )
}

// A loop, and after it the flag's update.
#[cycle(commands)]
fn harden_while(test: &Test, body: usize, from: usize, out: &mut [u8]) -> Size
    requires of_sort { HasSort test.now.plan.now.table.now Command body }
    requires space_for { SpaceForCommand from (while_by test.now body) out.old }
    ensures { WroteCommand from (while_by test.now body) out.old out.new result }
{
    let plan = test.plan;
    let whole = harden_loop(test, body, from, &mut *out);
    let update = put_flag_update(
        plan.table,
        test.condition,
        plan.flag,
        false, // a loop is left where its condition is taken as false
        from + whole.nodes,
        &mut out[whole.bytes..],
    );
    append_sequence(out, from, whole, update)
}
