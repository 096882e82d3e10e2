// What hardening adds: masked conditions and indexes, updates of the flag, masked values.
ghost use Rattle.std.specs.Prelude.{◌+◌, cond, ◌≡◌};
ghost use Rattle.awhile.specs.Encoding.{nodes_of_a, nodes_of_b, nodes_of, write_a, write_b, write_c};
ghost use Rattle.reader.specs.Index.{numeric_in, truth_in, HasSort};
ghost use Rattle.awhile.specs.Language.{variable, number, equal};
ghost use Rattle.awhile.specs.declared.Node.TheVariants.{Variable as VariableNode, Number as NumberNode};
ghost use Rattle.awhile.specs.declared.Sort.TheVariants.{Numeric, Truth};
ghost use Rattle.masks.specs.Hardening.{mask_value_of};
ghost use Rattle.masking.specs.InMemory.{flag_update, guard_nodes, test_in, index_in};
ghost use Rattle.copier.specs.Sizes.{bytes_of_a, bytes_of_b, bytes_of};
ghost use Rattle.copier.specs.Written.{SpaceFor, SpaceForNumeric, SpaceForTruth, SpaceForCommand, Wrote};

use crate::Maskable;
use awhile::Node;
use copier::copies::{both, copy_numeric, copy_truth, last};
use copier::records::{append, append_all};
use copier::{NOTHING, Size};
use reader::accepted::Accepted;

// flag = value
fn put_test(flag: usize, value: u32, from: usize, out: &mut [u8]) -> Size
    requires { SpaceFor from 3 22 out.old }
    ensures { Wrote (write_b from (equal (variable flag) (number value))) out.old out.new result }
{
    let nodes = [
        Node::Variable { variable: flag },
        Node::Number { value },
        Node::Equal {
            left: from,
            right: from + 1,
        },
    ];
    append_all(out, NOTHING, nodes)
}

// A condition, masked or not: (flag = 0) and condition, or condition.
pub fn copy_condition(
    table: &Accepted,
    condition: Maskable,
    flag: usize,
    from: usize,
    out: &mut [u8],
) -> Size
    requires of_sort { HasSort table.now Truth condition.node }
    requires space_for { SpaceForTruth from (test_in table.now flag condition) out.old }
    ensures { Wrote (write_b from (test_in table.now flag condition)) out.old out.new result }
{
    if condition.mask {
        let test = put_test(flag, 0, from, &mut *out);
        let part = copy_truth(
            table,
            condition.node,
            from + test.nodes,
            &mut out[test.bytes..],
        );
        let parts = both(from, test, part);
        let copy = Node::And {
            left: parts.left,
            right: parts.right,
        };
        append(out, parts.size, copy)
    } else {
        copy_truth(table, condition.node, from, out)
    }
}

// The beginning of (flag = 1) ? 0 : e, up to e.
fn put_guard(flag: usize, from: usize, out: &mut [u8]) -> Size
    requires { SpaceFor from 4 30 out.old }
    ensures { Wrote (guard_nodes from flag) out.old out.new result }
{
    let test = put_test(flag, 1, from, &mut *out);
    append(out, test, Node::Number { value: 0 })
}

// An index, masked or not: (flag = 1) ? 0 : index, or index.
// One function over this and `copy_condition` would take what stands before, the copy and the node over both as arguments: all but two lines of each.
pub fn copy_index(
    table: &Accepted,
    place: Maskable,
    flag: usize,
    from: usize,
    out: &mut [u8],
) -> Size
    requires of_sort { HasSort table.now Numeric place.node }
    requires space_for { SpaceForNumeric from (index_in table.now flag place) out.old }
    ensures { Wrote (write_a from (index_in table.now flag place)) out.old out.new result }
{
    if place.mask {
        let guard = put_guard(flag, from, &mut *out);
        let part = copy_numeric(
            table,
            place.node,
            from + guard.nodes,
            &mut out[guard.bytes..],
        );
        let parts = both(from, guard, part);
        let copy = Node::Choice {
            condition: from + 2,
            yes: from + 3,
            no: parts.right,
        };
        append(out, parts.size, copy)
    } else {
        copy_numeric(table, place.node, from, out)
    }
}

// variable := (flag = 1) ? 0 : variable
pub fn put_value_mask(flag: usize, variable: usize, from: usize, out: &mut [u8]) -> Size
    requires { SpaceFor from 7 54 out.old }
    ensures { Wrote (write_c from (mask_value_of flag variable)) out.old out.new result }
{
    let guard = put_guard(flag, from, &mut *out);
    let nodes = [
        Node::Variable { variable },
        Node::Choice {
            condition: from + 2,
            yes: from + 3,
            no: from + 4,
        },
        Node::Assign {
            variable,
            value: from + 5,
        },
    ];
    append_all(out, guard, nodes)
}

// The flag as it was where the first is wanted, and 1 where it is not.
fn kept_or_one(kept: bool, flag: usize) -> Node
    ensures { result ≡ cond kept (VariableNode flag) (NumberNode 1) }
{
    if kept {
        Node::Variable { variable: flag }
    } else {
        Node::Number { value: 1 }
    }
}

// The flag's update where the condition was taken as true, flag := condition ? flag : 1, or as false, flag := condition ? 1 : flag.
pub fn put_flag_update(
    table: &Accepted,
    condition: Maskable,
    flag: usize,
    taken: bool,
    from: usize,
    out: &mut [u8],
) -> Size
    requires of_sort { HasSort table.now Truth condition.node }
    requires space_for { SpaceForCommand from (flag_update flag taken (test_in table.now flag condition)) out.old }
    ensures { Wrote (write_c from (flag_update flag taken (test_in table.now flag condition))) out.old out.new result }
{
    let test = copy_condition(table, condition, flag, from, &mut *out);
    let at = last(from, test.nodes);
    let nodes = [
        kept_or_one(taken, flag),
        kept_or_one(!taken, flag),
        Node::Choice {
            condition: at,
            yes: at + 1,
            no: at + 2,
        },
        Node::Assign {
            variable: flag,
            value: at + 3,
        },
    ];
    append_all(out, test, nodes)
}
