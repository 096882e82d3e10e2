// Hardened reads and writes, and what is joined on by a sequence.
ghost use Rattle.std.specs.Prelude.{◌+◌, ◌≤◌, ◌<◌, length};
ghost use Rattle.awhile.specs.Encoding.{write_c};
ghost use Rattle.reader.specs.Index.{HasSort};
ghost use Rattle.awhile.specs.declared.Node.TheVariants.{Sequence as SequenceNode};
ghost use Rattle.awhile.specs.declared.Sort.TheVariants.{Numeric};
ghost use Rattle.masking.specs.InMemory.{read_in, write_in};
ghost use Rattle.copier.specs.Sizes.{Few};
ghost use Rattle.copier.specs.Written.{Appended, SpaceForCommand, Wrote, pair_of};

use crate::Maskable;
use crate::masked::{copy_index, put_value_mask};
use awhile::Node;
use copier::Size;
use copier::copies::{both, copy_numeric, last};
use copier::records::append;
use reader::accepted::Accepted;

// A sequence over two parts that stand one behind the other.
pub fn append_sequence(out: &mut [u8], from: usize, first: Size, second: Size) -> Size
    requires few { Few (from + first.nodes + second.nodes) (first.bytes + second.bytes) × (0 < first.nodes) }
    requires bytes_in_bounds { (first.bytes + second.bytes) + 8 ≤ length out.old }
    ensures { Appended (pair_of from first second).size.nodes (pair_of from first second).size.bytes
        (SequenceNode (pair_of from first second).left (pair_of from first second).right) out.old out.new result }
{
    let parts = both(from, first, second);
    let node = Node::Sequence {
        first: parts.left,
        second: parts.right,
    };
    append(out, parts.size, node)
}

// A read: its index masked or not, and followed by a mask that hides its value or not. Variable, array and index are fields of its node.
pub fn harden_read(
    table: &Accepted,
    flag: usize,
    variable: usize,
    array: usize,
    place: Maskable,
    hide: bool,
    from: usize,
    out: &mut [u8],
) -> Size
    requires of_sort { HasSort table.now Numeric place.node }
    requires space_for { SpaceForCommand from (read_in table.now flag variable array place hide) out.old }
    ensures { Wrote (write_c from (read_in table.now flag variable array place hide)) out.old out.new result }
{
    let part = copy_index(table, place, flag, from, &mut *out);
    let node = Node::Read {
        variable,
        array,
        index: last(from, part.nodes),
    };
    let copy = append(&mut *out, part, node);
    if hide {
        let value = put_value_mask(flag, variable, from + copy.nodes, &mut out[copy.bytes..]);
        append_sequence(out, from, copy, value)
    } else {
        copy
    }
}

// A write: its index masked or not.
pub fn harden_write(
    table: &Accepted,
    flag: usize,
    array: usize,
    place: Maskable,
    value: usize,
    from: usize,
    out: &mut [u8],
) -> Size
    requires of_sort { HasSort table.now Numeric place.node × HasSort table.now Numeric value }
    requires space_for { SpaceForCommand from (write_in table.now flag array place value) out.old }
    ensures { Wrote (write_c from (write_in table.now flag array place value)) out.old out.new result }
{
    let first = copy_index(table, place, flag, from, &mut *out);
    let second = copy_numeric(table, value, from + first.nodes, &mut out[first.bytes..]);
    let parts = both(from, first, second);
    let node = Node::Write {
        array,
        index: parts.left,
        value: parts.right,
    };
    append(out, parts.size, node)
}
