// The records of nodes, written into bytes.
ghost use Rattle.std.specs.Prelude.{◌+◌, ◌*◌, ◌≤◌, ◌≡◌, length, sum_by};
ghost use Rattle.std.proofs.lemmas.List.Edits.{sets};
ghost use Rattle.awhile.specs.Nodes.{size_of};
ghost use Rattle.copier.specs.Records.{number_of, record_bytes, record_size};
ghost use Rattle.copier.specs.Written.{Appended, AppendedAll, AppendedRecord, RoomBehind};

use crate::{Record, Size};
use awhile::Node;
use bytes_le::put;
use record::forms::{Field, Fields, form_of};

// The number that a 2-byte field holds. `Field` is record's, so a `From` could only stand there, and this is all that asks for it.
fn number_of(field: Field) -> usize
    ensures { result ≡ number_of field }
{
    match field {
        Field::Constant { value } => value,
        Field::Variable { variable } => variable,
        Field::Array { array } => array,
        Field::Child { node, .. } => node,
    }
}

// A record at the front of a slice: its length, its kind and its fields. The answer is its length.
pub fn put_record<const N: usize>(out: &mut [u8], record: Record<N>) -> usize
    requires { record_size «record».fields ≤ length out.old }
    ensures { (out.new ≡ sets out.old 0 (record_bytes «record».entry.kind «record».entry.fields)) × (result ≡ record_size «record».entry.fields) }
{
    let size = 4 + 2 * N;
    put::put16(&mut *out, 0, size);
    put::put16(&mut *out, 2, record.kind);
    for (i, field) in record.fields.iter().enumerate() {
        put::put16(&mut *out, 4 + 2 * i, *field);
    }
    size
}

// A record behind what is written already. The answer is how much is written then.
pub fn append_record<const N: usize>(out: &mut [u8], so_far: Size, record: Record<N>) -> Size
    requires { RoomBehind so_far 1 (record_size «record».fields) out.old }
    ensures { AppendedRecord so_far.nodes so_far.bytes «record».entry.kind «record».entry.fields out.old out.new result }
{
    let bytes = put_record(&mut out[so_far.bytes..], record);
    so_far + Size { nodes: 1, bytes }
}

// A node's record behind what is written already. A number's four bytes are two 2-byte fields.
// How many fields a record has is in its type, so each shape of `Fields` has an arm that makes an array of just so many.
pub fn append(out: &mut [u8], so_far: Size, node: Node) -> Size
    requires { RoomBehind so_far 1 (size_of node) out.old }
    ensures { Appended so_far.nodes so_far.bytes node out.old out.new result }
{
    let form = form_of(node);
    let kind = form.kind;
    match form.fields {
        Fields::Nothing => append_record(out, so_far, Record { kind, fields: [] }),
        Fields::Word { value } => {
            let fields = [(value % 65536) as usize, (value / 65536) as usize];
            append_record(out, so_far, Record { kind, fields })
        }
        Fields::One { first } => {
            let fields = [number_of(first)];
            append_record(out, so_far, Record { kind, fields })
        }
        Fields::Two { first, second } => {
            let fields = [number_of(first), number_of(second)];
            append_record(out, so_far, Record { kind, fields })
        }
        Fields::Three {
            first,
            second,
            third,
        } => {
            let fields = [number_of(first), number_of(second), number_of(third)];
            append_record(out, so_far, Record { kind, fields })
        }
    }
}

// Nodes' records behind what is written already, one behind the other. Where the nodes are written out, as in a mask, no loop is left of it.
#[inline(always)]
pub fn append_all<const N: usize>(out: &mut [u8], so_far: Size, nodes: [Node; N]) -> Size
    requires { RoomBehind so_far N (sum_by size_of nodes) out.old }
    ensures { AppendedAll so_far nodes.entry out.old out.new result }
{
    let mut size = so_far;
    for node in nodes.iter() {
        size = append(&mut *out, size, *node);
    }
    size
}
