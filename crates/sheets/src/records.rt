// The sheet's records: a length, a kind and fields. Fields are lent as a slice, of which contracts say that they are few (`most_fields`), and
// that the record ends below 2^64: neither is known of a slice and an offset by themselves.
ghost use Rattle.std.specs.Prelude.{ℕ, ◌+◌, ◌^◌, ◌≤◌, ◌<◌, ◌≡◌, map, sum_by, length};
ghost use Rattle.std.proofs.lemmas.List.Edits.{sets};
ghost use Rattle.labels.specs.Sheet.{field_bytes, fields_bytes, record_bytes, sheet_record};
ghost use Rattle.sheets.specs.Rows.{field_of, most_fields, record_of, RowPut};

use crate::fields::{Field, put_field};
use bytes_le::put::put16;

#[derive(Clone, Copy)]
pub enum Kind {
    Sheet = 128,
    Sequence = 129,
    If = 130,
    While = 131,
    Read = 132,
    Write = 133,
}

// How many bytes fields have.
fn fields_size(version: usize, fields: &[Field]) -> usize
    requires { length fields.now ≤ most_fields }
    ensures { result ≡ sum_by (λ f. length (field_bytes version (field_of f))) fields.now }
{
    fields.iter().map(|field| field.size(version)).sum()
}

// Writes fields, one behind the other.
fn put_fields(out: &mut [u8], at: usize, version: usize, fields: &[Field])
    requires { at + length (fields_bytes version (map field_of fields.now)) ≤ length out.old }
    ensures { out.new ≡ sets out.old at (fields_bytes version (map field_of fields.now)) }
{
    let mut next = at;
    for field in fields {
        put_field(&mut *out, next, version, *field);
        next += field.size(version);
    }
}

// Writes a record of a kind by its number at an offset, where it fits whole, and answers where it ends, or would end. The offset stands beside the
// buffer, and not in a slice of it, since it goes on behind the buffer's end where a record does not fit. What it promises is of any number, so
// the number stands in it, and `put_record` gives those of the six kinds.
pub fn put_numbered(
    out: &mut [u8],
    at: usize,
    version: usize,
    number: usize,
    fields: &[Field],
) -> usize
    requires { (length fields.now ≤ most_fields) × (at + (4 + length (fields_bytes version (map field_of fields.now))) < 2 ^ 64) }
    ensures { RowPut out.old at (record_bytes version (sheet_record number (map field_of fields.now))) out.new result }
{
    let size = 4 + fields_size(version, fields);
    let end = at + size;
    if end <= out.len() {
        put16(&mut *out, at, size);
        put16(&mut *out, at + 2, number);
        put_fields(&mut *out, at + 4, version, fields);
    }
    end
}

// The same of a kind that the sheet has.
pub fn put_record(out: &mut [u8], at: usize, version: usize, kind: Kind, fields: &[Field]) -> usize
    requires { (length fields.now ≤ most_fields) × (at + (4 + length (fields_bytes version (map field_of fields.now))) < 2 ^ 64) }
    ensures { RowPut out.old at (record_bytes version (record_of kind fields.now)) out.new result }
{
    put_numbered(&mut *out, at, version, kind as usize, fields)
}
