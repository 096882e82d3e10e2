// The fields of the sheet's records: what they hold, how long they are, and their bytes.
// The version is handed on as a number: it is that of the table's header, the sheet's first record repeats it, and the definitions take it so.
ghost use Rattle.std.specs.Prelude.{◌+◌, ◌≤◌, ◌≡◌, length};
ghost use Rattle.std.proofs.lemmas.List.Edits.{sets};
ghost use Rattle.awhile.specs.Tables.{mask_bytes};
ghost use Rattle.labels.specs.Sheet.{field_bytes, masks};
ghost use Rattle.sheets.specs.Rows.{field_of, longest_field};

use awhile::Labelling;
use bytes_le::put::put16;
use record::mask::{mask_bytes, put_mask};

#[derive(Clone, Copy)]
pub enum Field {
    // a number, 2 bytes
    Number(usize),
    // a label, 2 bytes: 1 is secret
    Label(bool),
    // the two masks of a labelling
    Masks(Labelling),
}

impl Field {
    // How many bytes it has, by the table's version.
    #[tactic(auto, using(crate::proofs::FieldLengths::field_rules))]
    pub fn size(self, version: usize) -> usize
        ensures { (result ≡ length (field_bytes version (field_of self))) × (result ≤ longest_field) }
    {
        match self {
            Field::Number(_) | Field::Label(_) => 2,
            Field::Masks(_) => mask_bytes(version) + 2,
        }
    }
}

// Writes two masks. (The masks of a hardened table are no field of a sheet: crate record, where both could be written, has no `field_bytes`.)
pub fn put_masks(out: &mut [u8], at: usize, version: usize, labels: Labelling)
    requires { at + mask_bytes version + 2 ≤ length out.old }
    ensures { out.new ≡ sets out.old at (field_bytes version (masks labels)) }
{
    put_mask(&mut *out, at, version, labels.variables);
    let arrays = usize::from(labels.arrays);
    put16(&mut *out, at + mask_bytes(version), arrays);
}

// Writes a field.
#[tactic(auto, using(crate::proofs::FieldLengths::field_rules), unfolding(labels::specs::Sheet::field_bytes))]
pub fn put_field(out: &mut [u8], at: usize, version: usize, field: Field)
    requires { at + length (field_bytes version (field_of field)) ≤ length out.old }
    ensures { out.new ≡ sets out.old at (field_bytes version (field_of field)) }
{
    match field {
        Field::Number(number) => put16(&mut *out, at, number),
        Field::Label(secret) => put16(&mut *out, at, usize::from(secret)),
        Field::Masks(labels) => put_masks(&mut *out, at, version, labels),
    }
}
