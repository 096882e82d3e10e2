// The label sheet: the head with the final masks, then the records of the nodes by number.
ghost use Rattle.std.specs.Prelude.{◌≤◌, ◌≡◌, length, leb};
ghost use Rattle.std.proofs.lemmas.List.Edits.{sets};
ghost use Rattle.awhile.specs.declared.Labelling.{Labelling};
ghost use Rattle.labels.specs.Sheet.{record_bytes, head_record};
ghost use Rattle.reader.specs.Index.{version_in, nodes_in};
ghost use Rattle.sheets.specs.Rows.{first_size, longest_row, rows_in, sheet_in, RowsPut};

use crate::fields::Field;
use crate::records::{Kind, put_record};
use crate::rows::{put_row, version_of};
use analysis::labelled::Labelled;
use awhile::Labelling;
use reader::accepted::Accepted;
use record::mask::mask_bytes;

// How many bytes the sheet's first record has.
fn first_bytes(version: usize) -> usize
    ensures { (result ≡ first_size version) × (result ≤ longest_row) }
{
    10 + mask_bytes(version)
}

// Writes the records of all nodes behind the first one's place, each where it fits, and answers where the last ends, or would end.
fn write_rows(labelled: &Labelled, out: &mut [u8]) -> usize
    ensures { RowsPut (version_in labelled.now.expressions.table.now)
        (rows_in labelled.now.expressions.table.now labelled.now.notes.now) out.old out.new result }
{
    let table = labelled.expressions.table;
    let mut at = first_bytes(version_of(table));
    for n in 0..table.count() {
        at = put_row(labelled, n, &mut *out, at);
    }
    at
}

// How many bytes the sheet of a labelled table has: where its records end that are written to where none fits.
#[tactic(auto, using(crate::proofs::SheetLengths::sheet_rules))]
fn sheet_size(labelled: &Labelled) -> usize
    ensures { (final : Labelling) → result ≡ length (sheet_in labelled.now.expressions.table.now labelled.now.notes.now final) }
{
    let mut nowhere = [0u8; 1];
    write_rows(labelled, &mut nowhere)
}

// Whether the sheet of a labelled table fits a buffer. No record has more bytes than the first, so a large buffer is not measured against.
pub fn sheet_fits(labelled: &Labelled, room: usize) -> bool
    ensures { (final : Labelling) → result ≡ leb (length (sheet_in labelled.now.expressions.table.now labelled.now.notes.now final)) room }
{
    let table = labelled.expressions.table;
    let most = first_bytes(version_of(table));
    most + most * table.count() <= room || sheet_size(labelled) <= room
}

// Writes the sheet's first record: the version, the number of nodes and the final masks.
#[tactic(auto, using(crate::proofs::FieldLengths::fields_short))]
fn put_final(table: &Accepted, masks: Labelling, out: &mut [u8])
    requires { first_size (version_in table.now) ≤ length out.old }
    ensures { out.new ≡ sets out.old 0 (record_bytes (version_in table.now) (head_record (version_in table.now) (nodes_in table.now) masks)) }
{
    let version = version_of(table);
    let number = Field::Number(version);
    let nodes = Field::Number(table.count());
    let masks = Field::Masks(masks);
    put_record(&mut *out, 0, version, Kind::Sheet, &[number, nodes, masks]);
}

// Writes the sheet, from the notes of the analysis and its answer, and answers how many bytes it has.
#[tactic(auto, using(crate::proofs::SheetLengths::sheet_rules))]
pub fn write_sheet(labelled: &Labelled, masks: Labelling, out: &mut [u8]) -> usize
    requires { length (sheet_in labelled.now.expressions.table.now labelled.now.notes.now masks) ≤ length out.old }
    ensures { (out.new ≡ sets out.old 0 (sheet_in labelled.now.expressions.table.now labelled.now.notes.now masks))
        × (result ≡ length (sheet_in labelled.now.expressions.table.now labelled.now.notes.now masks)) }
{
    put_final(labelled.expressions.table, masks, &mut *out);
    write_rows(labelled, &mut *out)
}
