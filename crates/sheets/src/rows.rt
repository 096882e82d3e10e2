// The record of a command, by its kind and what is noted for it.
ghost use Rattle.std.specs.Prelude.{◌+◌, ◌^◌, ◌<◌, ◌≡◌};
ghost use Rattle.awhile.specs.declared.Sort.TheVariants.{Command};
ghost use Rattle.reader.specs.Index.{nodes_in, version_in, HasSort};
ghost use Rattle.sheets.specs.Rows.{longest_row, RowPut, row_in};

use crate::fields::Field;
use crate::records::{Kind, put_record};
use analysis::labelled::Labelled;
use awhile::Node;
use reader::accepted::Accepted;

// The version of a table, which its sheet has too.
#[tactic(auto, unfolding(reader::specs::Index::version_in))]
pub fn version_of(table: &Accepted) -> usize
    ensures { result ≡ version_in table.now }
{
    table.declared().header.version
}

// Writes the record of the command of node n at an offset, where it fits whole, and answers where it ends, or would end.
#[tactic(auto, using(crate::proofs::SheetNodes::looked_at))]
fn put_command(labelled: &Labelled, n: usize, out: &mut [u8], at: usize) -> usize
    requires { HasSort labelled.now.expressions.table.now Command n × (at + longest_row < 2 ^ 64) }
    ensures { RowPut out.old at (row_in labelled.now.expressions.table.now labelled.now.notes.now n) out.new result }
{
    let table = labelled.expressions.table;
    let version = version_of(table);
    let number = Field::Number(n);
    match table.command(n) {
        Node::Sequence { second, .. } => {
            // the masks after the first part are what enters the second
            let masks = Field::Masks(labelled.notes[second].labels());
            put_record(out, at, version, Kind::Sequence, &[number, masks])
        }
        Node::If { condition, .. } => {
            let test = Field::Label(labelled.label(n, condition));
            put_record(out, at, version, Kind::If, &[number, test])
        }
        Node::While { condition, body } => {
            // the condition is labelled by the settled masks, which enter the body
            let test = Field::Label(labelled.label(body, condition));
            let masks = Field::Masks(labelled.notes[body].labels());
            put_record(out, at, version, Kind::While, &[number, test, masks])
        }
        Node::Read { array, index, .. } => {
            let read = Field::Label(labelled.read_label(n, array, index));
            let place = Field::Label(labelled.label(n, index));
            put_record(out, at, version, Kind::Read, &[number, read, place])
        }
        Node::Write { index, .. } => {
            let place = Field::Label(labelled.label(n, index));
            put_record(out, at, version, Kind::Write, &[number, place])
        }
        // a skip or an assignment; nodes of other sorts never stand here
        _ => at,
    }
}

// Writes the record of node n, if it has one.
#[tactic(auto, using(crate::proofs::SheetNodes::looked_at))]
pub fn put_row(labelled: &Labelled, n: usize, out: &mut [u8], at: usize) -> usize
    requires { (n < nodes_in labelled.now.expressions.table.now) × (at + longest_row < 2 ^ 64) }
    ensures { RowPut out.old at (row_in labelled.now.expressions.table.now labelled.now.notes.now n) out.new result }
{
    if labelled.expressions.table.is_command(n) {
        return put_command(labelled, n, out, at);
    }
    at
}
