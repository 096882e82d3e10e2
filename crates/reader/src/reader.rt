// A reader of a table: the slice and the offset of the record that it stands at, held together. It walks the table record by record,
// and nothing else on the way keeps an offset.
// `record` hands the slice and the number on, and `walk` moves the reader on by the length of the record that was read.
ghost use Rattle.std.specs.Prelude.{◌<◌};
ghost use Rattle.reader.specs.Index.{Answers};
ghost use Rattle.reader.specs.Walk.{Fresh, Walking, TurnedAs};

use crate::records;
use crate::records::{BEGUN, Progress};
use awhile::{Declarations, Refusal};

#[derive(Clone, Copy)]
pub struct Reader<'a> {
    pub table: &'a [u8],
    pub at: usize,
}

// The record that the reader stands at: its slice and its number go to covered code.
pub fn record<'a>(
    reader: Reader<'a>,
    progress: Progress,
    index: &mut [u16],
    uses: &mut [u16],
) -> Result<Progress, Refusal>
    requires { Walking reader.table.now reader.at progress index.old uses.old × (0 < progress.left) }
    ensures { TurnedAs reader.entry.table.now reader.entry.at progress result index.new uses.new }
{
    records::record_at(reader.table, reader.at, progress, index, uses)
}

// From the first record to the end, or to the first that is refused: what the table declares.
// How many records are left is known only once the header is read, so no `for` counts them.
pub fn walk(table: &[u8], index: &mut [u16], uses: &mut [u16]) -> Result<Declarations, Refusal>
    requires { Fresh table.now index.old uses.old }
    ensures { Answers table.now index.new result }
{
    let mut reader = Reader { table, at: 0 };
    let mut progress = BEGUN;
    while 0 < progress.left {
        progress = record(reader, progress, &mut *index, &mut *uses)?;
        reader.at += progress.size;
    }
    Ok(progress.declared)
}
