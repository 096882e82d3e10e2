// What a job writes of a table: it is labelled once, and then the job's bytes are written from the buffer's front, or nothing where they do not fit.
ghost use Rattle.awhile.specs.Encoding.{table_bytes};
ghost use Rattle.awhile.specs.Refusals.{got};
ghost use Rattle.reader.specs.Index.{table_of};
ghost use Rattle.masks.specs.Hardening.{hardened_table};
ghost use Rattle.labels.specs.Questions.{pairs_in};
ghost use Rattle.sheets.specs.Rows.{sheet_in};
ghost use Rattle.questions.specs.Noted.{noted_answers, NotesReach};
ghost use Rattle.write_entries.specs.Jobs.{wanted, Granted, DoneAs};
ghost use Rattle.write_entries.specs.Memory.{LabelMemory, HardenReady};

use crate::Job;
use analysis::labelled::Labelled;
use analysis::noting::Note;
use analysis::program::label_program;
use awhile::{Labelling, Refusal};
use deciding::decisions::Decision;
use deciding::program::decide_all;
use hardener::tables::{hardened_fits, write_hardened};
use questions::list::pairs_in;
use questions::writing::write_answers;
use reader::accepted::Accepted;
use sheets::sheet::{sheet_fits, write_sheet};
use variables::named::Expressions;

// The label sheet.
fn put_sheet(labelled: &Labelled, masks: Labelling, out: &mut [u8]) -> Result<usize, Refusal>
    ensures { DoneAs (got (sheet_in labelled.now.expressions.table.now labelled.now.notes.now masks)) out.old out.new result }
{
    if !sheet_fits(labelled, out.len()) {
        return Err(Refusal::ShortBuffer);
    }
    Ok(write_sheet(labelled, masks, &mut *out))
}

// The answers to a list of questions.
fn put_answers(notes: &[Note], list: &[u8], out: &mut [u8]) -> Result<usize, Refusal>
    requires { NotesReach notes.now list.now (pairs_in list.now) }
    ensures { DoneAs (got (noted_answers notes.now list.now (pairs_in list.now))) out.old out.new result }
{
    let size = pairs_in(list);
    if out.len() < size {
        return Err(Refusal::ShortBuffer);
    }
    write_answers(notes, list, size, &mut *out);
    Ok(size)
}

// The hardened form, by what is decided on masks.
fn put_hardened(
    labelled: &Labelled,
    decisions: &mut [Decision],
    out: &mut [u8],
) -> Result<usize, Refusal>
    requires { HardenReady labelled.now.expressions.table.now labelled.now.notes.now decisions.old }
    ensures { DoneAs (got (table_bytes (hardened_table (table_of labelled.now.expressions.table.now)))) out.old out.new result }
{
    let table = labelled.expressions.table;
    decide_all(labelled, &mut *decisions);
    if !hardened_fits(table, &*decisions, out.len()) {
        return Err(Refusal::ShortBuffer);
    }
    Ok(write_hardened(table, &*decisions, &mut *out))
}

// What a job that is granted writes, with notes that are all blank: by a match, as a job is an enum (`Job`).
pub fn put_labelled(
    job: Job,
    table: &Accepted,
    list: &[u8],
    named: &mut [u64],
    notes: &mut [Note],
    decisions: &mut [Decision],
    out: &mut [u8],
) -> Result<usize, Refusal>
    requires { LabelMemory table.now named.old notes.old decisions.old × Granted job list.now (table_of table.now) }
    ensures { DoneAs (wanted job list.now (table_of table.now)) out.old out.new result }
{
    let expressions = Expressions::new(table, &mut *named);
    let masks = label_program(&expressions, &mut *notes, table.declared().labels);
    let labelled = Labelled {
        expressions,
        notes: &*notes,
    };
    match job {
        Job::Sheet => put_sheet(&labelled, masks, &mut *out),
        Job::Answers => put_answers(labelled.notes, list, &mut *out),
        Job::Hardened => put_hardened(&labelled, &mut *decisions, &mut *out),
    }
}
