// A run of a table, in memory that is lent for reading it. Table, task and what is lent go down as they are: the table alone becomes another
// value here, an `Accepted`.
ghost use Rattle.reader.specs.Walk.{Fresh};
ghost use Rattle.interpreter.specs.Lending.{SameLent};
ghost use Rattle.run_entries.specs.Runs.{slices_lent, DoneAs, ReadDone};

use crate::lengths::lengths_for;
use awhile::Refusal;
use directives::list::reads;
use interpreter::lent::{Lent, Task};
use interpreter::run::{Report, run};
use reader::accepted::Accepted;
use reader::tables::accept;

// Runs a table that was read, if the list reads and the slices have the right lengths.
fn run_read(table: &Accepted, task: &Task, lent: &mut Lent) -> Result<Report, Refusal>
    ensures done { DoneAs table.now task.now.directives.now task.now.board task.now.budget
        (slices_lent lent.old) lent.old.saves.now (slices_lent lent.new) lent.new.saves.now result }
    ensures lent { SameLent lent.old lent.new }
{
    if !reads(task.directives, task.board) {
        return Err(Refusal::BadDirectives);
    }
    lengths_for(
        table.declared(),
        task.board,
        lent.variables.len(),
        lent.cells.len(),
        lent.pending.len(),
        lent.saves.len(),
    )?;
    Ok(run(table, task, lent))
}

// Reads a table and runs it. Index and counts are for as many nodes as its header declares; the counts are all zero.
pub fn read_and_run<'a>(
    table: &'a [u8],
    index: &'a mut [u16],
    counts: &mut [u16],
    task: &Task,
    lent: &mut Lent,
) -> Result<Report, Refusal>
    requires { Fresh table.now index.old counts.old }
    ensures done { ReadDone table.now task.now.directives.now task.now.board task.now.budget
        (slices_lent lent.old) lent.old.saves.now (slices_lent lent.new) lent.new.saves.now result }
    ensures lent { SameLent lent.old lent.new }
{
    let accepted = accept(table, index, counts)?;
    run_read(&accepted, task, lent)
}
