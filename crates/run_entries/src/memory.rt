// The memory that a table is read in, by its size class.
ghost use Rattle.std.specs.Prelude.{◌≤◌};
ghost use Rattle.awhile.specs.Tables.{max_nodes};
ghost use Rattle.reader.specs.Classes.{RoomFor};
ghost use Rattle.interpreter.specs.Lending.{SameLent};
ghost use Rattle.run_entries.specs.Runs.{slices_lent, ReadDone};

use crate::tables::read_and_run;
use awhile::{MAX_NODES, Refusal};
use interpreter::lent::{Lent, Task};
use interpreter::run::Report;
use reader::classes::{Class, MEDIUM_NODES, SMALL_NODES, holds, next};

// Runs a table in memory for so many nodes.
fn run_sized<const NODES: usize>(
    table: &[u8],
    task: &Task,
    lent: &mut Lent,
) -> Result<Report, Refusal>
    requires { RoomFor table.now NODES × (NODES ≤ max_nodes) }
    ensures done { ReadDone table.now task.now.directives.now task.now.board task.now.budget
        (slices_lent lent.old) lent.old.saves.now (slices_lent lent.new) lent.new.saves.now result }
    ensures lent { SameLent lent.old lent.new }
{
    let mut index = [0u16; NODES];
    let mut counts = [0u16; NODES];
    read_and_run(table, &mut index, &mut counts, task, lent)
}

// Runs a table in the memory of the first class, from this one up, that holds it. The chooser calls itself with the next class, and so does not grow
// by the frames of all three: the compiler puts no large frame into a function that calls itself. Each class has an arm, as an array's size is a
// constant; hardening has a chooser of its own, since what runs in the class is another function there.
pub fn run_in(class: Class, table: &[u8], task: &Task, lent: &mut Lent) -> Result<Report, Refusal>
    ensures done { ReadDone table.now task.now.directives.now task.now.board task.now.budget
        (slices_lent lent.old) lent.old.saves.now (slices_lent lent.new) lent.new.saves.now result }
    ensures lent { SameLent lent.old lent.new }
{
    if !holds(class, table) {
        return run_in(next(class), table, task, lent);
    }
    match class {
        Class::Small => run_sized::<SMALL_NODES>(table, task, lent),
        Class::Medium => run_sized::<MEDIUM_NODES>(table, task, lent),
        Class::Full => run_sized::<MAX_NODES>(table, task, lent),
    }
}
