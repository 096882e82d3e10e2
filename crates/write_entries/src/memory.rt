// The memory that a job is done in: that of the first size class that holds the table. Index and counts are made for reading, and the rest behind
// it: a table that is not read, or a job that is not granted, does not pay for that. Each is an array of its own by node number, as each is lent on by
// itself: counts for reading alone, names and notes for labelling, decisions only where a table is hardened.
ghost use Rattle.std.specs.Prelude.{◌≤◌, min, ◌≡◌};
ghost use Rattle.awhile.specs.Refusals.{and_then};
ghost use Rattle.awhile.specs.Tables.{max_nodes, read_table};
ghost use Rattle.reader.specs.Classes.{RoomFor};
ghost use Rattle.reader.specs.Index.{table_of, nodes_in};
ghost use Rattle.masks.specs.Hardening.{max_hardened};
ghost use Rattle.write_entries.specs.Jobs.{wanted, Granted, DoneAs};

use crate::Job;
use crate::granting::read_for;
use crate::writing::put_labelled;
use analysis::noting::Note;
use awhile::{MAX_NODES, Refusal};
use deciding::decisions::Decision;
use hardener::tables::MAX_HARDENED;
use reader::accepted::Accepted;
use reader::classes::{Class, MEDIUM_NODES, SMALL_NODES, holds, next};

// What a job that is granted writes, in memory for N nodes and as many decisions D as are wanted: a larger table is not hardened. Memory is
// cleared where a function begins, so this is a function of its own.
fn written_within<const N: usize, const D: usize>(
    job: Job,
    table: &Accepted,
    list: &[u8],
    out: &mut [u8],
) -> Result<usize, Refusal>
    requires room { nodes_in table.now ≤ N }
    requires nodes { N ≤ max_nodes }
    requires decisions { D ≡ min N max_hardened }
    requires granted { Granted job list.now (table_of table.now) }
    ensures { DoneAs (wanted job list.now (table_of table.now)) out.old out.new result }
{
    let mut named = [0u64; N];
    let mut notes = [Note::BLANK; N];
    let mut decisions = [Decision::NONE; D];
    put_labelled(
        job,
        table,
        list,
        &mut named,
        &mut notes,
        &mut decisions,
        &mut *out,
    )
}

// A job in memory for N nodes.
fn done_within<const N: usize, const D: usize>(
    job: Job,
    table: &[u8],
    list: &[u8],
    out: &mut [u8],
) -> Result<usize, Refusal>
    requires room { RoomFor table.now N }
    requires nodes { N ≤ max_nodes }
    requires decisions { D ≡ min N max_hardened }
    ensures { DoneAs (and_then (read_table table.now) (wanted job list.now)) out.old out.new result }
{
    let mut index = [0u16; N];
    let mut counts = [0u16; N];
    let declared = read_for(job, table, list, &mut index, &mut counts)?;
    let accepted = Accepted::new(table, &index, declared);
    written_within::<N, D>(job, &accepted, list, &mut *out)
}

// A job in the memory of the first class, from this one up, that holds the table. The function calls itself with the next class: into one that does, the
// compiler puts no large frame, and a small table is not charged for the largest. The sizes are constants of the memory's
// types, so each class has an arm.
pub fn done_in(
    class: Class,
    job: Job,
    table: &[u8],
    list: &[u8],
    out: &mut [u8],
) -> Result<usize, Refusal>
    ensures { DoneAs (and_then (read_table table.now) (wanted job list.now)) out.old out.new result }
{
    if !holds(class, table) {
        return done_in(next(class), job, table, list, &mut *out);
    }
    match class {
        Class::Small => done_within::<SMALL_NODES, SMALL_NODES>(job, table, list, &mut *out),
        Class::Medium => done_within::<MEDIUM_NODES, MEDIUM_NODES>(job, table, list, &mut *out),
        Class::Full => done_within::<MAX_NODES, MAX_HARDENED>(job, table, list, &mut *out),
    }
}
