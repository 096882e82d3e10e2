// What a job refuses besides a table that is not read and a buffer that is short: told by the table and its list alone, before anything is labelled.
ghost use Rattle.std.specs.Prelude.{◌≡◌};
ghost use Rattle.reader.specs.Index.{table_of};
ghost use Rattle.reader.specs.Walk.{Fresh};
ghost use Rattle.write_entries.specs.Jobs.{wanted, granted_by, ReadsFor};
ghost use Rattle.write_entries.specs.declared.Job.TheVariants.{Answers, Hardened};

use crate::Job;
use awhile::{Declarations, MAX_VARIABLES, Refusal};
use hardener::tables::MAX_HARDENED;
use questions::list::answerable;
use reader::accepted::Accepted;
use reader::reader::walk;

// 11: a list of questions that is not answered.
fn grant_answers(table: &Accepted, list: &[u8]) -> Result<(), Refusal>
    ensures { result ≡ granted_by tt (wanted Answers list.now (table_of table.now)) }
{
    if !answerable(table, list) {
        return Err(Refusal::BadQuestions);
    }
    Ok(())
}

// 8, then 9: too many nodes for a hardened form, or no free variable number. The list stands in the clause alone, which is that of the other job.
fn grant_hardened(table: &Accepted, list: &[u8]) -> Result<(), Refusal>
    ensures { result ≡ granted_by tt (wanted Hardened list.now (table_of table.now)) }
{
    let header = table.declared().header;
    if MAX_HARDENED < header.nodes {
        return Err(Refusal::TooManyNodes);
    }
    if MAX_VARIABLES <= header.variables {
        return Err(Refusal::NoFreeVariable);
    }
    Ok(())
}

// Whether a job is granted on a table that was read, or why not: by a match, as a job is an enum (`Job`).
fn grant(job: Job, table: &Accepted, list: &[u8]) -> Result<(), Refusal>
    ensures { result ≡ granted_by tt (wanted job list.now (table_of table.now)) }
{
    match job {
        Job::Sheet => Ok(()),
        Job::Answers => grant_answers(table, list),
        Job::Hardened => grant_hardened(table, list),
    }
}

// Reads a table for a job: the reader's refusals, then the job's own. What the table declares is answered and no accepted table, as the index is left in
// memory where the job is refused, too.
pub fn read_for(
    job: Job,
    table: &[u8],
    list: &[u8],
    index: &mut [u16],
    counts: &mut [u16],
) -> Result<Declarations, Refusal>
    requires { Fresh table.now index.old counts.old }
    ensures { ReadsFor job table.now list.now index.new result }
{
    let declared = walk(table, &mut *index, counts)?;
    let accepted = Accepted::new(table, &*index, declared);
    grant(job, &accepted, list)?;
    Ok(declared)
}
