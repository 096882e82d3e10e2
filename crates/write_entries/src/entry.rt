// The body of every entry that writes: its job is done, and what that came to is answered.
ghost use Rattle.std.specs.Prelude.{◌≡◌};
ghost use Rattle.awhile.specs.Refusals.{and_then};
ghost use Rattle.awhile.specs.Tables.{read_table};
ghost use Rattle.entries.specs.Promises.{written_at};
ghost use Rattle.entries.specs.Writing.{writing};
ghost use Rattle.write_entries.specs.Jobs.{wanted};

use crate::Job;
use crate::memory::done_in;
use answers::slice::{answer_numbers, answer_refusal};
use reader::classes::Class;

// Does a job on a table of any bytes, with its list. A job without one makes nothing of it: `wanted` takes job and list apart, and so do the calls of crate
// flow.
pub fn answer_job(job: Job, table: &[u8], list: &[u8], out: &mut [u8], answer: &mut [u8]) -> u64
    ensures { written_at result out.new answer.new
        ≡ writing (and_then (read_table table.now) (wanted job list.now)) out.old answer.old }
{
    match done_in(Class::Small, job, table, list, &mut *out) {
        Err(refusal) => answer_refusal(&mut *answer, refusal),
        Ok(size) => {
            answer_numbers(&mut *answer, &[0, size as u64]);
            0
        }
    }
}
