// The hardened form of a table.
ghost use Rattle.entries.specs.Promises.{Hardens};

use write_entries::Job;
use write_entries::entry::answer_job;

// Writes the hardened form of a table into a lent buffer.
pub fn flow_harden(table: &[u8], out: &mut [u8], answer: &mut [u8]) -> u64
    ensures { Hardens table.now out.old answer.old result out.new answer.new }
{
    // this job has no list; `Job` lends nothing, so `answer_job` takes one beside each
    let none = &table[..0];
    answer_job(Job::Hardened, table, none, &mut *out, &mut *answer)
}
