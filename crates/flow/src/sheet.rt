// The label sheet of a table.
ghost use Rattle.entries.specs.Promises.{Sheets};

use write_entries::Job;
use write_entries::entry::answer_job;

// Writes the label sheet of a table into a lent buffer.
pub fn flow_sheet(table: &[u8], sheet: &mut [u8], answer: &mut [u8]) -> u64
    ensures { Sheets table.now sheet.old answer.old result sheet.new answer.new }
{
    // this job has no list; `Job` lends nothing, so `answer_job` takes one beside each
    let none = &table[..0];
    answer_job(Job::Sheet, table, none, &mut *sheet, &mut *answer)
}
