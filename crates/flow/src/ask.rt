// Label questions about a table.
ghost use Rattle.entries.specs.Promises.{AnswersQuestions};

use write_entries::Job;
use write_entries::entry::answer_job;

// Answers a list of questions, each a node and a variable, by a byte each in a lent buffer.
pub fn flow_questions(table: &[u8], questions: &[u8], labels: &mut [u8], answer: &mut [u8]) -> u64
    ensures { AnswersQuestions table.now questions.now labels.old answer.old
        result labels.new answer.new }
{
    answer_job(Job::Answers, table, questions, &mut *labels, &mut *answer)
}
