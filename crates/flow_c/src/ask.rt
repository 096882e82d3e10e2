// Label questions about a table.
ghost use Rattle.entries.specs.Promises.{AnswersQuestions};

// Answers a list of questions, each a node and a variable, by a byte each in a lent buffer.
#[unsafe(no_mangle)]
pub extern "C" fn flow_questions(
    table: &[u8],
    questions: &[u8],
    labels: &mut [u8],
    answer: &mut [u8],
) -> u64
    ensures { AnswersQuestions table.now questions.now labels.old answer.old
        result labels.new answer.new }
{
    flow::ask::flow_questions(table, questions, &mut *labels, &mut *answer)
}
