// A list of questions in bytes: pairs of a node and a variable, 2 bytes each. Whether all that it asks can be asked is told before anything is
// labelled. C lends bytes, and a pair goes by its number in them, as in the definitions (`question_at`, `all_askable`, `noted_answers`).
ghost use Rattle.std.specs.Prelude.{◌+◌, ◌*◌, ◌≤◌, ◌≡◌, length};
ghost use Rattle.reader.specs.Index.{table_of};
ghost use Rattle.labels.specs.Questions.{pairs_in, question_at, askable as can_be_asked, all_askable, answerable as can_be_answered};

use bytes_le::get::whole_u16;
use labels::{MAX_QUESTIONS, Question};
use reader::accepted::Accepted;

const PAIR_BYTES: usize = 4;

// How many whole pairs a list has.
pub fn pairs_in(questions: &[u8]) -> usize
    ensures { result ≡ pairs_in questions.now }
{
    questions.len() / PAIR_BYTES
}

// Pair i of a list.
#[tactic(auto, unfolding(labels::specs::Questions::question_at))]
pub fn question_at(questions: &[u8], i: usize) -> Question
    requires { 4 * i + 4 ≤ length questions.now }
    ensures { result ≡ question_at questions.now i }
{
    let at = PAIR_BYTES * i;
    Question {
        node: whole_u16(questions, at),
        variable: whole_u16(questions, at + 2),
    }
}

// Whether a question can be asked: its node is a command, and its variable is declared.
#[tactic(auto, using(crate::proofs::Lists::by_tests))]
fn askable(table: &Accepted, question: Question) -> bool
    ensures { result ≡ can_be_asked (table_of table.now) question }
{
    question.node < table.count()
        && table.is_command(question.node)
        && question.variable < table.declared().header.variables
}

// Whether all questions of a list can.
fn all_askable(table: &Accepted, questions: &[u8]) -> bool
    ensures { result ≡ all_askable (table_of table.now) questions.now (pairs_in questions.now) }
{
    (0..pairs_in(questions)).all(|i| askable(table, question_at(questions, i)))
}

// Whether a list is answered: it is not too long, it does not end inside a pair, and all of it can be asked.
#[tactic(auto, using(crate::proofs::Lists::by_tests))]
pub fn answerable(table: &Accepted, questions: &[u8]) -> bool
    ensures { result ≡ can_be_answered (table_of table.now) questions.now }
{
    let length = questions.len();
    length <= PAIR_BYTES * MAX_QUESTIONS
        && length % PAIR_BYTES == 0
        && all_askable(table, questions)
}
