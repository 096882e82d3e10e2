// The answers to a list of questions, from the notes that one analysis left.
ghost use Rattle.std.specs.Prelude.{◌*◌, ◌<◌, ◌≤◌, ◌≡◌, length};
ghost use Rattle.std.proofs.lemmas.List.Edits.{sets};
ghost use Rattle.questions.specs.Noted.{noted_answer, noted_answers, NotesReach};

use crate::list::question_at;
use analysis::labelling::Mark;
use analysis::noting::Note;
use labels::Question;

// The answer to a question: 1 where its variable is secret in what is noted for its command, which is what enters it.
#[tactic(auto, using(crate::proofs::NotedAnswers::answer_byte), unfolding(crate::specs::Noted::noted_answer, analysis::specs::Notes::note_in))]
fn answer_to(notes: &[Note], question: Question) -> u8
    requires { question.node < length notes.now }
    ensures { result ≡ noted_answer notes.now question }
{
    u8::from(Mark::Variable(question.variable).label(notes[question.node].labels()))
}

// Writes the answers to the first so many questions of a list, each a byte, from the front of a buffer. What it promises is of any first so many, so
// their number stands beside the list.
#[tactic(auto, using(crate::proofs::NotedAnswers::one_more))]
pub fn write_answers(notes: &[Note], questions: &[u8], count: usize, out: &mut [u8])
    requires { NotesReach notes.now questions.now count × (4 * count ≤ length questions.now) × (count ≤ length out.old) }
    ensures { out.new ≡ sets out.old 0 (noted_answers notes.now questions.now count) }
{
    for i in 0..count {
        out[i] = answer_to(notes, question_at(questions, i));
    }
}
