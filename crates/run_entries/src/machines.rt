// Runs of a table: on the plain machine, on the guessing one and on the one that rolls back.
ghost use Rattle.std.specs.Prelude.{◌≡◌};
ghost use Rattle.machine.specs.Runs.{end_number};
ghost use Rattle.entries.specs.Answers.{answered};
ghost use Rattle.interpreter.specs.Lending.{SameLent};
ghost use Rattle.run_entries.specs.Runs.{result_of, numbers_of, slices_lent, RanAs};
ghost use Rattle.entries.specs.Promises.{lent_at, Runs, Guesses, RollsBack};

use crate::memory::run_in;
use answers::slice::{answer_numbers, answer_refusal};
use awhile::Refusal;
use interpreter::lent::{Lent, Task};
use interpreter::run::Report;
use machine::{Board, End};
use reader::classes::Class;

// Document 01's number of an end.
#[tactic(auto, unfolding(machine::specs::Runs::end_number))]
fn number_of(end: End) -> u64
    ensures { result ≡ end_number end }
{
    end as u64
}

// The answer of a call that runs, and its first number.
#[tactic(auto, unfolding(crate::specs::Runs::report_numbers))]
fn answer_done(answer: &mut [u8], done: Result<Report, Refusal>) -> u64
    ensures { (result ≡ result_of done) × (answer.new ≡ answered (numbers_of done) answer.old) }
{
    match done {
        Err(refusal) => answer_refusal(answer, refusal),
        Ok(report) => {
            answer_numbers(
                answer,
                &[
                    0,
                    number_of(report.end),
                    u64::from(report.steps),
                    u64::from(report.used),
                    report.shown as u64,
                    u64::from(report.flag),
                    u64::from(report.next),
                ],
            );
            0
        }
    }
}

// Runs a table on a board, and answers. The three functions below lend it the slices of their entries, one by one, as crate flow calls them so.
fn run_on(table: &[u8], task: &Task, lent: &mut Lent, answer: &mut [u8]) -> u64
    ensures ran { RanAs table.now task.now.directives.now task.now.board task.now.budget
        (slices_lent lent.old) lent.old.saves.now answer.old result
        (slices_lent lent.new) lent.new.saves.now answer.new }
    ensures lent { SameLent lent.old lent.new }
{
    let done = run_in(Class::Small, table, task, lent);
    answer_done(answer, done)
}

// Runs a table on the plain machine.
pub fn run_plain(
    table: &[u8],
    variables: &mut [u8],
    cells: &mut [u8],
    pending: &mut [u8],
    observations: &mut [u8],
    budget: u32,
    answer: &mut [u8],
) -> u64
    ensures { Runs table.now
        (lent_at variables.old cells.old pending.old observations.old) budget answer.old result
        (lent_at variables.new cells.new pending.new observations.new) answer.new }
{
    // the plain machine asks for no directives and saves nothing
    let none = &table[..0];
    let mut unused = [0u8; 1];
    let task = Task {
        directives: none,
        board: Board::Plain,
        budget,
    };
    let mut lent = Lent {
        variables,
        cells,
        pending,
        saves: &mut unused,
        observations,
    };
    run_on(table, &task, &mut lent, answer)
}

// Runs a table on the guessing machine, under a list of directives.
pub fn run_guessing(
    table: &[u8],
    directives: &[u8],
    variables: &mut [u8],
    cells: &mut [u8],
    pending: &mut [u8],
    observations: &mut [u8],
    budget: u32,
    answer: &mut [u8],
) -> u64
    ensures { Guesses table.now directives.now
        (lent_at variables.old cells.old pending.old observations.old) budget answer.old result
        (lent_at variables.new cells.new pending.new observations.new) answer.new }
{
    let mut unused = [0u8; 1];
    let task = Task {
        directives,
        board: Board::Guessing,
        budget,
    };
    let mut lent = Lent {
        variables,
        cells,
        pending,
        saves: &mut unused,
        observations,
    };
    run_on(table, &task, &mut lent, answer)
}

// Runs a table on the machine that rolls back, under a list of directives.
pub fn run_rolling(
    table: &[u8],
    directives: &[u8],
    variables: &mut [u8],
    cells: &mut [u8],
    pending: &mut [u8],
    saves: &mut [u8],
    observations: &mut [u8],
    budget: u32,
    answer: &mut [u8],
) -> u64
    ensures { RollsBack table.now directives.now
        (lent_at variables.old cells.old pending.old observations.old) saves.old budget answer.old result
        (lent_at variables.new cells.new pending.new observations.new) saves.new answer.new }
{
    let task = Task {
        directives,
        board: Board::Rolling,
        budget,
    };
    let mut lent = Lent {
        variables,
        cells,
        pending,
        saves,
        observations,
    };
    run_on(table, &task, &mut lent, answer)
}
