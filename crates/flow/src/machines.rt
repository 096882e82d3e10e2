// Runs of a table: on the plain machine, on the guessing one and on the one that rolls back.
ghost use Rattle.entries.specs.Promises.{lent_at, Runs, Guesses, RollsBack};

use run_entries::machines::{run_guessing, run_plain, run_rolling};

// Runs a table on the plain machine.
pub fn flow_run(
    table: &[u8],
    variables: &mut [u8],
    cells: &mut [u8],
    pending: &mut [u8],
    observations: &mut [u8],
    budget: u32,
    answer: &mut [u8],
) -> u64
    ensures { Runs table.now
        (lent_at variables.old cells.old pending.old observations.old) budget answer.old result
        (lent_at variables.new cells.new pending.new observations.new) answer.new }
{
    run_plain(
        table,
        &mut *variables,
        &mut *cells,
        &mut *pending,
        &mut *observations,
        budget,
        &mut *answer,
    )
}

// Runs a table on the guessing machine, under a list of directives.
pub fn flow_guess(
    table: &[u8],
    directives: &[u8],
    variables: &mut [u8],
    cells: &mut [u8],
    pending: &mut [u8],
    observations: &mut [u8],
    budget: u32,
    answer: &mut [u8],
) -> u64
    ensures { Guesses table.now directives.now
        (lent_at variables.old cells.old pending.old observations.old) budget answer.old result
        (lent_at variables.new cells.new pending.new observations.new) answer.new }
{
    run_guessing(
        table,
        directives,
        &mut *variables,
        &mut *cells,
        &mut *pending,
        &mut *observations,
        budget,
        &mut *answer,
    )
}

// Runs a table on the machine that rolls wrong guesses back, under a list of directives.
pub fn flow_rollback(
    table: &[u8],
    directives: &[u8],
    variables: &mut [u8],
    cells: &mut [u8],
    pending: &mut [u8],
    saves: &mut [u8],
    observations: &mut [u8],
    budget: u32,
    answer: &mut [u8],
) -> u64
    ensures { RollsBack table.now directives.now
        (lent_at variables.old cells.old pending.old observations.old) saves.old budget answer.old result
        (lent_at variables.new cells.new pending.new observations.new) saves.new answer.new }
{
    run_rolling(
        table,
        directives,
        &mut *variables,
        &mut *cells,
        &mut *pending,
        &mut *saves,
        &mut *observations,
        budget,
        &mut *answer,
    )
}
