// Whole runs, on any board.
ghost use Rattle.std.specs.Prelude.{◌*◌, ◌≤◌, ◌≡◌, length};
ghost use Rattle.machine.specs.declared.Board.TheVariants.{Rolling};
ghost use Rattle.saves.specs.Leaving.{left_places, LeaveFits};
ghost use Rattle.stepping.specs.Lending.{SameMemory};
ghost use Rattle.stepping.specs.Stepping.{memory_of};
ghost use Rattle.stepping.specs.Stepping.{memory_at};
ghost use Rattle.interpreter.specs.Lending.{memory_lent, SameLent};
ghost use Rattle.interpreter.specs.Running.{Begun, PlacesLent, StoppedAs, next_word, report_with, RunAsked, run_of, RunLeaves};
ghost use Rattle.machine.specs.Runs.{max_saves};

use crate::lent::{Lent, Task};
use crate::memory::{perform, show, show_branch, show_rollback};
use crate::saving::{Saves, save_forced, take_back};
use bytes_le::clear::clear;
use bytes_le::get::u32_at;
use bytes_le::put::put32;
use directives::places::Places;
use machine::{Board, End, MAX_SAVES};
use reader::accepted::Accepted;
use saves::leave::leave;
use stepping::memory::Memory;
use stepping::next::Next;
use stepping::run::Run;
use stepping::state::MachineState;
use stepping::step::next_step;

// Why a run is over, and the state in which its last step left it.
#[derive(Clone, Copy)]
pub struct Stopped {
    pub end: End,
    pub state: MachineState,
}

// Runs from the start until one of the five ends.
fn go_on(run: &Run, memory: &mut Memory, saves: &mut Saves, observations: &mut [u8]) -> Stopped
    requires { Begun run.now.places run.now.directives.now run.now.budget run.now.room (memory_of memory.old)
        × PlacesLent run.now.places run.now.board saves.old.size saves.old.bytes.now saves.old.heights
        × (run.now.room ≡ length observations.old) }
    ensures stopped { StoppedAs run.now.places run.now.directives.now run.now.board run.now.budget
        (memory_of memory.old) saves.old.bytes.now observations.old
        (memory_of memory.new) saves.new.bytes.now saves.new.heights observations.new result }
    ensures memory { SameMemory memory.old memory.new }
    ensures saves { saves.new.bytes.ghost_name ≡ saves.old.bytes.ghost_name }
{
    let mut state = MachineState::start();
    loop {
        let view = memory.view();
        let next = match next_step(run, &view, state) {
            Ok(next) => next,
            Err(end) => return Stopped { end, state },
        };
        let at = state.shown;
        match next {
            Next::Goes {
                change,
                seen,
                state: after,
            } => {
                let rest = state.pending - 1;
                show(observations, at, seen);
                perform(change, memory, rest);
                state = after;
            }
            Next::Saves {
                forced,
                state: after,
            } => {
                let rest = state.pending - 1;
                show_branch(observations, at, forced.value);
                save_forced(forced, rest, memory, saves, state.saved);
                state = after;
            }
            Next::Undoes => {
                show_rollback(observations, at);
                let high = take_back(saves, state.saved - 1, memory);
                state = state.undone(high);
            }
        }
    }
}

// The answer of a run: its end, steps, directives used, observation bytes, flag and next node.
#[derive(Clone, Copy)]
pub struct Report {
    pub end: End,
    pub steps: u32,
    pub used: u32,
    pub shown: usize,
    pub flag: bool,
    pub next: u32,
}

// "the next node (0 if nothing is pending)". The count stands beside the list, as crate stepping's `Memory` says.
#[tactic(auto, unfolding(crate::specs::Running::next_word))]
fn next_word(pending: &[u8], count: usize) -> u32
    requires { 4 * count ≤ length pending.now }
    ensures { result ≡ next_word pending.now count }
{
    if count == 0 {
        0
    } else {
        u32_at(pending, 4 * (count - 1))
    }
}

// The numbers of a run that is over.
#[tactic(auto, unfolding(crate::specs::Running::report_with))]
fn numbers_of(stopped: Stopped, next: u32) -> Report
    ensures { result ≡ report_with stopped next }
{
    let end = stopped.end;
    let state = stopped.state;
    Report {
        end,
        steps: state.steps,
        used: state.used,
        shown: state.shown,
        flag: state.flag,
        next,
    }
}

// Leaves the open saves in the places of the board that rolls back; another board has none. Its arguments are those of `leave`, which is below
// `Saves`.
fn leave_saves(
    saves: &mut [u8],
    heights: &[u16; MAX_SAVES],
    board: Board,
    count: usize,
    before: usize,
    nodes: usize,
)
    requires { board ≡ Rolling → LeaveFits saves.old heights.now count before nodes }
    ensures { board ≡ Rolling → saves.new ≡ left_places heights.now count before nodes max_saves saves.old }
{
    if board == Board::Rolling {
        leave(saves, heights, count, before, nodes);
    }
}

// A run on slices, one by one: their items are known to be bytes, which is not known of what stands behind the fields of a struct,
// and RunLeaves says that variables and cells are the bytes of words.
fn run_slices(
    table: &Accepted,
    task: &Task,
    variables: &mut [u8],
    cells: &mut [u8],
    pending: &mut [u8],
    saves: &mut [u8],
    observations: &mut [u8],
) -> Report
    requires { RunAsked table.now task.now.directives.now task.now.board (memory_at variables.old cells.old pending.old) saves.old }
    ensures { RunLeaves
        (run_of table.now task.now.directives.now task.now.board task.now.budget
        (memory_at variables.old cells.old pending.old) (length observations.old))
        table.now task.now.board (memory_at variables.old cells.old pending.old) saves.old observations.old
        (memory_at variables.new cells.new pending.new) saves.new observations.new result }
{
    let nodes = table.count();
    let budget = task.budget;
    let run = Run {
        places: Places::new(table),
        directives: task.directives,
        board: task.board,
        room: observations.len(),
        budget,
    };
    put32(pending, 0, (nodes - 1) as u32);
    let before = variables.len() + cells.len();
    let mut memory = Memory {
        variables,
        cells,
        pending,
    };
    let mut places = Saves {
        bytes: saves,
        size: before + 4 * nodes,
        heights: [0u16; MAX_SAVES],
    };
    let stopped = go_on(&run, &mut memory, &mut places, observations);
    let heights = places.heights;
    let state = stopped.state;
    let count = state.pending;
    let next = next_word(pending, count);
    clear(pending, count, nodes);
    leave_saves(saves, &heights, task.board, state.saved, before / 4, nodes);
    numbers_of(stopped, next)
}

// A run of a table that was read: from its root, on what stands in the lent slices.
pub fn run(table: &Accepted, task: &Task, lent: &mut Lent) -> Report
    requires { RunAsked table.now task.now.directives.now task.now.board (memory_lent lent.old) lent.old.saves.now }
    ensures leaves { RunLeaves
        (run_of table.now task.now.directives.now task.now.board task.now.budget (memory_lent lent.old) (length lent.old.observations.now))
        table.now task.now.board (memory_lent lent.old) lent.old.saves.now lent.old.observations.now
        (memory_lent lent.new) lent.new.saves.now lent.new.observations.now result }
    ensures lent { SameLent lent.old lent.new }
{
    run_slices(
        table,
        task,
        lent.variables,
        lent.cells,
        lent.pending,
        lent.saves,
        lent.observations,
    )
}
