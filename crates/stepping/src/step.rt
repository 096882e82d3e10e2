// One step of a board, decided before anything is changed: why it is not taken, or all that it does.
ghost use Rattle.std.specs.Prelude.{◌≡◌, ◌≤◌};
ghost use Rattle.stepping.specs.Stepping.{memory_seen, shown_size, Steppable, show_step, Between, NextAs};

use crate::action::{Action, look_at};
use crate::evaluate::Values;
use crate::guess::{back_step, force_step};
use crate::memory::View;
use crate::next::Next;
use crate::run::Run;
use crate::state::MachineState;
use bytes_le::get::whole_u32;
use directives::change::{Change, Shown};
use directives::fit::{Fit, fitting};
use directives::guide::{Consumed, Guided, guide, rollback_next};
use machine::End;

// The length of an observation's record. By name and no `From`, as an observation has other numbers too, its kind for one.
#[tactic(auto, unfolding(crate::specs::Stepping::shown_size))]
fn bytes_of(shown: Shown) -> usize
    ensures { result ≡ shown_size shown }
{
    match shown {
        Shown::Fork { .. } => 6,
        Shown::Get { .. } | Shown::Put { .. } => 10,
    }
}

// A shown step that fits, if its observation has room.
#[tactic(auto, unfolding(crate::specs::Stepping::show_step))]
fn show_step(
    room: usize,
    state: MachineState,
    shown: Shown,
    change: Change,
    consumed: Consumed,
) -> Result<Next, End>
    requires { Steppable state consumed 0 × (state.shown ≤ room) }
    ensures { result ≡ show_step room state shown change consumed }
{
    let bytes = bytes_of(shown);
    if room - state.shown < bytes {
        return Err(End::Full);
    }
    Ok(Next::Goes {
        change,
        seen: Some(shown),
        state: state.stepped(change, state.flag, state.saved, consumed, bytes),
    })
}

// The next step of a board, or why the run is over. The five ends are checked in their order, before anything of the step has happened.
pub fn next_step(run: &Run, memory: &View, state: MachineState) -> Result<Next, End>
    requires { Between run.now.places run.now.directives.now run.now.budget run.now.room state (memory_seen memory.now) }
    ensures { NextAs run.now.places run.now.directives.now run.now.board run.now.budget run.now.room state (memory_seen memory.now) result }
{
    let room = run.room;
    if rollback_next(run.directives, run.board, state.at) {
        return back_step(room, run.budget, state);
    }
    let count = state.pending;
    if count == 0 {
        return Err(End::Finished);
    }
    let budget = run.budget;
    if budget <= state.steps {
        return Err(End::Spent);
    }
    let n = whole_u32(memory.pending, 4 * (count - 1)) as usize;
    let values = Values {
        table: run.places.table(),
        variables: memory.variables,
    };
    match look_at(&values, n) {
        Action::Quiet(change) => Ok(Next::Goes {
            change,
            seen: None,
            state: state.stepped_silently(change),
        }),
        Action::Show(shown) => {
            let guided = guide(run.directives, run.board, state.at).ok_or(End::OutOfDirectives)?;
            let Guided {
                directive,
                consumed,
            } = guided;
            let fit = fitting(&run.places, memory.cells, state.flag, shown, directive);
            match fit.ok_or(End::Stuck)? {
                Fit::Forces(forced) => force_step(run.board, room, state, shown, forced, consumed),
                Fit::Goes(change) => show_step(room, state, shown, change, consumed),
            }
        }
    }
}
