// Wrong guesses: a branch that is forced, with its right side saved on the board that rolls back, and a rollback. Each function checks its own room,
// in the place among the five ends that its definition in Stepping gives it, and needs no more of a run than its arguments.
ghost use Rattle.std.specs.Prelude.{◌≡◌, ◌≤◌};
ghost use Rattle.stepping.specs.Stepping.{Steppable, force_step, save_step, back_step};

use crate::next::Next;
use crate::state::MachineState;
use directives::change::{Change, Shown};
use directives::fit::Forced;
use directives::guide::Consumed;
use machine::{Board, End, MAX_SAVES};

// With a rollback next: "the budget is checked first, then 76, even when nothing is pending; with no save open it is stuck".
#[tactic(auto, unfolding(crate::specs::Stepping::back_step))]
pub fn back_step(room: usize, budget: u32, state: MachineState) -> Result<Next, End>
    requires { state.shown ≤ room }
    ensures { result ≡ back_step room budget state }
{
    if budget <= state.steps {
        return Err(End::Spent);
    }
    if state.saved == 0 {
        return Err(End::Stuck);
    }
    if room - state.shown < 4 {
        return Err(End::Full);
    }
    Ok(Next::Undoes)
}

// The right side of a branch is saved, and the wrong one taken.
#[tactic(auto, unfolding(crate::specs::Stepping::save_step))]
fn save_step(
    room: usize,
    state: MachineState,
    forced: Forced,
    consumed: Consumed,
) -> Result<Next, End>
    requires { Steppable state consumed 0 × (state.shown ≤ room) }
    ensures { result ≡ save_step room state forced consumed }
{
    if MAX_SAVES <= state.saved {
        return Err(End::Stuck);
    }
    if room - state.shown < 6 {
        return Err(End::Full);
    }
    let change = Change::PutBack { back: forced.wrong };
    Ok(Next::Saves {
        forced,
        state: state.stepped(change, true, state.saved + 1, consumed, 6),
    })
}

// A branch that is forced the wrong way. The board that rolls back saves its right side.
#[tactic(auto, unfolding(crate::specs::Stepping::force_step, crate::specs::Stepping::wrong_step))]
pub fn force_step(
    board: Board,
    room: usize,
    state: MachineState,
    shown: Shown,
    forced: Forced,
    consumed: Consumed,
) -> Result<Next, End>
    requires { Steppable state consumed 0 × (state.shown ≤ room) }
    ensures { result ≡ force_step board room state shown forced consumed }
{
    if board == Board::Rolling {
        return save_step(room, state, forced, consumed);
    }
    if room - state.shown < 6 {
        return Err(End::Full);
    }
    let change = Change::PutBack { back: forced.wrong };
    Ok(Next::Goes {
        change,
        seen: Some(shown),
        state: state.stepped(change, true, state.saved, consumed, 6),
    })
}
