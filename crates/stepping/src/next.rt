// What the next step of a board is, once it is decided.
use crate::state::MachineState;
use directives::change::{Change, Shown};
use directives::fit::Forced;

#[derive(Clone, Copy)]
pub enum Next {
    // a step of the program, with what it shows, if anything, and the saves as they are
    Goes {
        change: Change,
        seen: Option<Shown>,
        state: MachineState,
    },
    // a force, on the board that rolls back: the right side is saved, the wrong one taken
    Saves {
        forced: Forced,
        state: MachineState,
    },
    // a rollback to the newest save
    Undoes,
}
