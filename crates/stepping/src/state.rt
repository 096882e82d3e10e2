// The machine between two steps, as far as it does not stand in lent memory.
#![tactic(auto, unfolding(crate::specs::Stepping::start_state, crate::specs::Stepping::stepped_state, crate::specs::Stepping::undone_state))]

ghost use Rattle.std.specs.Prelude.{◌≡◌};
ghost use Rattle.stepping.specs.Stepping.{start_state, no_directive, Steppable, stepped_state, Undoable, undone_state};

use directives::change::{Change, height};
use directives::guide::Consumed;

#[derive(Clone, Copy)]
pub struct MachineState {
    // whether the machine has guessed wrong, and how many saves are open: on the guessing board the flag is set with none open
    pub flag: bool,
    pub saved: usize,
    pub steps: u32,
    // the directives used, and where in their list the next one stands
    pub used: u32,
    pub at: usize,
    // how many entries are pending, and how many observation bytes are written
    pub pending: usize,
    pub shown: usize,
}

impl MachineState {
    // "A pending list starts with the root."
    pub fn start() -> Self
        ensures { result ≡ start_state }
    {
        MachineState {
            flag: false,
            saved: 0,
            steps: 0,
            used: 0,
            at: 0,
            pending: 1,
            shown: 0,
        }
    }

    // One step further: "the machine's flag, step count and directives used move on together". A shown step consumes directives and shows
    // so many bytes; the change says what is pending after it.
    pub fn stepped(
        self,
        change: Change,
        flag: bool,
        saved: usize,
        consumed: Consumed,
        bytes: usize,
    ) -> Self
        requires { Steppable self consumed bytes }
        ensures { result ≡ stepped_state self change flag saved consumed bytes }
    {
        MachineState {
            flag,
            saved,
            steps: self.steps + 1,
            used: self.used + consumed.used,
            at: self.at + consumed.size,
            pending: height(change, self.pending - 1),
            shown: self.shown + bytes,
        }
    }

    // A silent step keeps the flag, takes no directive and shows nothing.
    pub fn stepped_silently(self, change: Change) -> Self
        requires { Steppable self no_directive 0 }
        ensures { result ≡ stepped_state self change self.flag self.saved no_directive 0 }
    {
        let consumed = Consumed { used: 0, size: 0 };
        self.stepped(change, self.flag, self.saved, consumed, 0)
    }

    // Back at the newest save, which had so many entries pending: its flag was set if there is a save below it. The rollback is a step
    // that takes a directive of 4 bytes and shows 4 bytes.
    pub fn undone(self, pending: usize) -> Self
        requires { Undoable self }
        ensures { result ≡ undone_state self pending }
    {
        MachineState {
            flag: 1 < self.saved,
            saved: self.saved - 1,
            steps: self.steps + 1,
            used: self.used + 1,
            at: self.at + 4,
            pending,
            shown: self.shown + 4,
        }
    }
}
