// One machine for all boards: the definitions and their theorems. The code is crates `directives`, `stepping` and `interpreter`.
#![tactic(auto)]

// The boards that a table runs on: the plain one takes every step as the program has it, the guessing one takes a directive for each shown step,
// and the rolling one can go back on a wrong guess as well.
#[derive(Clone, Copy, PartialEq, Eq)]
pub enum Board {
    Plain,
    Guessing,
    Rolling,
}

// How many saves can be open: "at most eight are, and a force beyond them is stuck".
pub const MAX_SAVES: usize = 8;

// What the attacker picks for one shown step, or that the newest wrong guess is rolled back.
#[derive(Clone, Copy, PartialEq, Eq)]
pub enum Directive {
    Step,
    Force,
    Load { array: usize, index: u32 },
    Store { array: usize, index: u32 },
    Rollback,
}

// Why a run is over. "The ends are numbered 1 to 5 in this order."
#[derive(Clone, Copy, PartialEq, Eq)]
pub enum End {
    Finished = 1,
    Spent = 2,
    OutOfDirectives = 3,
    Stuck = 4,
    Full = 5,
}
