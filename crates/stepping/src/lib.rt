// The next step of a table in memory, on any board: decided before anything is changed.
#![tactic(auto)]

pub mod action;
pub mod evaluate;
pub mod guess;
pub mod memory;
pub mod next;
pub mod run;
pub mod state;
pub mod step;
