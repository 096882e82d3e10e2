// Runs a table in memory, on any board: makes the changes of the steps that are decided, and shows what they show.
#![tactic(auto)]

pub mod lent;
pub mod memory;
pub mod run;
pub mod saving;
