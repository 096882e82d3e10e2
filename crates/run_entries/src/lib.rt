// Runs a table and answers how it ended: the whole of the three entries that run one, below their exported wrappers.
#![tactic(auto)]

pub mod lengths;
pub mod machines;
pub mod memory;
pub mod tables;
