// Which masks the labels ask for, decided once, for each command.
#![tactic(auto)]

pub mod decisions;
pub mod program;
