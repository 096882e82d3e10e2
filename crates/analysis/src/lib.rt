// Follows secret and public labels through a table.
#![tactic(auto)]

pub mod commands;
pub mod labelled;
pub mod labelling;
pub mod noting;
pub mod program;
