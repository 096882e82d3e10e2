// Writes the hardened table: commands by their decisions, the whole sized first.
#![tactic(auto)]

pub mod commands;
pub mod plan;
pub mod sizes;
pub mod tables;
