// Whole states of a machine, saved in places of lent memory and copied back.
#![tactic(auto)]

pub mod leave;
pub mod place;
