// What an entry answers.
#![tactic(auto)]

pub mod slice;
