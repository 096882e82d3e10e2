// The exported entries, and nothing else: each is the entry of `flow` that has its name, with the same contract. (Crate `flow` is what
// programs in Rattle call: a crate is a library or exports to C.) Parameters are those of include/flow.h.
#![tactic(auto)]

pub mod ask;
pub mod harden;
pub mod machines;
pub mod sheet;
