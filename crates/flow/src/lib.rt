// The entries, and nothing else. `flow_c` exports them under the same names: a crate is a library for programs in Rattle, as this one is for
// `program` and `cases`, or exports to C, so there are two. Parameters are those that the entries have in C.
#![tactic(auto)]

pub mod ask;
pub mod harden;
pub mod machines;
pub mod sheet;
