// Little-endian numbers in byte slices; bytes copied, and words set to 0.
#![tactic(auto)]

pub mod clear;
pub mod copy;
pub mod get;
pub mod little_endian;
pub mod put;
