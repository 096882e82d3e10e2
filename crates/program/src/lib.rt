// What the program `harden` does, from the bytes of standard input to those of standard output.
#![tactic(auto)]

pub mod input;
pub mod stream;
