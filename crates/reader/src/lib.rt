// Reads a table of records: the refusal and its place, or an accepted table, in which nodes are looked up by their numbers.
#![tactic(auto)]

pub mod accepted;
pub mod classes;
pub mod declared;
pub mod lookup;
pub mod reader;
pub mod records;
pub mod tables;
