// Writes the label sheet of a table that was labelled.
#![tactic(auto)]

pub mod fields;
pub mod records;
pub mod rows;
pub mod sheet;
