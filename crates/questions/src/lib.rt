// Label questions: whether a list is answered, and the answers to one, from the notes that one analysis left.
#![tactic(auto)]

pub mod list;
pub mod writing;
