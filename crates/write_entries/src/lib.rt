// Labels a table and writes what is asked of it into a lent buffer: the whole of the entries that write, below their exported wrappers. They differ by
// their job alone: what it refuses of a table that was read (`granting`), and what it writes of one that is labelled (`writing`).
#![tactic(auto)]

pub mod entry;
pub mod granting;
pub mod memory;
pub mod writing;

// What is asked of a table: its label sheet, the answers to a list of questions, or its hardened form. It is an enum, as crate flow
// hands one to `answer_job`: as a trait with a type for each, the memory of every size class would stand in three frames.
#[derive(Clone, Copy, PartialEq, Eq)]
pub enum Job {
    Sheet,
    Answers,
    Hardened,
}
