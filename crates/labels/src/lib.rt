// Secret and public labels: the definitions and their theorems. The code is crate `analysis`.
#![tactic(auto)]

// The most questions in one list.
pub const MAX_QUESTIONS: usize = 256;

// What is asked: whether a variable is secret just before the command of a node.
#[derive(Clone, Copy, PartialEq, Eq)]
pub struct Question {
    pub node: usize,
    pub variable: usize,
}
