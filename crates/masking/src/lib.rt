// What hardening adds, by the decisions: masked conditions, indexes and values, and the updates of the flag.
#![tactic(auto)]
// The number of the next node and what is left of the output are two parameters: the output is lent on from the byte where a part ended.
// The table and the flag are two as well: the struct of both, `Plan`, is of crate hardener above and holds the decisions, which nothing here reads.

pub mod accesses;
pub mod masked;

// A condition or an index of a command, by its node, and whether it is masked. The one is a truth, the other numeric, so each contract says the sort.
#[derive(Clone, Copy)]
pub struct Maskable {
    pub node: usize,
    pub mask: bool,
}
