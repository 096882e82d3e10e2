// Copies expressions of a table into another, renumbered, and adds up how much copies take.
#![tactic(auto)]

ghost use Rattle.std.specs.Prelude.{◌+◌, ◌*◌, ◌<◌, ◌^◌, ◌≡◌};

use std::ops::Add;

pub mod copies;
pub mod records;
pub mod totals;

// How much is written: so many nodes, in so many bytes.
#[derive(Clone, Copy)]
pub struct Size {
    pub nodes: usize,
    pub bytes: usize,
}

// Nothing is written yet.
pub const NOTHING: Size = Size { nodes: 0, bytes: 0 };

// How much two parts take, one behind the other.
impl Add for Size {
    type Output = Size;

    ghost can_add = { λ a b. (a.nodes + b.nodes < 2 ^ 64) × (a.bytes + b.bytes < 2 ^ 64) };

    ghost add_gives = { λ a b sum. (sum.nodes ≡ a.nodes + b.nodes) × (sum.bytes ≡ a.bytes + b.bytes) };

    fn add(self, other: Size) -> Size {
        Size {
            nodes: self.nodes + other.nodes,
            bytes: self.bytes + other.bytes,
        }
    }
}

// Two copies, one behind the other: the numbers of their last nodes, and how much both take.
#[derive(Clone, Copy)]
pub struct Pair {
    pub left: usize,
    pub right: usize,
    pub size: Size,
}

// A record as it is written: a kind and so many 2-byte fields. A kind is its number: a node's is its `Form`'s, an array's is of record's `Kind`.
#[derive(Clone, Copy)]
pub struct Record<const N: usize> {
    pub kind: usize,
    pub fields: [usize; N],
}
