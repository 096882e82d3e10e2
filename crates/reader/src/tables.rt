// Reading a table: its declarations and nodes once, with an index of the nodes' offsets, or the refusal of the first record that fails.
ghost use Rattle.std.specs.Prelude.{◌≤◌, ◌<◌, ◌≡◌, length};
ghost use Rattle.record.specs.RecordRead.{Heads};
ghost use Rattle.reader.specs.Index.{Finishes, accepted_as};
ghost use Rattle.reader.specs.Walk.{Fresh};

use crate::accepted::Accepted;
use crate::reader;
use awhile::{Declarations, Refusal};
use record::{node, uses};

// After the last record: 6, then 7.
#[tactic(auto, using(crate::proofs::Answering::finish_broken, crate::proofs::Answering::finish_extra, crate::proofs::Answering::finish_accepted))]
pub fn finish(
    table: &[u8],
    index: &[u16],
    uses: &[u16],
    declared: Declarations,
    end: usize,
) -> Result<(), Refusal>
    requires { (0 < declared.header.nodes) × Heads table.now index.now declared.header.nodes × (declared.header.nodes ≤ length uses.now) }
    ensures { Finishes table.now index.now uses.now declared end result }
{
    let nodes = declared.header.nodes;
    let root = node::sort_at(table, node::offset_at(index, nodes - 1));
    if let Some(node) = uses::find_broken(uses, nodes, root) {
        return Err(Refusal::NotATree {
            at: node::offset_at(index, node),
        });
    }
    if end < table.len() {
        return Err(Refusal::ExtraBytes { at: end });
    }
    Ok(())
}

// The whole table, of any bytes, as one value where it is accepted: the index, which is kept with it, leads to each node's record.
// Index and counts are for as many nodes as the header declares; the counts are all zero. They are lent one by one, as the index outlives the
// call, in the answer, and the counts do not.
#[tactic(auto, using(crate::proofs::Answering::accepting))]
pub fn accept<'a>(
    table: &'a [u8],
    index: &'a mut [u16],
    counts: &mut [u16],
) -> Result<Accepted<'a>, Refusal>
    requires { Fresh table.now index.old counts.old }
    ensures { result ≡ accepted_as table.now }
{
    let declared = reader::walk(table, &mut *index, &mut *counts)?;
    Ok(Accepted::new(table, &*index, declared))
}
