// The record at an offset: what is due there, by what the records before it say. A record's functions take the slice and the offset of a `Reader`
// by themselves: a rule of the project (docs/DECISIONS, "thin functions hand slice and number to covered code").
ghost use Rattle.std.specs.Prelude.{◌+◌, ◌^◌, ◌≤◌, ◌<◌, ◌≡◌};
ghost use Rattle.awhile.specs.Tables.{max_variables, max_arrays, max_cells, labels_start, array_size, read_header, read_labels, read_count};
ghost use Rattle.reader.specs.Walk.{header_due, labels_due, count_due, read_on, Walking, TurnedAs, NodeReady, NodeTurned, BodyDue};

use crate::tables;
use awhile::{Declarations, Header, Labelling, MAX_ARRAYS, MAX_NODES, Refusal};
use record::forms::record_size;
use record::layout::{ARRAY_BYTES, HEADER_BYTES, labels_bytes};
use record::{declarations, node, uses};

// What is due: the header, the labels, or an array, a node or the end. Which of the last three it is, the number of records left tells: with a
// kind for each, `Progress` would say that twice.
#[derive(Clone, Copy)]
pub enum Due {
    Header,
    Labels,
    Body,
}

// What was read so far: how many records are left, the end counted as one; how long the last one was; and what they declare. It has no invariant:
// after the end none is left, and before the header nothing is declared, so what a step asks of it depends on what is due.
#[derive(Clone, Copy)]
pub struct Progress {
    pub left: usize,
    pub size: usize,
    pub due: Due,
    pub declared: Declarations,
}

// Before the first record: no table has more records than are counted here.
pub const BEGUN: Progress = Progress {
    left: 3 + MAX_ARRAYS + MAX_NODES,
    size: 0,
    due: Due::Header,
    declared: UNDECLARED,
};

const UNDECLARED: Declarations = Declarations {
    header: Header {
        version: 0,
        variables: 0,
        arrays: 0,
        nodes: 0,
    },
    cells: 0,
    labels: Labelling {
        variables: 0,
        arrays: 0,
    },
};

// The header.
#[tactic(auto, using(crate::proofs::Answering::read_stops, crate::proofs::Answering::read_goes), unfolding(crate::specs::Walk::header_due))]
fn header_due(table: &[u8], at: usize) -> Result<Progress, Refusal>
    requires { at ≡ 0 }
    ensures { result ≡ read_on (read_header table.now) header_due }
{
    let header = declarations::read_header(table, at)?;
    Ok(Progress {
        left: 2 + header.arrays + header.nodes,
        size: HEADER_BYTES,
        due: Due::Labels,
        declared: Declarations {
            header,
            ..UNDECLARED
        },
    })
}

// The labels record.
#[tactic(auto, using(crate::proofs::Answering::read_stops, crate::proofs::Answering::read_goes), unfolding(crate::specs::Walk::labels_due))]
fn labels_due(table: &[u8], at: usize, progress: Progress) -> Result<Progress, Refusal>
    requires { (at ≡ labels_start progress.declared.header) × (progress.declared.header.variables ≤ max_variables)
        × (progress.declared.header.arrays ≤ max_arrays) × (0 < progress.left) }
    ensures { result ≡ read_on (read_labels table.now progress.declared.header at) (labels_due progress) }
{
    let header = progress.declared.header;
    let labels = declarations::read_labels(table, header, at)?;
    Ok(Progress {
        left: progress.left - 1,
        size: labels_bytes(header.version),
        due: Due::Body,
        declared: Declarations {
            header,
            cells: 0,
            labels,
        },
    })
}

// An array record.
#[tactic(auto, using(crate::proofs::Answering::read_stops, crate::proofs::Answering::read_goes), unfolding(crate::specs::Walk::count_due))]
fn array_due(table: &[u8], at: usize, progress: Progress) -> Result<Progress, Refusal>
    requires { (at + array_size < 2 ^ 64) × (progress.declared.cells ≤ max_cells) × (0 < progress.left) }
    ensures { result ≡ read_on (read_count table.now at progress.declared.cells) (count_due progress) }
{
    let declared = progress.declared;
    let count = declarations::read_count(table, at, declared.cells)?;
    Ok(Progress {
        left: progress.left - 1,
        size: ARRAY_BYTES,
        due: Due::Body,
        declared: Declarations {
            cells: declared.cells + count,
            ..declared
        },
    })
}

// A node record: its offset goes into the index, and how often each number is a child into the counts.
// The two slices are lent apart: each contract of a struct that lends them would have to say besides that they are the same ones afterwards.
fn node_due(
    table: &[u8],
    at: usize,
    progress: Progress,
    n: usize,
    index: &mut [u16],
    uses: &mut [u16],
) -> Result<Progress, Refusal>
    requires { NodeReady table.now at progress n index.old uses.old }
    ensures { NodeTurned table.now at progress n index.new uses.new result }
{
    let fields = node::read_node(table, &*index, progress.declared.header, n, at)?;
    index[n] = at as u16;
    uses::count_fields(&mut *uses, fields);
    Ok(Progress {
        left: progress.left - 1,
        size: record_size(fields),
        due: Due::Body,
        declared: progress.declared,
    })
}

// After the header and the labels: an array, a node, or the end.
fn body_at(
    table: &[u8],
    at: usize,
    progress: Progress,
    index: &mut [u16],
    uses: &mut [u16],
) -> Result<Progress, Refusal>
    requires { BodyDue table.now at progress index.old uses.old }
    ensures { TurnedAs table.now at progress result index.new uses.new }
{
    let left = progress.left;
    let declared = progress.declared;
    let nodes = declared.header.nodes;
    if nodes + 1 < left {
        return array_due(table, at, progress);
    }
    if 1 < left {
        return node_due(
            table,
            at,
            progress,
            nodes + 1 - left,
            &mut *index,
            &mut *uses,
        );
    }
    tables::finish(table, &*index, &*uses, declared, at)?;
    Ok(Progress {
        left: 0,
        size: 0,
        due: Due::Body,
        declared,
    })
}

// The record that is due at an offset.
pub fn record_at(
    table: &[u8],
    at: usize,
    progress: Progress,
    index: &mut [u16],
    uses: &mut [u16],
) -> Result<Progress, Refusal>
    requires { Walking table.now at progress index.old uses.old × (0 < progress.left) }
    ensures { TurnedAs table.now at progress result index.new uses.new }
{
    match progress.due {
        Due::Header => header_due(table, at),
        Due::Labels => labels_due(table, at, progress),
        Due::Body => body_at(table, at, progress, &mut *index, &mut *uses),
    }
}
