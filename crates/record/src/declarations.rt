// The declarations of a table: header, labels and arrays.
ghost use Rattle.std.specs.Prelude.{◌+◌, ◌^◌, ◌<◌, ◌≤◌, ◌≡◌, ◌&&◌, ltb, leb};
ghost use Rattle.awhile.specs.Refusals.{as_result};
ghost use Rattle.awhile.specs.Tables.{known_version, most_variables, max_variables, max_arrays, max_nodes, max_cells, longest_labels, array_size};
ghost use Rattle.awhile.specs.Tables.{read_header, read_labels, read_count};

use crate::checks::frame_of_kind;
use crate::layout::{ARRAY_BYTES, HEADER_BYTES, Kind, labels_bytes};
use crate::mask::{mask_at, mask_bytes, mask_fits, most_variables};
use awhile::{Header, Labelling, MAX_ARRAYS, MAX_CELLS, MAX_NODES, Refusal};
use bytes_le::get;

// There is such a version.
#[tactic(auto, unfolding(awhile::specs::Tables::known_version))]
fn known_version(version: usize) -> bool
    ensures { result ≡ known_version version }
{
    matches!(version, 1 | 2)
}

// Version, variables, arrays and nodes are within the limits.
fn within_limits(header: Header) -> bool
    ensures { result ≡ (known_version header.version && leb header.variables (most_variables header.version)
        && leb header.arrays max_arrays && ltb 0 header.nodes && leb header.nodes max_nodes) }
{
    known_version(header.version)
        && header.variables <= most_variables(header.version)
        && header.arrays <= MAX_ARRAYS
        && 0 < header.nodes
        && header.nodes <= MAX_NODES
}

// The header, which stands at the start: version, variables, arrays and nodes.
pub fn read_header(table: &[u8], at: usize) -> Result<Header, Refusal>
    requires { at ≡ 0 }
    ensures { result ≡ as_result (read_header table.now) }
{
    frame_of_kind(table, at, Kind::Header as usize, HEADER_BYTES)?;
    let header = Header {
        version: get::u16_at(table, at + 4),
        variables: get::byte_at(table, at + 6),
        arrays: get::byte_at(table, at + 7),
        nodes: get::u16_at(table, at + 8),
    };
    if !within_limits(header) {
        return Err(Refusal::BeyondLimit { at });
    }
    Ok(header)
}

// The labels record: no mark beyond the variables and arrays that there are.
pub fn read_labels(table: &[u8], header: Header, at: usize) -> Result<Labelling, Refusal>
    requires { (at + longest_labels < 2 ^ 64) × (header.variables ≤ max_variables) × (header.arrays ≤ max_arrays) }
    ensures { result ≡ as_result (read_labels table.now header at) }
{
    frame_of_kind(
        table,
        at,
        Kind::Labels as usize,
        labels_bytes(header.version),
    )?;
    let variables = mask_at(table, header.version, at + 4);
    let arrays = get::u16_at(table, at + 4 + mask_bytes(header.version));
    if !mask_fits(variables, header.variables) || !mask_fits(arrays as u64, header.arrays) {
        return Err(Refusal::BeyondLimit { at });
    }
    Ok(Labelling {
        variables,
        arrays: arrays as u16,
    })
}

// One array record, after arrays with so many cells.
pub fn read_count(table: &[u8], at: usize, before: usize) -> Result<usize, Refusal>
    requires { (at + array_size < 2 ^ 64) × (before ≤ max_cells) }
    ensures { result ≡ as_result (read_count table.now at before) }
{
    frame_of_kind(table, at, Kind::Array as usize, ARRAY_BYTES)?;
    let count = get::u16_at(table, at + 4);
    if count == 0 || MAX_CELLS < before + count {
        return Err(Refusal::BeyondLimit { at });
    }
    Ok(count)
}
