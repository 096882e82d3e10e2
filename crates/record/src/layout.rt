// Where the records before the nodes stand and how long they are. No other code has these lengths.
ghost use Rattle.std.specs.Prelude.{◌≤◌, ◌≡◌};
ghost use Rattle.awhile.specs.Tables.{max_arrays, labels_size, longest_labels, count_start, nodes_start};

use crate::mask::mask_bytes;
use awhile::Header;

// The records before the nodes, by the kinds that document 01 gives them.
#[derive(Clone, Copy)]
pub enum Kind {
    Header = 1,
    Array = 2,
    Labels = 3,
}

pub const HEADER_BYTES: usize = 10;

pub const ARRAY_BYTES: usize = 6;

// The labels stand behind the header.
pub const LABELS_START: usize = HEADER_BYTES;

// The labels record: a variable mask, and 6 bytes besides.
pub fn labels_bytes(version: usize) -> usize
    ensures { (result ≡ labels_size version) × (result ≤ longest_labels) }
{
    6 + mask_bytes(version)
}

// The arrays stand behind the labels, by number.
pub fn count_start(header: Header, a: usize) -> usize
    requires { a ≤ max_arrays }
    ensures { result ≡ count_start header a }
{
    LABELS_START + labels_bytes(header.version) + ARRAY_BYTES * a
}

// The nodes stand behind the last array.
pub fn nodes_start(header: Header) -> usize
    requires { header.arrays ≤ max_arrays }
    ensures { result ≡ nodes_start header }
{
    count_start(header, header.arrays)
}
