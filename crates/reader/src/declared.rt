// What an accepted table declares, read again from its bytes: nothing is tested. The fields stand where `read_header` and `read_labels` of record
// find them, whose answers leave a refusal to be handled, and here there is none (`declared_in` could not fail).
ghost use Rattle.std.specs.Prelude.{◌≡◌};
ghost use Rattle.awhile.specs.Lists.{sum as total};
ghost use Rattle.awhile.specs.Tables.{header_of, declarations_of};
ghost use Rattle.reader.specs.Admitted.{Admitted};
ghost use Rattle.reader.specs.Index.{table_of};

use awhile::{Declarations, Header, Labelling};
use bytes_le::get::{byte_at, u16_at};
use record::layout::{LABELS_START, count_start};
use record::mask::{mask_at, mask_bytes};

// The header.
fn header_in(table: &[u8]) -> Header
    requires { Admitted table.now }
    ensures { result ≡ header_of (table_of table.now) }
{
    Header {
        version: u16_at(table, 4),
        variables: byte_at(table, 6),
        arrays: byte_at(table, 7),
        nodes: u16_at(table, 8),
    }
}

// The labels.
fn labels_in(table: &[u8], version: usize) -> Labelling
    requires { Admitted table.now × (version ≡ (table_of table.now).version) }
    ensures { result ≡ (table_of table.now).labels }
{
    let at = LABELS_START + 4;
    Labelling {
        variables: mask_at(table, version, at),
        arrays: u16_at(table, at + mask_bytes(version)) as u16,
    }
}

// How many cells the arrays have together. A `for`, since each turn knows that `count_start` may be asked for its array, and that the sum so far
// fits; to the closure of a `map` and to `sum` both would have to be said first.
fn cells_in(table: &[u8], header: Header) -> usize
    requires { Admitted table.now × (header ≡ header_of (table_of table.now)) }
    ensures { result ≡ total (table_of table.now).counts }
{
    let mut cells = 0;
    for a in 0..header.arrays {
        cells += u16_at(table, count_start(header, a) + 4);
    }
    cells
}

// All of it.
pub fn declared_in(table: &[u8]) -> Declarations
    requires { Admitted table.now }
    ensures { result ≡ declarations_of (table_of table.now) }
{
    let header = header_in(table);
    Declarations {
        header,
        cells: cells_in(table, header),
        labels: labels_in(table, header.version),
    }
}
