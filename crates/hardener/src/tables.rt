// The hardened table: its own header, the labels and arrays as they were, then the hardened nodes. What measures it takes no `Plan`, as in sizes.rt.
ghost use Rattle.std.specs.Prelude.{◌+◌, ◌≤◌, ◌≡◌, length, leb};
ghost use mathlib.Core.List.{flat_map};
ghost use Rattle.std.proofs.lemmas.List.Edits.{sets};
ghost use Rattle.awhile.specs.Encoding.{header_bytes, labels_bytes, count_bytes, table_bytes};
ghost use Rattle.awhile.specs.Tables.{max_variables, header_size, labels_size, counts_start, nodes_start, header_of};
ghost use Rattle.reader.specs.Admitted.{Admitted};
ghost use Rattle.reader.specs.Index.{table_of};
ghost use Rattle.masks.specs.Hardening.{version_for, hardened_table};
ghost use Rattle.hardener.specs.Output.{hardened_header, Measurable, Writable, WroteTable};

use crate::commands::harden_command;
use crate::plan::Plan;
use crate::sizes::size_all;
use awhile::{Header, Labelling};
use bytes_le::{get, put};
use copier::Record;
use copier::records::put_record;
use copier::totals::bytes_told;
use deciding::decisions::Decision;
use reader::accepted::Accepted;
use record::layout::{HEADER_BYTES, Kind, LABELS_START, count_start, labels_bytes, nodes_start};
use record::mask::{mask_bytes, put_mask};

// The most nodes that are hardened: eight come out per node at most, and a table has no more than MAX_NODES.
pub const MAX_HARDENED: usize = 512;

// The version of a hardened table that declares so many variables: "version 2 where its input is, or where it declares 33 variables".
fn version_for(version: usize, variables: usize) -> usize
    ensures { result ≡ version_for version variables }
{
    if version == 2 || variables == 33 {
        2
    } else {
        1
    }
}

// The header of what comes out, with so many nodes: the flag is one variable more. Where the records stand does not go by the number of nodes,
// so before it is known 0 does.
fn hardened_header(header: Header, nodes: usize) -> Header
    requires { header.variables ≤ max_variables }
    ensures { result ≡ hardened_header header nodes }
{
    let variables = header.variables + 1;
    Header {
        version: version_for(header.version, variables),
        variables,
        nodes,
        ..header
    }
}

// The header record.
fn put_header(header: Header, out: &mut [u8])
    requires { header_size ≤ length out.old }
    ensures { out.new ≡ sets out.old 0 (header_bytes header) }
{
    put::put16(&mut *out, 0, HEADER_BYTES);
    put::put16(&mut *out, 2, Kind::Header as usize);
    put::put16(&mut *out, 4, header.version);
    put::put8(&mut *out, 6, header.variables);
    put::put8(&mut *out, 7, header.arrays);
    put::put16(&mut *out, 8, header.nodes);
}

// The labels record. Its masks are written one by one: `put_masks` is of crate sheets, where it answers in `field_bytes` of labels.
fn put_labels(labels: Labelling, version: usize, at: usize, out: &mut [u8])
    requires { at + labels_size version ≤ length out.old }
    ensures { out.new ≡ sets out.old at (labels_bytes version labels) }
{
    put::put16(&mut *out, at, labels_bytes(version));
    put::put16(&mut *out, at + 2, Kind::Labels as usize);
    put_mask(&mut *out, at + 4, version, labels.variables);
    put::put16(
        &mut *out,
        at + 4 + mask_bytes(version),
        usize::from(labels.arrays),
    );
}

// The array records, behind the labels: they are read where the table has them, and written where the output has them. A count is 4 bytes into its
// record: that one read is all that a method of `Accepted` for it would be.
fn put_counts(table: &Accepted, to: Header, out: &mut [u8])
    requires { (to.arrays ≡ (header_of (table_of table.now)).arrays) × (nodes_start to ≤ length out.old) }
    ensures { out.new ≡ sets out.old (counts_start to) (flat_map count_bytes (table_of table.now).counts) }
{
    let header = table.declared().header;
    let bytes = table.bytes();
    for a in 0..header.arrays {
        let from = count_start(header, a);
        let count = get::u16_at(bytes, from + 4);
        let at = count_start(to, a);
        put_record(
            &mut out[at..],
            Record {
                kind: Kind::Array as usize,
                fields: [count],
            },
        );
    }
}

// Where the nodes of the hardened table start, told before it is known how many they are.
fn hardened_start(table: &Accepted) -> usize
    ensures start { result ≡ nodes_start (hardened_header (header_of (table_of table.now)) 0) }
    ensures admitted { Admitted table.now }
{
    nodes_start(hardened_header(table.declared().header, 0))
}

// The byte length of the hardened table, off the total of its root. Only a table that is measured has totals.
fn hardened_length(table: &Accepted, decisions: &[Decision]) -> usize
    requires { Measurable table.now decisions.now }
    ensures { result ≡ length (table_bytes (hardened_table (table_of table.now))) }
{
    let mut totals = [0u32; MAX_HARDENED];
    size_all(table, decisions, &mut totals);
    hardened_start(table) + bytes_told(totals[table.count() - 1])
}

// Whether the hardened table fits a buffer. At most 8 nodes of at most 10 bytes come out per node put in, so a large buffer is not measured against.
pub fn hardened_fits(table: &Accepted, decisions: &[Decision], room: usize) -> bool
    requires { Measurable table.now decisions.now }
    ensures { result ≡ leb (length (table_bytes (hardened_table (table_of table.now)))) room }
{
    hardened_start(table) + 80 * table.count() <= room || hardened_length(table, decisions) <= room
}

// The hardened table at the front of a slice, from its root. The header is written last: it says how many nodes came out. The answer is the table's
// byte length.
pub fn write_hardened(table: &Accepted, decisions: &[Decision], out: &mut [u8]) -> usize
    requires { Writable table.now decisions.now out.old }
    ensures { WroteTable table.now out.old out.new result }
{
    let declared = table.declared();
    let header = declared.header;
    let to = hardened_header(header, 0);
    put_labels(declared.labels, to.version, LABELS_START, &mut *out);
    put_counts(table, to, &mut *out);
    let plan = Plan {
        table,
        decisions,
        flag: header.variables,
    };
    let at = nodes_start(to);
    let size = harden_command(&plan, header.nodes - 1, 0, &mut out[at..]);
    put_header(hardened_header(header, size.nodes), &mut *out);
    at + size.bytes
}
