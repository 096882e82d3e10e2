// What the program does: from the bytes of standard input to those of standard output.
ghost use Rattle.std.specs.Prelude.{◌≤◌, ◌<◌, ◌≡◌, length};
ghost use Rattle.std.proofs.lemmas.List.Edits.{sets};
ghost use Rattle.awhile.specs.Tables.{longest_table};
ghost use Rattle.program.specs.Program.{refusal_bytes, AnswersRead};

use bytes_le::get::u32_at;
use bytes_le::put::{put16, put32};
use flow::harden::flow_harden;

// The longest table has 41,080 bytes. One byte more of the input settles its answer, whatever follows.
pub const INPUT_BYTES: usize = 41081;

// No hardened table is longer than the longest table.
pub const OUTPUT_BYTES: usize = 41080;

// The kind of a refusal's record, and how many bytes it has: "kind 240 (refusal, place in 4 bytes; length 10)".
const REFUSAL_KIND: usize = 240;

const REFUSAL_BYTES: usize = 10;

// The record of a refusal at the front of a slice: length, kind, refusal, place. The refusal is the number that `flow_harden` answers, as in C.
fn put_refusal(out: &mut [u8], refusal: usize, place: u32)
    requires { 10 ≤ length out.old }
    ensures { out.new ≡ sets out.old 0 (refusal_bytes refusal place) }
{
    put16(out, 0, REFUSAL_BYTES);
    put16(out, 2, REFUSAL_KIND);
    put16(out, 4, refusal);
    put32(out, 6, place);
}

// The hardened table of an input, or the record of its refusal, at the front of a slice, and how many bytes it has. The input was read into the
// buffer, which took so many bytes: it must hold more than the longest table has, or a longer input could not be told from its beginning.
// (What was read, with no count beside it, would not tell how much the buffer holds, on which `AnswersRead` rests.)
pub fn harden_input(buffer: &[u8], count: usize, out: &mut [u8]) -> usize
    requires longest_table_in_bounds { longest_table < length buffer.now }
    requires count_in_bounds { count ≤ length buffer.now }
    requires longest_table_in_bounds_2 { longest_table ≤ length out.old }
    ensures { AnswersRead buffer.now count out.new result }
{
    let mut answer = [0u8; 16];
    let refusal = flow_harden(&buffer[..count], out, &mut answer);
    // the second number is the length of what was written, or the refusal's place
    let second = u32_at(&answer, 8);
    if refusal == 0 {
        return second as usize;
    }
    put_refusal(out, refusal as usize, second);
    REFUSAL_BYTES
}
