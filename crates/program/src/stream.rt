// The program over any input and any output.
ghost use Rattle.std.specs.Prelude.{◌<◌, length, OnOk};
ghost use Rattle.awhile.specs.Tables.{longest_table};
ghost use Rattle.program.specs.Program.{AppendsHardened};

use crate::input::{OUTPUT_BYTES, harden_input};
use std::io;
use std::io::{Read, Write};
use streams::read_full;

// Reads a table, and writes the hardened one, or the record of its refusal. The buffer is for the input.
pub fn harden_stream<R: Read, W: Write>(
    input: &mut R,
    out: &mut W,
    buffer: &mut [u8],
) -> io::Result<()>
    requires longest_table_in_bounds { longest_table < length buffer.old }
    ensures { OnOk result (AppendsHardened (R.remaining input.old) (W.contents out.old) (W.contents out.new)) }
{
    let mut output = [0u8; OUTPUT_BYTES];
    let count = read_full(input, buffer)?;
    let size = harden_input(buffer, count, &mut output);
    out.write_all(&output[..size])
}
