// Reads a table on standard input, and writes the hardened one, or the record of its refusal, on standard output.
// The program of `harden`, run on a table that is refused: `rt` runs a program on one input.
#![tactic(auto)]

use program::input::INPUT_BYTES;
use program::stream::harden_stream;
use std::io;

fn main(rt: HostRuntime) -> io::Result<()> {
    let mut input = [0u8; INPUT_BYTES];
    harden_stream(&mut rt.stdin(), &mut rt.stdout(), &mut input)
}
