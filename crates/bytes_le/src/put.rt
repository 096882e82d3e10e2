// Numbers written into bytes, the lowest byte first. Each width has its function over the one `store`: its contract says the width as a number,
// with no word of the trait, and `put8` and `put16` take any number of a caller's and store its lowest bytes.
ghost use Rattle.std.specs.Prelude.{◌+◌, ◌≤◌, ◌≡◌, length};
ghost use Rattle.std.proofs.lemmas.List.Edits.{sets};
ghost use Rattle.bytes_le.specs.Numbers.{le};

use crate::little_endian::LittleEndian;

// A number in 1 byte at an offset.
pub fn put8(out: &mut [u8], at: usize, v: usize)
    requires { at + 1 ≤ length out.old }
    ensures { out.new ≡ sets out.old at (le 1 v) }
{
    let low = (v % 256) as u8;
    low.store(out, at);
}

// A number in 2 bytes at an offset.
pub fn put16(out: &mut [u8], at: usize, v: usize)
    requires { at + 2 ≤ length out.old }
    ensures { out.new ≡ sets out.old at (le 2 v) }
{
    let low = (v % 65536) as u16;
    low.store(out, at);
}

// A number in 4 bytes at an offset.
pub fn put32(out: &mut [u8], at: usize, v: u32)
    requires { at + 4 ≤ length out.old }
    ensures { out.new ≡ sets out.old at (le 4 v) }
{
    v.store(out, at);
}

// A number in 8 bytes at an offset.
pub fn put64(out: &mut [u8], at: usize, v: u64)
    requires { at + 8 ≤ length out.old }
    ensures { out.new ≡ sets out.old at (le 8 v) }
{
    v.store(out, at);
}
