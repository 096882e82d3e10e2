// Numbers read from bytes. `number_at` is total, as are `byte_at`, `u16_at`, `u32_at` and `u64_at`: bytes past the end count as 0.
// `whole_u16` and `whole_u32` test nothing, for callers that know that the number is there. Each width that callers read has its function over
// the one generic: its contract says the width as a number, with no word of the trait.
ghost use Rattle.std.specs.Prelude.{◌+◌, ◌-◌, ◌<◌, ◌≤◌, ◌≡◌, length};
ghost use Rattle.bytes_le.specs.Numbers.{le_at};

use crate::little_endian::LittleEndian;

// How many bytes stand from an offset on. No offset is too large to ask, and one comparison then tells whether a number is whole.
pub fn bytes_from(s: &[u8], at: usize) -> usize
    ensures { result ≡ length s.now - at }
{
    s.len().saturating_sub(at)
}

// The number at an offset that is cut off by the end, behind so many bytes: the others are 0. Byte by byte, since an offset may lie beyond the end,
// where there is no slice to copy from.
fn cut_off<T: LittleEndian>(s: &[u8], at: usize, left: usize) -> T
    requires { left ≡ length s.now - at }
    ensures { T.number result ≡ le_at T.WIDTH s.now at }
{
    let mut bytes = [0u8; 8];
    for i in 0..T::WIDTH {
        let byte = if i < left { s[at + i] } else { 0 };
        bytes[i] = byte;
    }
    T::load(&bytes, 0)
}

// The number at an offset.
pub fn number_at<T: LittleEndian>(s: &[u8], at: usize) -> T
    ensures { T.number result ≡ le_at T.WIDTH s.now at }
{
    let left = bytes_from(s, at);
    if T::WIDTH <= left {
        T::load(s, at)
    } else {
        cut_off(s, at, left)
    }
}

// The byte at an offset.
pub fn byte_at(s: &[u8], at: usize) -> usize
    ensures { (result ≡ le_at 1 s.now at) × (result < 256) }
{
    usize::from(number_at::<u8>(s, at))
}

// The 2-byte number at an offset where both bytes stand.
pub fn whole_u16(s: &[u8], at: usize) -> usize
    requires { at + 2 ≤ length s.now }
    ensures { (result ≡ le_at 2 s.now at) × (result < 65536) }
{
    usize::from(u16::load(s, at))
}

// The 4-byte number at an offset where all four bytes stand.
pub fn whole_u32(s: &[u8], at: usize) -> u32
    requires { at + 4 ≤ length s.now }
    ensures { result ≡ le_at 4 s.now at }
{
    u32::load(s, at)
}

// The 2-byte number at an offset. No instance of `number_at`, with which reading a table takes 4 % more instructions.
pub fn u16_at(s: &[u8], at: usize) -> usize
    ensures { (result ≡ le_at 2 s.now at) × (result < 65536) }
{
    if 2 <= bytes_from(s, at) {
        return whole_u16(s, at);
    }
    // at most the lower byte is there
    byte_at(s, at)
}

// The 4-byte number at an offset.
pub fn u32_at(s: &[u8], at: usize) -> u32
    ensures { result ≡ le_at 4 s.now at }
{
    number_at(s, at)
}

// The 8-byte number at an offset.
pub fn u64_at(s: &[u8], at: usize) -> u64
    ensures { result ≡ le_at 8 s.now at }
{
    number_at(s, at)
}
