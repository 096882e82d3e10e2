// Numbers that stand in bytes with their lowest byte first, whatever their width. The three wider impls differ in the type alone and are written out:
// the repository has no impls that its own macros write (`rt ci` refuses them).
ghost use Rattle.std.specs.Prelude.{ℕ, ◌+◌, ◌<◌, ◌≤◌, ◌≡◌, length, take, drop};
ghost use Rattle.std.proofs.lemmas.List.Edits.{sets};
ghost use Rattle.std.proofs.Common.{arith};
ghost use Rattle.bytes_le.specs.Numbers.{le, le_at};

// A number of so many bytes.
pub trait LittleEndian: Copy {
    ghost WIDTH: { ℕ };

    ghost number: { Self → ℕ };

    const WIDTH: usize;

    // The number at an offset where all its bytes stand.
    fn load(s: &[u8], at: usize) -> Self
        requires { at + WIDTH ≤ length s.now }
        ensures { number result ≡ le_at WIDTH s.now at };

    // The number in its bytes at an offset.
    fn store(self, out: &mut [u8], at: usize)
        requires { at + WIDTH ≤ length out.old }
        ensures { out.new ≡ sets out.old at (le WIDTH (number self)) };

    // `cut_off` has room for eight bytes. Where as many are left as a number has, and it has one or more, its offset is within the slice.
    ghost sizes: { (0 < WIDTH) × (WIDTH ≤ 8) };
}

// The N bytes at an offset.
fn bytes_at<const N: usize>(s: &[u8], at: usize) -> [u8; N]
    requires { at + N ≤ length s.now }
    ensures { result ≡ take N (drop at s.now) }
{
    let mut bytes = [0; N];
    bytes.copy_from_slice(&s[at..at + N]);
    bytes
}

// N bytes stored at an offset.
fn put_bytes<const N: usize>(bytes: [u8; N], out: &mut [u8], at: usize)
    requires { at + N ≤ length out.old }
    ensures { out.new ≡ sets out.old at bytes.entry }
{
    out[at..at + N].copy_from_slice(&bytes);
}

impl LittleEndian for u8 {
    ghost WIDTH = { 1 };

    ghost number = { λ n. n };

    const WIDTH: usize = 1;

    fn load(s: &[u8], at: usize) -> u8 {
        s[at]
    }

    fn store(self, out: &mut [u8], at: usize) {
        out[at] = self;
    }

    ghost sizes = { (omega arith, omega arith) };
}

impl LittleEndian for u16 {
    ghost WIDTH = { 2 };

    ghost number = { λ n. n };

    const WIDTH: usize = 2;

    fn load(s: &[u8], at: usize) -> u16 {
        u16::from_le_bytes(bytes_at(s, at))
    }

    fn store(self, out: &mut [u8], at: usize) {
        put_bytes(self.to_le_bytes(), out, at);
    }

    ghost sizes = { (omega arith, omega arith) };
}

impl LittleEndian for u32 {
    ghost WIDTH = { 4 };

    ghost number = { λ n. n };

    const WIDTH: usize = 4;

    fn load(s: &[u8], at: usize) -> u32 {
        u32::from_le_bytes(bytes_at(s, at))
    }

    fn store(self, out: &mut [u8], at: usize) {
        put_bytes(self.to_le_bytes(), out, at);
    }

    ghost sizes = { (omega arith, omega arith) };
}

impl LittleEndian for u64 {
    ghost WIDTH = { 8 };

    ghost number = { λ n. n };

    const WIDTH: usize = 8;

    fn load(s: &[u8], at: usize) -> u64 {
        u64::from_le_bytes(bytes_at(s, at))
    }

    fn store(self, out: &mut [u8], at: usize) {
        put_bytes(self.to_le_bytes(), out, at);
    }

    ghost sizes = { (omega arith, omega arith) };
}
