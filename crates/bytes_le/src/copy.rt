// Bytes of one slice copied into another.
ghost use Rattle.std.specs.Prelude.{◌+◌, ◌≤◌, ◌≡◌, length, take, drop};
ghost use Rattle.std.proofs.lemmas.List.Edits.{sets};

// Copies n bytes that stand at one offset to the other, one by one: for a copy of a slice whose length is not a constant the compiler calls C's
// `memmove`, and the library needs nothing of C but `memset`.
pub fn copy(src: &[u8], from: usize, dst: &mut [u8], to: usize, n: usize)
    requires { (from + n ≤ length src.now) × (to + n ≤ length dst.old) }
    ensures { dst.new ≡ sets dst.old to (take n (drop from src.now)) }
{
    for i in 0..n {
        dst[to + i] = src[from + i];
    }
}
