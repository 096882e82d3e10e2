// Words set to 0. A word is 4 bytes of a byte slice, since C lends bytes (`uint8_t *` of include/flow.h).
ghost use Rattle.std.specs.Prelude.{◌*◌, ◌-◌, ◌≤◌, ◌≡◌, length, replicate};
ghost use Rattle.std.proofs.lemmas.List.Edits.{sets};
ghost use Rattle.bytes_le.specs.Numbers.{words};

// Sets the words from one place to another to 0.
pub fn clear(bytes: &mut [u8], from: usize, to: usize)
    requires { (from ≤ to) × (4 * to ≤ length bytes.old) }
    ensures { bytes.new ≡ sets bytes.old (4 * from) (words (replicate (to - from) 0)) }
{
    bytes[4 * from..4 * to].fill(0);
}
