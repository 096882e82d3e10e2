// Variable masks: a bit for each variable, in as many bytes as the table's version says. A version is any number, here and in
// `Header`, as the definitions have it (`mask_bytes` of awhile/specs/Tables): a type of the two that are known would ask more of callers.
ghost use Rattle.std.specs.Prelude.{◌+◌, ◌*◌, ◌^◌, ◌≤◌, ◌<◌, ◌≡◌, ltb, length};
ghost use Rattle.std.proofs.lemmas.List.Edits.{sets};
ghost use Rattle.bytes_le.specs.Numbers.{le, le_at};
ghost use Rattle.awhile.specs.Tables.{mask_bytes, most_variables};

use bytes_le::{get, put};

// How many bytes these are.
#[tactic(auto, unfolding(awhile::specs::Tables::mask_bytes))]
pub fn mask_bytes(version: usize) -> usize
    ensures { (result ≡ mask_bytes version) × (result ≤ 8) }
{
    if version == 1 { 4 } else { 8 }
}

// A table declares no more variables than its mask has bits.
pub fn most_variables(version: usize) -> usize
    ensures { result ≡ most_variables version }
{
    8 * mask_bytes(version)
}

// The mask at an offset.
#[tactic(auto, unfolding(awhile::specs::Tables::mask_bytes))]
pub fn mask_at(table: &[u8], version: usize, at: usize) -> u64
    requires { at + 8 < 2 ^ 64 }
    ensures { result ≡ le_at (mask_bytes version) table.now at }
{
    if version == 1 {
        return u64::from(get::u32_at(table, at));
    }
    get::u64_at(table, at)
}

// No mark of a mask stands at a number from a width up. A word is not shifted by 64, so it is shifted twice, by no more than half of that.
pub fn mask_fits(mask: u64, width: usize) -> bool
    requires { width ≤ 64 }
    ensures { result ≡ ltb mask (2 ^ width) }
{
    let half = width / 2;
    (mask >> half) >> (width - half) == 0
}

// Writes a mask at an offset.
pub fn put_mask(out: &mut [u8], at: usize, version: usize, mask: u64)
    requires { at + mask_bytes version ≤ length out.old }
    ensures { out.new ≡ sets out.old at (le (mask_bytes version) mask) }
{
    if version == 1 {
        put::put32(&mut *out, at, (mask % 4294967296) as u32);
    } else {
        put::put64(&mut *out, at, mask);
    }
}
