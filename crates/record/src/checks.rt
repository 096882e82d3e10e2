// The frame of a record: its length and kind, and whether all of it is there. A record is its table and its offset, as a `Reader` stands at it; that
// the offset leaves room below 2^64 is said of each by itself, as a record's room is of its own kind.
ghost use Rattle.std.specs.Prelude.{◌+◌, ◌^◌, ◌<◌, ◌≡◌};
ghost use Rattle.awhile.specs.Refusals.{as_result, passed};
ghost use Rattle.awhile.specs.Tables.{framed, length_of_kind};

use awhile::Refusal;
use bytes_le::get;

// Whether a record of the wanted length stands whole at an offset: 1 (head), 2, 1 (body).
#[tactic(auto, unfolding(awhile::specs::Refusals::as_result, awhile::specs::Refusals::check, awhile::specs::Tables::framed))]
pub fn frame(table: &[u8], at: usize, wanted: usize) -> Result<(), Refusal>
    requires { (at + 4 < 2 ^ 64) × (at + wanted < 2 ^ 64) }
    ensures { result ≡ as_result (framed table.now at wanted passed) }
{
    let n = table.len();
    if n < at + 4 {
        return Err(Refusal::Cut { at });
    }
    if wanted == 0 || get::u16_at(table, at) != wanted {
        return Err(Refusal::WrongRecord { at });
    }
    if n < at + wanted {
        return Err(Refusal::Cut { at });
    }
    Ok(())
}

// The same of a record that must be of one kind, which may be any number. The wanted length is 0, which no record has, where it is of another:
// `framed` and `length_of_kind` of awhile/specs/Tables have the same 0.
#[tactic(auto, unfolding(awhile::specs::Tables::length_of_kind))]
pub fn frame_of_kind(table: &[u8], at: usize, kind: usize, size: usize) -> Result<(), Refusal>
    requires { (at + 4 < 2 ^ 64) × (at + size < 2 ^ 64) }
    ensures { result ≡ as_result (framed table.now at (length_of_kind kind size table.now at) passed) }
{
    let wanted = if get::u16_at(table, at + 2) == kind {
        size
    } else {
        0
    };
    frame(table, at, wanted)
}
