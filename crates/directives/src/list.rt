// The list of directives that steers a run.
ghost use Rattle.std.specs.Prelude.{◌≡◌};
ghost use Rattle.machine.specs.Directives.{directive_size, directive_of, first_directive};
ghost use Rattle.directives.specs.Listed.{found, is_some, whole_if, takes_on, read_on};

use bytes_le::get::{u16_at, u32_at};
use machine::{Board, Directive};

// The kind of a rollback's record.
pub const ROLLBACK: usize = 76;

// The byte length of a directive's record. By name and no `From`, as a directive has other numbers too, its kind for one.
#[tactic(auto, unfolding(machine::specs::Directives::directive_size))]
pub fn size_of(d: Directive) -> usize
    ensures { result ≡ directive_size d }
{
    match d {
        Directive::Step | Directive::Force | Directive::Rollback => 4,
        Directive::Load { .. } | Directive::Store { .. } => 10,
    }
}

// The directive of a kind, with its array and index where it has them.
// The documents list the kinds by their numbers, and this match is that list: an enum of kinds would repeat it.
#[tactic(auto, unfolding(machine::specs::Directives::directive_of))]
fn directive_of(kind: usize, array: usize, index: u32) -> Option<Directive>
    ensures { result ≡ found (directive_of kind array index) }
{
    match kind {
        72 => Some(Directive::Step),
        73 => Some(Directive::Force),
        74 => Some(Directive::Load { array, index }),
        75 => Some(Directive::Store { array, index }),
        ROLLBACK => Some(Directive::Rollback),
        _ => None,
    }
}

// A directive, if the length that its record gives is right and so many bytes are left.
#[tactic(auto, unfolding(crate::specs::Listed::whole_if))]
fn whole(directive: Directive, length: usize, left: usize) -> Option<Directive>
    ensures { result ≡ found (whole_if directive length left) }
{
    let size = size_of(directive);
    (length == size && size <= left).then_some(directive)
}

// The directive whose record stands first in bytes, if its length is right and it is all there. Each shown step asks for one, and a call would cost
// it a tenth of its time.
#[inline(always)]
#[tactic(auto, unfolding(machine::specs::Directives::first_directive, machine::specs::Directives::whole_directive, crate::specs::Listed::whole_if))]
pub fn first(list: &[u8]) -> Option<Directive>
    ensures { result ≡ found (first_directive list.now) }
{
    let directive = directive_of(u16_at(list, 2), u16_at(list, 4), u32_at(list, 6))?;
    whole(directive, u16_at(list, 0), list.len())
}

// Whether a board takes a directive: only the rolling one takes a rollback.
#[tactic(auto, unfolding(crate::specs::Listed::takes_on, machine::specs::Directives::is_rollback))]
fn takes(board: Board, directive: Directive) -> bool
    ensures { result ≡ takes_on board directive }
{
    directive != Directive::Rollback || board == Board::Rolling
}

// Whether the whole list reads: no record of it is cut or of a wrong kind or length for the board. A record's kind says how long it is, so no
// iterator of std's goes over the records, and one written for this loop alone would be longer than it.
pub fn reads(list: &[u8], board: Board) -> bool
    ensures { result ≡ is_some (read_on board list.now) }
{
    let mut rest = list;
    while !rest.is_empty() {
        let Some(directive) = first(rest) else {
            return false;
        };
        if !takes(board, directive) {
            return false;
        }
        rest = &rest[size_of(directive)..];
    }
    true
}
