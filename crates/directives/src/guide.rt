// What guides a step: a directive of the list, or the program itself. List and board are the run's, and an offset in the list is the state's, so
// each function asks for the three.
ghost use Rattle.machine.specs.declared.Board.TheVariants.{Guessing, Rolling};
ghost use Rattle.directives.specs.Guiding.{Readable, GuidedAs, RollbackAs};

use crate::list::{ROLLBACK, first, size_of};
use bytes_le::get::u16_at;
use machine::{Board, Directive};

// How many directives a step uses up, and how many bytes of their list. Both are numbers, 0 for no directive, as the state of a run adds them up.
#[derive(Clone, Copy)]
pub struct Consumed {
    pub used: u32,
    pub size: usize,
}

// The directive of a shown step, and what it uses up.
#[derive(Clone, Copy)]
pub struct Guided {
    pub directive: Directive,
    pub consumed: Consumed,
}

// What a list has for the next shown step, if any directive is left.
fn next_listed(list: &[u8], at: usize) -> Option<Guided>
    requires { Readable list.now at }
    ensures { GuidedAs Guessing list.now at result × GuidedAs Rolling list.now at result }
{
    // a list that was read has a whole directive here, or ends
    let directive = first(&list[at..])?;
    let size = size_of(directive);
    Some(Guided {
        directive,
        consumed: Consumed { used: 1, size },
    })
}

// "The guessing machine .. takes one directive per shown step", and so does the rolling one. The plain machine takes every step as the
// program has it.
pub fn guide(list: &[u8], board: Board, at: usize) -> Option<Guided>
    requires { Readable list.now at }
    ensures { GuidedAs board list.now at result }
{
    if board == Board::Plain {
        return Some(Guided {
            directive: Directive::Step,
            consumed: Consumed { used: 0, size: 0 },
        });
    }
    next_listed(list, at)
}

// Whether a rollback is next. A list that reads has a whole record here, so its kind tells.
pub fn rollback_next(list: &[u8], board: Board, at: usize) -> bool
    requires { Readable list.now at }
    ensures { RollbackAs board list.now at result }
{
    board == Board::Rolling && u16_at(list, at + 2) == ROLLBACK
}
