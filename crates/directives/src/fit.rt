// Which directive fits a shown step, and what the step does under it.
ghost use Rattle.std.specs.Prelude.{cond, Some, ◌≡◌};
ghost use Rattle.reader.specs.Index.{table_of};
ghost use Rattle.directives.specs.Listed.{found};
ghost use Rattle.directives.specs.Fitting.{asked_of, cell_for, fork_fit, fit_of};

use crate::change::{Back, Change, Shown};
use crate::places::{Cell, Places};
use bytes_le::get::u32_at;
use machine::Directive;

// What a shown step does with its cell.
#[derive(Clone, Copy)]
pub enum Access {
    Read,
    Write,
}

// A branch of this value that is forced the wrong way, with its right side.
#[derive(Clone, Copy)]
pub struct Forced {
    pub value: bool,
    pub right: Back,
    pub wrong: Back,
}

// What a shown step does, if index and directive fit: a change, or a forced branch.
#[derive(Clone, Copy)]
pub enum Fit {
    Goes(Change),
    Forces(Forced),
}

// The cell that a directive asks a read or a write for, if it fits one: the program's own, or another by name.
#[tactic(auto, unfolding(crate::specs::Fitting::asked_of))]
fn asked(access: Access, own: Cell, directive: Directive) -> Option<Cell>
    ensures { result ≡ asked_of access own directive }
{
    match (access, directive) {
        (_, Directive::Step) => Some(own),
        (Access::Read, Directive::Load { array, index })
        | (Access::Write, Directive::Store { array, index }) => Some(Cell { array, index }),
        _ => None,
    }
}

// The place that a read or write uses: that of its own cell where it exists, whatever the directive asks for; else that of the cell asked for,
// and only with the flag set.
fn cell_for(places: &Places, flag: bool, own: Cell, asked: Cell) -> Option<u32>
    ensures { result ≡ found (cell_for (table_of places.now).counts flag own (Some asked)) }
{
    let place = places.cell_at(own);
    if flag {
        place.or(places.cell_at(asked))
    } else {
        place
    }
}

// The side that a branch takes.
fn side(value: bool, yes: Back, no: Back) -> Back
    ensures { result ≡ cond value yes no }
{
    if value { yes } else { no }
}

// "73 force, at a branch, goes the other way and sets the flag"
#[tactic(auto, unfolding(crate::specs::Fitting::fork_fit))]
fn fork_fit(value: bool, yes: Back, no: Back, directive: Directive) -> Option<Fit>
    ensures { result ≡ fork_fit value yes no directive }
{
    match directive {
        Directive::Step => Some(Fit::Goes(Change::PutBack {
            back: side(value, yes, no),
        })),
        Directive::Force => Some(Fit::Forces(Forced {
            value,
            right: side(value, yes, no),
            wrong: side(value, no, yes),
        })),
        Directive::Load { .. } | Directive::Store { .. } | Directive::Rollback => None,
    }
}

// What a shown step does under a directive, if they fit. A read gives its variable the word of the cell.
#[tactic(auto, unfolding(crate::specs::Fitting::fit_of, crate::specs::Fitting::cell_for))]
pub fn fitting(
    places: &Places,
    cells: &[u8],
    flag: bool,
    shown: Shown,
    directive: Directive,
) -> Option<Fit>
    ensures { result ≡ fit_of (table_of places.now).counts cells.now flag shown directive }
{
    match shown {
        Shown::Fork { value, yes, no } => fork_fit(value, yes, no, directive),
        Shown::Get {
            variable,
            array,
            index,
        } => {
            let own = Cell { array, index };
            let place = cell_for(places, flag, own, asked(Access::Read, own, directive)?)?;
            let value = u32_at(cells, 4 * (place as usize));
            Some(Fit::Goes(Change::Assign { variable, value }))
        }
        Shown::Put {
            array,
            index,
            value,
        } => {
            let own = Cell { array, index };
            let place = cell_for(places, flag, own, asked(Access::Write, own, directive)?)?;
            Some(Fit::Goes(Change::Store { place, value }))
        }
    }
}
