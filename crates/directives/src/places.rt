// Where the cells of each array stand: "cells (array after array by number)".
ghost use Rattle.std.specs.Prelude.{ℕ, ◌+◌, ◌≡◌, List, length, get_or};
ghost use Rattle.awhile.specs.Tables.{max_arrays};
ghost use Rattle.machine.specs.Steps.{cell_at};
ghost use Rattle.reader.specs.Admitted.{Admitted};
ghost use Rattle.reader.specs.Index.{table_of, HasHeader};
ghost use Rattle.directives.specs.Listed.{found};
ghost use Rattle.directives.specs.Starts.{Starts};

use awhile::{Header, MAX_ARRAYS};
use bytes_le::get::u16_at;
use reader::accepted::Accepted;
use record::layout::count_start;
use std::marker::Model;

// How many entries say where the cells of arrays begin: one for each array that there could be, and one for the end of the last.
pub const STARTS: usize = MAX_ARRAYS + 1;

// A cell by name: an array, and an index in it.
#[derive(Clone, Copy)]
pub struct Cell {
    pub array: usize,
    pub index: u32,
}

// A table, and where the cells of each of its arrays begin. In a clause it is the list of the table's bytes.
#[derive(Drop)]
pub struct Places<'a> {
    table: &'a Accepted<'a>,
    starts: [u16; STARTS],
}

impl<'a> Model for Places<'a> {
    ghost use Rattle.std.specs.Prelude.{ℕ, List};

    ghost Value = { List ℕ };

    ghost use Rattle.reader.specs.Admitted.{Admitted};
    ghost use Rattle.reader.specs.Index.{table_of};
    ghost use Rattle.directives.specs.Starts.{Starts};

    ghost view = { λ p. p.table.now };

    ghost invariant = { λ p. Starts (table_of p.table.now).counts p.starts × Admitted p.table.now };
}

// The cell count of an array; an array that is not declared has no cells. Where it stands is said once, by `count_start` of crate record.
fn count_of(table: &[u8], header: Header, a: usize) -> usize
    requires { HasHeader table.now header }
    ensures { result ≡ get_or (table_of table.now).counts a 0 }
{
    if a < header.arrays {
        u16_at(table, count_start(header, a) + 4)
    } else {
        0
    }
}

// Where the cells of each array begin, and behind the last one where they end.
pub fn find_starts(table: &[u8], header: Header) -> [u16; STARTS]
    requires { HasHeader table.now header }
    ensures { Starts (table_of table.now).counts result }
{
    let mut starts = [0u16; STARTS];
    let mut sum: usize = 0;
    for a in 0..MAX_ARRAYS {
        sum += count_of(table, header, a);
        starts[a + 1] = sum as u16;
    }
    starts
}

// The place of the cell of an array and an index, by where arrays begin: whatever counts these starts are of, with no table.
pub fn cell_at(starts: &[u16], array: usize, index: u32) -> Option<u32>
    requires { length starts.now ≡ max_arrays + 1 }
    ensures { (counts : List ℕ) → Starts counts starts.now → result ≡ found (cell_at counts array index) }
{
    if MAX_ARRAYS <= array {
        return None;
    }
    let place = usize::from(starts[array]) + index as usize;
    // only a place among the cells fits a `u32`, so none is made of another
    if place < usize::from(starts[array + 1]) {
        Some(place as u32)
    } else {
        None
    }
}

impl<'a> Places<'a> {
    pub fn new(table: &'a Accepted<'a>) -> Self
        ensures { result ≡ table.now }
    {
        let starts = find_starts(table.bytes(), table.declared().header);
        Places { table, starts }
    }

    // The table.
    pub fn table(&self) -> &'a Accepted<'a>
        ensures value { result.now ≡ self.now }
        ensures admitted { Admitted self.now }
    {
        self.table
    }

    // The place of a cell among all cells, if it exists.
    pub fn cell_at(&self, cell: Cell) -> Option<u32>
        ensures { result ≡ found (cell_at (table_of self.now).counts cell.array cell.index) }
    {
        cell_at(&self.starts, cell.array, cell.index)
    }
}
