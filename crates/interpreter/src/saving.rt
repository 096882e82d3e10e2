// What a force and a rollback do to the lent memory, on the board that rolls back.
ghost use Rattle.std.specs.Prelude.{◌*◌, ◌<◌, ◌≡◌, length, get_or};
ghost use Rattle.machine.specs.Runs.{max_saves};
ghost use Rattle.saves.specs.Places.{StateFits, RestoredTo};
ghost use Rattle.stepping.specs.Lending.{SameMemory};
ghost use Rattle.stepping.specs.Stepping.{memory_at, memory_of};
ghost use Rattle.interpreter.specs.Effects.{SaveFits, RightSaved};

use crate::memory::push;
use directives::change::{Change, height};
use directives::fit::Forced;
use machine::MAX_SAVES;
use saves::place::{restore, save};
use stepping::memory::Memory;

// The words lent for saves, the bytes of a place for one, and how many entries are pending in each: no word of a place says that.
#[derive(Drop)]
pub struct Saves<'a> {
    pub bytes: &'a mut [u8],
    pub size: usize,
    pub heights: [u16; MAX_SAVES],
}

// Saves the state of the right side in a place, which begins at an offset of the save words, and puts back the wrong side.
pub fn save_right(
    forced: Forced,
    rest: usize,
    variables: &[u8],
    cells: &[u8],
    pending: &mut [u8],
    saves: &mut [u8],
    heights: &mut [u16],
    place: usize,
    at: usize,
)
    requires { SaveFits forced.right forced.wrong rest place at (memory_at variables.now cells.now pending.old) saves.old heights.old }
    ensures { RightSaved forced.right forced.wrong rest place at (memory_at variables.now cells.now pending.old)
        saves.old heights.old pending.new saves.new heights.new }
{
    let right = forced.right;
    let high = height(Change::PutBack { back: right }, rest);
    push(pending, rest, right);
    save(variables, cells, &*pending, high, saves, at);
    heights[place] = high as u16;
    push(pending, rest, forced.wrong);
}

// The same for the memory of a machine and its saves, where a place begins at so many times the size of one.
pub fn save_forced(
    forced: Forced,
    rest: usize,
    memory: &mut Memory,
    saves: &mut Saves,
    place: usize,
)
    requires { SaveFits forced.right forced.wrong rest place (saves.old.size * place) (memory_of memory.old) saves.old.bytes.now saves.old.heights }
    ensures saved { RightSaved forced.right forced.wrong rest place (saves.old.size * place) (memory_of memory.old)
        saves.old.bytes.now saves.old.heights memory.new.pending.now saves.new.bytes.now saves.new.heights }
    ensures others { memory_of memory.new ≡ memory_at memory.old.variables.now memory.old.cells.now memory.new.pending.now }
    ensures memory { SameMemory memory.old memory.new }
    ensures saves { (saves.new.bytes.ghost_name ≡ saves.old.bytes.ghost_name) × (saves.new.size ≡ saves.old.size) }
{
    let at = saves.size * place;
    let variables = &mut *memory.variables;
    let cells = &mut *memory.cells;
    save_right(
        forced,
        rest,
        variables,
        cells,
        memory.pending,
        saves.bytes,
        &mut saves.heights,
        place,
        at,
    );
}

// Copies a state back from its place, and says how many entries are pending in it.
pub fn take_back(saves: &Saves, place: usize, memory: &mut Memory) -> usize
    requires { (place < max_saves)
        × StateFits (memory_of memory.old) (get_or saves.now.heights place 0) (length saves.now.bytes.now) (saves.now.size * place) }
    ensures height { result ≡ get_or saves.now.heights place 0 }
    ensures restored { RestoredTo saves.now.bytes.now (saves.now.size * place) (get_or saves.now.heights place 0)
        (memory_of memory.old) (memory_of memory.new) }
    ensures memory { SameMemory memory.old memory.new }
{
    let high = usize::from(saves.heights[place]);
    let from = saves.size * place;
    restore(saves.bytes, from, high, memory);
    high
}
