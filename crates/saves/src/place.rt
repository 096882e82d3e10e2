// A state saved in a place, and copied back from it. The height of the pending list stands beside it, as crate stepping's `Memory` says.
ghost use Rattle.std.specs.Prelude.{◌+◌, ◌*◌, ◌≤◌, ◌≡◌, ◌++◌, length, take};
ghost use Rattle.std.proofs.lemmas.List.Edits.{sets};
ghost use Rattle.stepping.specs.Lending.{SameMemory};
ghost use Rattle.stepping.specs.Stepping.{memory_at, memory_of};
ghost use Rattle.saves.specs.Places.{StateFits, RestoredTo};

use bytes_le::copy::copy;
use stepping::memory::Memory;

// Copies the variables to an offset, the cells behind them, and so many pending entries behind those.
pub fn save(
    variables: &[u8],
    cells: &[u8],
    pending: &[u8],
    height: usize,
    saves: &mut [u8],
    at: usize,
)
    requires { StateFits (memory_at variables.now cells.now pending.now) height (length saves.old) at }
    ensures { saves.new ≡ sets saves.old at (variables.now ++ (cells.now ++ take (4 * height) pending.now)) }
{
    let v = variables.len();
    let c = cells.len();
    copy(variables, 0, saves, at, v);
    copy(cells, 0, saves, at + v, c);
    copy(pending, 0, saves, at + v + c, 4 * height);
}

// Copies the variables, the cells and so many pending entries back from where they were saved.
pub fn restore(saves: &[u8], at: usize, height: usize, memory: &mut Memory)
    requires { StateFits (memory_of memory.old) height (length saves.now) at }
    ensures restored { RestoredTo saves.now at height (memory_of memory.old) (memory_of memory.new) }
    ensures memory { SameMemory memory.old memory.new }
{
    let v = memory.variables.len();
    let c = memory.cells.len();
    copy(saves, at, memory.variables, 0, v);
    copy(saves, at + v, memory.cells, 0, c);
    copy(saves, at + v + c, memory.pending, 0, 4 * height);
}
