// The lengths of the slices that are lent for a run: 20, 21, 22 and 24.
ghost use Rattle.std.specs.Prelude.{◌≤◌, ◌≡◌};
ghost use Rattle.run_entries.specs.Lengths.{Small, enough_for, lengths_of};

use awhile::{Declarations, Refusal};
use machine::{Board, MAX_SAVES};

// Whether the save words suffice for as many saves, of so many words each, as can be open, on the board that rolls back. Another board saves nothing.
#[tactic(auto, unfolding(crate::specs::Lengths::enough_for))]
fn enough_saves(board: Board, saves: usize, words: usize) -> bool
    requires { words ≤ 65536 }
    ensures { result ≡ enough_for board saves words }
{
    board != Board::Rolling || 4 * MAX_SAVES * words <= saves
}

// Whether slices of these lengths can be lent for a run of a table with these declarations, or why not. Lengths alone, as `lengths_of` of
// specs/Lengths takes them: what stands in the slices is no matter here.
#[tactic(auto, unfolding(crate::specs::Lengths::lengths_of))]
pub fn lengths_for(
    declared: Declarations,
    board: Board,
    variables: usize,
    cells: usize,
    pending: usize,
    saves: usize,
) -> Result<(), Refusal>
    requires { Small declared }
    ensures { result ≡ lengths_of declared board variables cells pending saves }
{
    let header = declared.header;
    if variables != 4 * header.variables {
        return Err(Refusal::WrongVariables);
    }
    if cells != 4 * declared.cells {
        return Err(Refusal::WrongCells);
    }
    if pending < 4 * header.nodes {
        return Err(Refusal::ShortPending);
    }
    let words = header.variables + (declared.cells + header.nodes);
    if !enough_saves(board, saves, words) {
        return Err(Refusal::ShortSaves);
    }
    Ok(())
}
