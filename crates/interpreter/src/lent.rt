// What a run is asked, and what it is lent.
use machine::Board;

// A list of directives, the board that the run goes on, and how many steps it may take.
#[derive(Clone, Copy)]
pub struct Task<'a> {
    pub directives: &'a [u8],
    pub board: Board,
    pub budget: u32,
}

// The memory of the machine, the words for its saves and the buffer for what it shows. Save words are lent to the board that rolls back; another
// board looks at none: with an Option each save and each rollback would ask whether words are there. C lends the five one by one, and a run makes a
// `Memory` of three of them for its steps.
#[derive(Drop)]
pub struct Lent<'a> {
    pub variables: &'a mut [u8],
    pub cells: &'a mut [u8],
    pub pending: &'a mut [u8],
    pub saves: &'a mut [u8],
    pub observations: &'a mut [u8],
}
