// What is fixed for a whole run. The fields of a `Task` stand here again, as that is crate interpreter's, which is above.
use directives::places::Places;
use machine::Board;

// The table and its board, the directives, how many bytes all observations can take, and how many steps.
#[derive(Drop)]
pub struct Run<'a> {
    pub places: Places<'a>,
    pub directives: &'a [u8],
    pub board: Board,
    pub room: usize,
    pub budget: u32,
}
