// The lent bytes that a run changes step by step.
ghost use Rattle.std.specs.Prelude.{◌≡◌};
ghost use Rattle.stepping.specs.Stepping.{memory_of, memory_seen};

// The words of the variables and of the cells, and the pending list. How many entries of that are pending the state says: C lends it whole, with
// an entry for each node. It lends bytes, and so a word is cut out at 4 times its number.
#[derive(Drop)]
pub struct Memory<'a> {
    pub variables: &'a mut [u8],
    pub cells: &'a mut [u8],
    pub pending: &'a mut [u8],
}

// The same slices, to read alone: what the next step is can be asked by who may not change them.
#[derive(Clone, Copy)]
pub struct View<'a> {
    pub variables: &'a [u8],
    pub cells: &'a [u8],
    pub pending: &'a [u8],
}

impl<'a> Memory<'a> {
    // The three, as they stand.
    pub fn view(&self) -> View
        ensures { memory_seen result ≡ memory_of self.now }
    {
        View {
            variables: &*self.variables,
            cells: &*self.cells,
            pending: &*self.pending,
        }
    }
}
