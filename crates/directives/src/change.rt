// What a step changes and shows, once it is known which command it takes.
ghost use Rattle.std.specs.Prelude.{◌<◌, ◌≡◌};
ghost use Rattle.directives.specs.Changes.{height_of};

// What is put back on the pending list: nothing, a command, or a command below the next one. A list of at most two, where an Option of the rest
// would take apart what every match over it tells together.
#[derive(Clone, Copy)]
pub enum Back {
    Nothing,
    One { next: usize },
    Two { below: usize, next: usize },
}

// What a step changes: the pending list, a variable or a cell.
#[derive(Clone, Copy)]
pub enum Change {
    PutBack { back: Back },
    Assign { variable: usize, value: u32 },
    Store { place: u32, value: u32 },
}

// What a step shows: a branch with its two sides, a read into a variable, or a write of a value.
#[derive(Clone, Copy)]
pub enum Shown {
    Fork {
        value: bool,
        yes: Back,
        no: Back,
    },
    Get {
        variable: usize,
        array: usize,
        index: u32,
    },
    Put {
        array: usize,
        index: u32,
        value: u32,
    },
}

// How many commands are pending after a change, where so many stood below the one taken off.
#[tactic(auto, unfolding(crate::specs::Changes::height_of))]
pub fn height(change: Change, rest: usize) -> usize
    requires { rest < 4294967296 }
    ensures { result ≡ height_of change rest }
{
    match change {
        Change::PutBack { back } => match back {
            Back::Nothing => rest,
            Back::One { .. } => rest + 1,
            Back::Two { .. } => rest + 2,
        },
        Change::Assign { .. } | Change::Store { .. } => rest,
    }
}
