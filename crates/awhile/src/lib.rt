#![tactic(auto)]

// The language AWHILE as a table of records: what a record can be, and why a table is refused.
// The limits of document 01, and of document 02 on variables: a version 1 table declares fewer.
pub const MAX_VARIABLES: usize = 64;

pub const MAX_ARRAYS: usize = 16;

pub const MAX_NODES: usize = 4096;

pub const MAX_CELLS: usize = 16384;

// What a node stands for: a number, a truth value or a command.
#[derive(Clone, Copy, PartialEq, Eq)]
pub enum Sort {
    Numeric,
    Truth,
    Command,
}

// One record of a node, with its child, variable and array numbers.
#[derive(Clone, Copy, PartialEq, Eq)]
pub enum Node {
    Number {
        value: u32,
    },
    Variable {
        variable: usize,
    },
    Add {
        left: usize,
        right: usize,
    },
    Subtract {
        left: usize,
        right: usize,
    },
    Multiply {
        left: usize,
        right: usize,
    },
    Choice {
        condition: usize,
        yes: usize,
        no: usize,
    },
    Constant {
        value: usize,
    },
    Equal {
        left: usize,
        right: usize,
    },
    Less {
        left: usize,
        right: usize,
    },
    Not {
        truth: usize,
    },
    And {
        left: usize,
        right: usize,
    },
    Skip,
    Assign {
        variable: usize,
        value: usize,
    },
    Sequence {
        first: usize,
        second: usize,
    },
    If {
        condition: usize,
        yes: usize,
        no: usize,
    },
    While {
        condition: usize,
        body: usize,
    },
    Read {
        variable: usize,
        array: usize,
        index: usize,
    },
    Write {
        array: usize,
        index: usize,
        value: usize,
    },
}

// The secret marks of variables and arrays: bit n is set where number n is secret.
#[derive(Clone, Copy, PartialEq, Eq)]
pub struct Labelling {
    pub variables: u64,
    pub arrays: u16,
}

// What a table's header says: its version, and how many variables, arrays and nodes there are. The version is a number as it stands in the bytes,
// since the definitions (`Table`, `known_version` and `mask_bytes` of specs/Tables) are of any number.
#[derive(Clone, Copy, PartialEq, Eq)]
pub struct Header {
    pub version: usize,
    pub variables: usize,
    pub arrays: usize,
    pub nodes: usize,
}

// All that a table declares: its header, how many cells its arrays have together, and its labels.
#[derive(Clone, Copy, PartialEq, Eq)]
pub struct Declarations {
    pub header: Header,
    pub cells: usize,
    pub labels: Labelling,
}

// Why a call is refused, with the byte offset of the place where there is one.
#[derive(Clone, Copy, PartialEq, Eq)]
pub enum Refusal {
    // 1: the table ends inside a record
    Cut { at: usize },
    // 2: kind or length wrong for this point
    WrongRecord { at: usize },
    // 3: version, count or mask beyond the limits
    BeyondLimit { at: usize },
    // 4: a variable, array, child or constant out of range
    OutOfRange { at: usize },
    // 5: a child of the wrong sort
    WrongSort { at: usize },
    // 6: the nodes are no tree with a command as its root
    NotATree { at: usize },
    // 7: bytes after the last node
    ExtraBytes { at: usize },
    // 8: more nodes than hardening takes
    TooManyNodes,
    // 9: no variable number is left for the flag
    NoFreeVariable,
    // 10: a directive list that is cut or holds a wrong record
    BadDirectives,
    // 11: a list of label questions that is too long, is cut or asks what cannot be asked
    BadQuestions,
    // 20: not as many variable words as variables
    WrongVariables,
    // 21: not as many cell words as cells
    WrongCells,
    // 22: fewer pending entries than nodes
    ShortPending,
    // 23: what is to be written is longer than its buffer
    ShortBuffer,
    // 24: fewer save words than eight saves take
    ShortSaves,
}
