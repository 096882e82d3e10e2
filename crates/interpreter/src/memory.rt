// What a step does to the lent memory.
ghost use Rattle.std.specs.Prelude.{◌+◌, ◌*◌, ◌^◌, ◌≤◌, ◌<◌, cond, ◌≡◌, ◌++◌, length};
ghost use Rattle.std.proofs.lemmas.List.Edits.{sets};
ghost use Rattle.bytes_le.specs.Numbers.{le};
ghost use Rattle.machine.specs.Observations.{observation_bytes};
ghost use Rattle.stepping.specs.Actions.{observation_of};
ghost use Rattle.stepping.specs.Lending.{SameMemory};
ghost use Rattle.stepping.specs.Stepping.{memory_of};
ghost use Rattle.interpreter.specs.Effects.{PushFits, pushed, PerformFits, Performed, kind_number, seen_bytes};

use bytes_le::put::{put16, put32};
use directives::change::{Back, Change, Shown};
use stepping::memory::Memory;

// Puts a command on the pending list, above so many others. How many there are stands beside the list, as crate stepping's `Memory` says.
fn put_entry(pending: &mut [u8], rest: usize, n: usize)
    requires { (n < 2 ^ 32) × (4 * rest + 4 ≤ length pending.old) }
    ensures { pending.new ≡ sets pending.old (4 * rest) (le 4 n) }
{
    put32(pending, 4 * rest, n as u32);
}

// Puts back what a step puts back. The last one is next.
#[tactic(auto, unfolding(crate::specs::Effects::pushed))]
pub fn push(pending: &mut [u8], rest: usize, back: Back)
    requires { PushFits back rest (length pending.old) }
    ensures { pending.new ≡ pushed back rest pending.old }
{
    match back {
        Back::Nothing => {}
        Back::One { next } => {
            put_entry(pending, rest, next);
        }
        Back::Two { below, next } => {
            put_entry(pending, rest, below);
            put_entry(pending, rest + 1, next);
        }
    }
}

// Makes the change of a step whose command stood above so many others.
#[tactic(auto, unfolding(crate::specs::Effects::performed))]
pub fn perform(change: Change, memory: &mut Memory, rest: usize)
    requires { PerformFits change rest (memory_of memory.old) }
    ensures performed { Performed change rest (memory_of memory.old) (memory_of memory.new) }
    ensures memory { SameMemory memory.old memory.new }
{
    match change {
        Change::PutBack { back } => {
            push(memory.pending, rest, back);
        }
        Change::Assign { variable, value } => {
            put32(memory.variables, 4 * variable, value);
        }
        Change::Store { place, value } => {
            put32(memory.cells, 4 * (place as usize), value);
        }
    }
}

// What an observation's record is of, by the documents' numbers.
#[derive(Clone, Copy)]
enum Kind {
    Branch = 64,
    Read = 65,
    Write = 66,
    Rollback = 67,
}

impl Kind {
    fn number(self) -> usize
        ensures { result ≡ kind_number self }
    {
        self as usize
    }
}

// The head of a record: its length, and what it is of.
fn show_head(out: &mut [u8], at: usize, size: usize, kind: Kind)
    requires { at + 4 ≤ length out.old }
    ensures { out.new ≡ sets out.old at (le 2 size ++ le 2 (kind_number kind)) }
{
    put16(out, at, size);
    put16(out, at + 2, kind.number());
}

// The record of a read or a write.
fn show_access(out: &mut [u8], at: usize, kind: Kind, array: usize, index: u32)
    requires { at + 10 ≤ length out.old }
    ensures { out.new ≡ sets out.old at (le 2 10 ++ (le 2 (kind_number kind) ++ (le 2 array ++ le 4 index))) }
{
    show_head(out, at, 10, kind);
    put16(out, at + 4, array);
    put32(out, at + 6, index);
}

// The record of a branch.
pub fn show_branch(out: &mut [u8], at: usize, value: bool)
    requires { at + 6 ≤ length out.old }
    ensures { out.new ≡ sets out.old at (le 2 6 ++ (le 2 64 ++ le 2 (cond value 1 0))) }
{
    show_head(out, at, 6, Kind::Branch);
    put16(out, at + 4, usize::from(value));
}

// The record of a rollback.
pub fn show_rollback(out: &mut [u8], at: usize)
    requires { at + 4 ≤ length out.old }
    ensures { out.new ≡ sets out.old at (le 2 4 ++ le 2 67) }
{
    show_head(out, at, 4, Kind::Rollback);
}

// Writes what a step shows, if anything, behind the observations so far.
#[tactic(auto, unfolding(crate::specs::Effects::seen_bytes))]
pub fn show(observations: &mut [u8], at: usize, seen: Option<Shown>)
    requires { at + length (seen_bytes seen) ≤ length observations.old }
    ensures { observations.new ≡ sets observations.old at (seen_bytes seen) }
{
    if let Some(shown) = seen {
        show_record(observations, at, shown);
    }
}

// The record of a shown step.
#[tactic(auto, unfolding(machine::specs::Observations::observation_bytes, stepping::specs::Actions::observation_of, bytes_le::specs::Numbers::le))]
fn show_record(out: &mut [u8], at: usize, shown: Shown)
    requires { at + length (observation_bytes (observation_of shown)) ≤ length out.old }
    ensures { out.new ≡ sets out.old at (observation_bytes (observation_of shown)) }
{
    match shown {
        Shown::Fork { value, .. } => {
            show_branch(out, at, value);
        }
        Shown::Get { array, index, .. } => {
            show_access(out, at, Kind::Read, array, index);
        }
        Shown::Put { array, index, .. } => {
            show_access(out, at, Kind::Write, array, index);
        }
    }
}
