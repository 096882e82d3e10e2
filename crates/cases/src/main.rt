// Plays calls of Flow's entries that stand on standard input, and prints what each leaves: a line with the entry's name and the result,
// then a line of hexadecimal for each slice it was lent for writing, as it is at exit. Save words are printed for flow_rollback alone.
//
// The input is the number of calls and then the calls. A call is the entry, the budget and eight slices, in the order of the fields of
// `Call`. A slice is its length, how many of its bytes are given, and these; the others are 170. Numbers take 4 bytes.
#![tactic(auto)]

ghost use Rattle.std.specs.Prelude.{◌≡◌, length, OnErr};
ghost use Rattle.std.specs.Io.{ReadsAtMost};

use flow::ask::flow_questions;
use flow::harden::flow_harden;
use flow::machines::{flow_guess, flow_rollback, flow_run};
use flow::sheet::flow_sheet;
use std::io::{Read, Write};
use std::{fmt, io};
use streams::read_full;

// A byte of a slice that the input does not give.
const REST: u8 = 170;

#[derive(Clone, Copy, PartialEq, Eq)]
enum Entry {
    Sheet,
    Harden,
    Run,
    Guess,
    Questions,
    Rollback,
}

// No number is refused, and what is none of an entry plays `flow_guess`, so it is a `From` and no `TryFrom`.
impl From<u32> for Entry {
    fn from(number: u32) -> Entry {
        match number {
            1 => Entry::Sheet,
            2 => Entry::Harden,
            3 => Entry::Run,
            5 => Entry::Questions,
            6 => Entry::Rollback,
            _ => Entry::Guess,
        }
    }
}

impl fmt::Display for Entry {
    fn fmt<W: fmt::Write>(&self, f: &mut fmt::Formatter<W>) -> fmt::Result {
        f.write_str(match self {
            Entry::Sheet => "sheet",
            Entry::Harden => "harden",
            Entry::Run => "run",
            Entry::Guess => "guess",
            Entry::Questions => "questions",
            Entry::Rollback => "rollback",
        })
    }
}

// A call. The list holds directives or, for flow_questions, questions.
#[derive(Drop)]
struct Call<'a> {
    entry: Entry,
    budget: u32,
    table: &'a [u8],
    list: &'a [u8],
    variables: &'a mut [u8],
    cells: &'a mut [u8],
    pending: &'a mut [u8],
    saves: &'a mut [u8],
    output: &'a mut [u8],
    answer: &'a mut [u8],
}

// The next number of the input.
fn number<R: Read>(input: &mut R) -> io::Result<u32> {
    let mut word = [0u8; 4];
    read_full(input, &mut word)?;
    Ok(u32::from_le_bytes(word))
}

// The next slice of the input, at the start of a buffer that holds 170 in every byte, and cut where that ends. Answers its length.
// A read that fails leaves the buffer as long as it was, with what was read of the slice at its start.
fn fill<R: Read>(input: &mut R, buffer: &mut [u8]) -> io::Result<usize>
    ensures bound { ReadsAtMost result buffer.new }
    ensures err { OnErr result (length buffer.new ≡ length buffer.old) }
{
    let length = number(input)? as usize;
    let given = (number(input)? as usize).min(buffer.len());
    read_full(input, &mut buffer[..given])?;
    Ok(length.min(buffer.len()))
}

// The same, as the slice.
fn filled<'a, R: Read>(input: &mut R, buffer: &'a mut [u8]) -> io::Result<&'a mut [u8]> {
    let length = fill(input, buffer)?;
    Ok(&mut buffer[..length])
}

// A line of hexadecimal.
fn print_bytes<W: Write>(out: &mut W, bytes: &[u8]) -> io::Result<()> {
    for byte in bytes {
        write!(out, "{byte:02x}")?;
    }
    writeln!(out)
}

impl<'a> Call<'a> {
    // Calls the entry: its result. A match tells the entries apart, as each is lent other slices of the call.
    fn enter(&mut self) -> u64 {
        match self.entry {
            Entry::Sheet => flow_sheet(self.table, self.output, self.answer),
            Entry::Harden => flow_harden(self.table, self.output, self.answer),
            Entry::Run => flow_run(
                self.table,
                self.variables,
                self.cells,
                self.pending,
                self.output,
                self.budget,
                self.answer,
            ),
            Entry::Guess => flow_guess(
                self.table,
                self.list,
                self.variables,
                self.cells,
                self.pending,
                self.output,
                self.budget,
                self.answer,
            ),
            Entry::Questions => flow_questions(self.table, self.list, self.output, self.answer),
            Entry::Rollback => flow_rollback(
                self.table,
                self.list,
                self.variables,
                self.cells,
                self.pending,
                self.saves,
                self.output,
                self.budget,
                self.answer,
            ),
        }
    }

    // Prints what the call left in each slice.
    fn print<W: Write>(&self, out: &mut W) -> io::Result<()> {
        print_bytes(out, self.answer)?;
        print_bytes(out, self.variables)?;
        print_bytes(out, self.cells)?;
        print_bytes(out, self.pending)?;
        if self.entry == Entry::Rollback {
            print_bytes(out, self.saves)?;
        }
        print_bytes(out, self.output)
    }
}

// The next call of the input.
fn play<R: Read, W: Write>(input: &mut R, out: &mut W) -> io::Result<()> {
    let entry = Entry::from(number(input)?);
    let budget = number(input)?;
    let mut table = [REST; 65536];
    let mut list = [REST; 4096];
    let mut variables = [REST; 320];
    let mut cells = [REST; 65600];
    let mut pending = [REST; 16448];
    let mut saves = [REST; 16384];
    let mut output = [REST; 65536];
    let mut answer = [REST; 64];
    let mut call = Call {
        entry,
        budget,
        table: filled(input, &mut table)?,
        list: filled(input, &mut list)?,
        variables: filled(input, &mut variables)?,
        cells: filled(input, &mut cells)?,
        pending: filled(input, &mut pending)?,
        saves: filled(input, &mut saves)?,
        output: filled(input, &mut output)?,
        answer: filled(input, &mut answer)?,
    };
    let result = call.enter();
    writeln!(out, "{entry} {result}")?;
    call.print(out)
}

fn main(rt: HostRuntime) -> io::Result<()> {
    let mut input = rt.stdin();
    let mut out = rt.stdout();
    for _ in 0..number(&mut input)? {
        play(&mut input, &mut out)?;
    }
    Ok(())
}
