// The answer slice: 8 bytes a number, in order; a number that does not fit whole is dropped. C lends bytes, so a number's place is cut out
// of them.
ghost use Rattle.std.specs.Prelude.{◌≡◌};
ghost use Rattle.awhile.specs.Refusals.{refusal_number, refusal_place};
ghost use Rattle.entries.specs.Answers.{answered, refusal_numbers};

use awhile::Refusal;
use bytes_le::put::put64;

// The numbers of an answer. Whether one fits is asked of each, and not how many fit: all that do would be one copy of so many bytes, for which the
// compiler calls C's `memcpy`, and the library needs nothing of C but `memset`.
pub fn answer_numbers(answer: &mut [u8], numbers: &[u64])
    ensures { answer.new ≡ answered numbers.now answer.old }
{
    for (i, number) in numbers.iter().enumerate() {
        if 8 * i + 8 <= answer.len() {
            put64(answer, 8 * i, *number);
        }
    }
}

// A refusal's answer: document 01's number of it, and the place that it names; 0 from 8 up.
struct Told {
    number: u64,
    place: u64,
}

impl Told {
    fn at(number: u64, place: usize) -> Self
        ensures { (result.number ≡ number) × (result.place ≡ place) }
    {
        Told {
            number,
            place: place as u64,
        }
    }
}

impl From<Refusal> for Told {
    ghost from_gives = { λ refusal told. (told.number ≡ refusal_number refusal) × (told.place ≡ refusal_place refusal) };

    fn from(refusal: Refusal) -> Told {
        match refusal {
            Refusal::Cut { at } => Told::at(1, at),
            Refusal::WrongRecord { at } => Told::at(2, at),
            Refusal::BeyondLimit { at } => Told::at(3, at),
            Refusal::OutOfRange { at } => Told::at(4, at),
            Refusal::WrongSort { at } => Told::at(5, at),
            Refusal::NotATree { at } => Told::at(6, at),
            Refusal::ExtraBytes { at } => Told::at(7, at),
            Refusal::TooManyNodes => Told::at(8, 0),
            Refusal::NoFreeVariable => Told::at(9, 0),
            Refusal::BadDirectives => Told::at(10, 0),
            Refusal::BadQuestions => Told::at(11, 0),
            Refusal::WrongVariables => Told::at(20, 0),
            Refusal::WrongCells => Told::at(21, 0),
            Refusal::ShortPending => Told::at(22, 0),
            Refusal::ShortBuffer => Told::at(23, 0),
            Refusal::ShortSaves => Told::at(24, 0),
        }
    }
}

// A refusal's answer: its number, which is also returned, and its place.
pub fn answer_refusal(answer: &mut [u8], refusal: Refusal) -> u64
    ensures { (result ≡ refusal_number refusal) × (answer.new ≡ answered (refusal_numbers refusal) answer.old) }
{
    let Told { number, place } = Told::from(refusal);
    answer_numbers(answer, &[number, place]);
    number
}
