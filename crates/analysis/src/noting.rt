// The notes of commands, kept by node number in a lent slice: what enters each.
ghost use Rattle.std.specs.Prelude.{◌≡◌};
ghost use Rattle.analysis.specs.Notes.{noted, labels_of};

use awhile::Labelling;

// What enters a command: the labelling, its two masks as they stand there, and the context. So a note has 16 bytes; with a `Labelling` as a field,
// which fills 16 alone, it would have 24.
#[derive(Clone, Copy, PartialEq, Eq)]
pub struct Note {
    pub variables: u64,
    pub arrays: u16,
    pub context: bool,
}

impl Note {
    // What memory holds before anything is noted: nothing secret, in a public context.
    pub const BLANK: Note = Note {
        variables: 0,
        arrays: 0,
        context: false,
    };

    pub fn new(context: bool, labels: Labelling) -> Self
        ensures { result ≡ noted context labels }
    {
        Note {
            variables: labels.variables,
            arrays: labels.arrays,
            context,
        }
    }

    // The labelling that enters.
    pub fn labels(self) -> Labelling
        ensures { result ≡ labels_of self }
    {
        Labelling {
            variables: self.variables,
            arrays: self.arrays,
        }
    }
}
