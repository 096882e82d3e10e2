// A labelled table: what its sheet, the answers to questions about it and the decisions of its hardening are made from.
ghost use Rattle.std.specs.Prelude.{◌<◌, ◌||◌, ◌≡◌};
ghost use Rattle.reader.specs.Index.{nodes_in};
ghost use Rattle.labels.specs.Labellings.{array_mark, label_of};
ghost use Rattle.analysis.specs.Notes.{note_in};
ghost use Rattle.analysis.specs.Conditions.{label_at, NoteRoom};

use crate::commands::read_label;
use crate::noting::Note;
use variables::named::Expressions;

#[derive(Clone, Copy)]
pub struct Labelled<'a> {
    pub expressions: Expressions<'a>,
    pub notes: &'a [Note],
    pub ghost notes_fit: { NoteRoom expressions.table.now notes.now },
}

impl<'a> Labelled<'a> {
    // The label of the expression at node e, where the command of node n is entered.
    #[tactic(auto, unfolding(crate::specs::Notes::note_in))]
    pub fn label(&self, n: usize, e: usize) -> bool
        requires { (n < nodes_in self.now.expressions.table.now) × (e < nodes_in self.now.expressions.table.now) }
        ensures { result ≡ label_at self.now.expressions.named.now (note_in self.now.notes.now n).labelling e }
    {
        self.expressions.label(self.notes[n].labels(), e)
    }

    // The label that a read of this array gives to its variable, where the command of node n is entered.
    #[tactic(auto, unfolding(crate::specs::Notes::note_in))]
    pub fn read_label(&self, n: usize, array: usize, cell: usize) -> bool
        requires { (n < nodes_in self.now.expressions.table.now) × (cell < nodes_in self.now.expressions.table.now) }
        ensures { result ≡ (label_at self.now.expressions.named.now (note_in self.now.notes.now n).labelling cell
            || (label_of (note_in self.now.notes.now n).labelling (array_mark array) || (note_in self.now.notes.now n).context)) }
    {
        read_label(&self.expressions, array, cell, self.notes[n])
    }
}
