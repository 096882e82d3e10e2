// A table with the variables that are named for its expressions: what their labels are told from.
ghost use Rattle.std.specs.Prelude.{◌<◌, ◌≤◌, ◌≡◌, length, get_or};
ghost use Rattle.reader.specs.Admitted.{Admitted};
ghost use Rattle.reader.specs.Index.{nodes_in};
ghost use Rattle.variables.specs.Variables.{meet};
ghost use Rattle.variables.specs.Named.{Named};

use crate::collecting::name_all;
use crate::meeting::named_label;
use awhile::Labelling;
use reader::accepted::Accepted;

#[derive(Clone, Copy)]
pub struct Expressions<'a> {
    pub table: &'a Accepted<'a>,
    pub named: &'a [u64],
    pub ghost admitted: { Admitted table.now },
    pub ghost names: { Named table.now named.now },
}

impl<'a> Expressions<'a> {
    // Names them in this memory.
    pub fn new(table: &'a Accepted<'a>, named: &'a mut [u64]) -> Self
        requires { nodes_in table.now ≤ length named.old }
        ensures { result.table.now ≡ table.now }
    {
        name_all(table, &mut *named);
        Expressions {
            table,
            named: &*named,
        }
    }

    // The label of the expression at node n.
    pub fn label(&self, labels: Labelling, n: usize) -> bool
        requires { n < length self.now.named.now }
        ensures { result ≡ meet labels.variables (get_or self.now.named.now n 0) }
    {
        named_label(self.named, labels, n)
    }
}
