// The analysis of a whole program.
ghost use Rattle.std.specs.Prelude.{◌≡◌};
ghost use Rattle.labels.specs.Sheet.{final_labels};
ghost use Rattle.reader.specs.Index.{table_of};
ghost use Rattle.analysis.specs.Conditions.{Fresh, Labelled};

use crate::commands::analyse;
use crate::noting::Note;
use awhile::Labelling;
use variables::named::Expressions;

// The labelling after a table's program, where it starts from this one. The notes, all blank before, are those of the program's commands after.
pub fn label_program(
    expressions: &Expressions,
    notes: &mut [Note],
    mut labels: Labelling,
) -> Labelling
    requires { Fresh expressions.now.table.now notes.old }
    ensures { (result ≡ final_labels (table_of expressions.now.table.now) labels) × Labelled expressions.now.table.now notes.new labels }
{
    let root = expressions.table.count() - 1;
    analyse(expressions, &mut *notes, &mut labels, root, false);
    labels
}
