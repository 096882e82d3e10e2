// What is masked, decided once for each command of a program by the labels noted for it. Nothing after it looks at notes.
ghost use Rattle.std.specs.Prelude.{◌≤◌, ◌<◌, ◌||◌, not as negated, ◌≡◌, length};
ghost use Rattle.reader.specs.Index.{nodes_in, HasSort};
ghost use Rattle.awhile.specs.declared.Sort.TheVariants.{Command};
ghost use Rattle.labels.specs.Labellings.{array_mark, label_of};
ghost use Rattle.analysis.specs.Conditions.{label_at};
ghost use Rattle.analysis.specs.Notes.{note_in};
ghost use Rattle.deciding.specs.Deciding.{choices_in, DecidedBelow};

use crate::decisions::Decision;
use analysis::labelled::Labelled;
use awhile::Node;

// Whether the value of a read is masked: it reads a public label, as index, array and context are public. Array and cell are two
// fields of the read's node.
#[tactic(auto, using(crate::proofs::NotedLabels::both_public))]
fn mask_value(labelled: &Labelled, array: usize, cell: usize, at: usize) -> bool
    requires { (cell < nodes_in labelled.now.expressions.table.now) × (at < nodes_in labelled.now.expressions.table.now) }
    ensures { result ≡ negated
        ((label_at labelled.now.expressions.named.now (note_in labelled.now.notes.now at).labelling cell
        || (label_of (note_in labelled.now.notes.now at).labelling (array_mark array) || (note_in labelled.now.notes.now at).context))
        || label_at labelled.now.expressions.named.now (note_in labelled.now.notes.now at).labelling cell) }
{
    !labelled.read_label(at, array, cell)
}

// The decision on a command, by its kind: a condition or an index is masked where it is secret.
#[tactic(auto, using(crate::proofs::DecidedChoices::by_kind))]
fn decide_command(labelled: &Labelled, n: usize) -> Decision
    requires { HasSort labelled.now.expressions.table.now Command n }
    ensures { result ≡ choices_in labelled.now.expressions.table.now labelled.now.notes.now n }
{
    match labelled.expressions.table.command(n) {
        Node::If { condition, .. } => Decision {
            condition: labelled.label(n, condition),
            ..Decision::NONE
        },
        // a loop's condition is labelled by what settled, which enters its body
        Node::While { condition, body } => Decision {
            condition: labelled.label(body, condition),
            ..Decision::NONE
        },
        Node::Read {
            array,
            index: cell,
            ..
        } => Decision {
            index: labelled.label(n, cell),
            value: mask_value(labelled, array, cell, n),
            ..Decision::NONE
        },
        Node::Write { index, .. } => Decision {
            index: labelled.label(n, index),
            ..Decision::NONE
        },
        // a skip, an assignment or a sequence; nodes of other sorts never stand here
        _ => Decision::NONE,
    }
}

// Decides on all commands of a table, each at its own node.
#[tactic(auto, using(crate::proofs::DecidedChoices::one_more))]
pub fn decide_all(labelled: &Labelled, decisions: &mut [Decision])
    requires { nodes_in labelled.now.expressions.table.now ≤ length decisions.old }
    ensures { DecidedBelow labelled.now.expressions.table.now labelled.now.notes.now decisions.new (nodes_in labelled.now.expressions.table.now) }
{
    let table = labelled.expressions.table;
    for n in 0..table.count() {
        if table.is_command(n) {
            decisions[n] = decide_command(labelled, n);
        }
    }
}
