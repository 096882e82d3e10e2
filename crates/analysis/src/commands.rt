// The analysis of commands: the labelling after a command, from the one before it and a context. On the way it notes what enters each
// command, and what is noted for a loop's body is where the loop's next analysis starts from.
// Notes and labelling are changed in place, so they are lent beside the expressions, which are read: in one struct each call would have to say, too,
// that the memory that it lends is the same after it. Array and cell of an access are two fields of its node, and go on as they stand there.
ghost use Rattle.std.specs.Prelude.{◌<◌, ◌||◌, ◌≡◌, length};
ghost use Rattle.reader.specs.Index.{nodes_in, node_in, truth_in, command_in};
ghost use Rattle.awhile.specs.declared.Node.TheVariants.{Sequence, If, While};
ghost use Rattle.labels.specs.Labellings.{array_mark, label_of};
ghost use Rattle.analysis.specs.Notes.{labels_of};
ghost use Rattle.analysis.specs.Conditions.{label_at, SingleFits, SingleAfter, Analysable, Analysed, Settleable, SettledLoop};

use crate::labelling::{Mark, join};
use crate::noting::Note;
use awhile::{Labelling, Node};
use variables::named::Expressions;

// The label of an expression where a command is entered, joined with the context: that of what a condition guards, or of what is assigned.
fn guarded(expressions: &Expressions, e: usize, entering: Note) -> bool
    requires { e < nodes_in expressions.now.table.now }
    ensures { result ≡ (label_at expressions.now.named.now (labels_of entering) e || entering.context) }
{
    expressions.label(entering.labels(), e) || entering.context
}

// The label that the read of an array gives to its variable.
pub fn read_label(expressions: &Expressions, array: usize, cell: usize, entering: Note) -> bool
    requires { cell < length expressions.now.named.now }
    ensures { result ≡ (label_at expressions.now.named.now (labels_of entering) cell
        || (label_of (labels_of entering) (array_mark array) || entering.context)) }
{
    let labels = entering.labels();
    expressions.label(labels, cell) || (Mark::Array(array).label(labels) || entering.context)
}

// The label of an array after a write.
fn write_label(
    expressions: &Expressions,
    array: usize,
    cell: usize,
    value: usize,
    entering: Note,
) -> bool
    requires { (cell < nodes_in expressions.now.table.now) × (value < nodes_in expressions.now.table.now) }
    ensures { result ≡ (label_of (labels_of entering) (array_mark array)
        || (label_at expressions.now.named.now (labels_of entering) cell
        || (label_at expressions.now.named.now (labels_of entering) value || entering.context))) }
{
    let labels = entering.labels();
    Mark::Array(array).label(labels)
        || (expressions.label(labels, cell) || guarded(expressions, value, entering))
}

// A command without command parts: a skip, an assignment, a read or a write. The labelling that enters it is changed to the one after it.
fn follow_single(expressions: &Expressions, node: Node, context: bool, labels: &mut Labelling)
    requires { SingleFits (nodes_in expressions.now.table.now) node }
    ensures { SingleAfter expressions.now.named.now node context labels.old labels.new }
{
    let entering = Note::new(context, *labels);
    match node {
        Node::Assign { variable, value } => {
            let secret = guarded(expressions, value, entering);
            Mark::Variable(variable).set(&mut *labels, secret);
        }
        Node::Read {
            variable,
            array,
            index,
        } => {
            let secret = read_label(expressions, array, index, entering);
            Mark::Variable(variable).set(&mut *labels, secret);
        }
        Node::Write {
            array,
            index,
            value,
        } => {
            let secret = write_label(expressions, array, index, value, entering);
            Mark::Array(array).set(&mut *labels, secret);
        }
        // a skip; other nodes never stand here
        _ => {}
    }
}

// Settles a loop: "passes repeat until one adds no secret, and that labelling is the answer". The passes start from the entering labelling
// joined with what the loop last settled at, which is noted for its body: nested loops then settle in few passes.
#[cycle(commands)]
fn settle(
    expressions: &Expressions,
    notes: &mut [Note],
    labels: &mut Labelling,
    condition: usize,
    body: usize,
    context: bool,
)
    requires { Settleable expressions.now.table.now expressions.now.named.now notes.old condition body context labels.old }
    ensures { SettledLoop (truth_in expressions.now.table.now condition) (command_in expressions.now.table.now body) context labels.old
        notes.old notes.new labels.new }
{
    let kept = notes[body].labels();
    let mut masks = join(*labels, kept);
    let settled = loop {
        let inner = guarded(expressions, condition, Note::new(context, masks));
        *labels = masks;
        analyse(expressions, &mut *notes, &mut *labels, body, inner);
        let next = join(masks, *labels);
        if next == masks {
            break masks;
        }
        masks = next;
    };
    *labels = settled;
}

// A loop. Where it is entered as its note says that it last was, its body's note is the answer and no pass is made.
#[cycle(commands)]
fn analyse_loop(
    expressions: &Expressions,
    notes: &mut [Note],
    labels: &mut Labelling,
    n: usize,
    condition: usize,
    body: usize,
    context: bool,
)
    requires { Analysable expressions.now.table.now notes.old n context labels.old × (node_in expressions.now.table.now n ≡ While condition body) }
    ensures { Analysed (command_in expressions.now.table.now n) context labels.old notes.old notes.new labels.new }
{
    let entered = Note::new(context, *labels);
    let last = notes[n];
    if last == entered {
        *labels = notes[body].labels();
        return;
    }
    notes[n] = entered;
    settle(
        expressions,
        &mut *notes,
        &mut *labels,
        condition,
        body,
        context,
    )
}

// A sequence: its second part is entered with what the first leaves.
#[cycle(commands)]
fn analyse_sequence(
    expressions: &Expressions,
    notes: &mut [Note],
    labels: &mut Labelling,
    n: usize,
    first: usize,
    second: usize,
    context: bool,
)
    requires { Analysable expressions.now.table.now notes.old n context labels.old × (node_in expressions.now.table.now n ≡ Sequence first second) }
    ensures { Analysed (command_in expressions.now.table.now n) context labels.old notes.old notes.new labels.new }
{
    notes[n] = Note::new(context, *labels);
    analyse(expressions, &mut *notes, &mut *labels, first, context);
    analyse(expressions, &mut *notes, &mut *labels, second, context);
}

// An if: both sides are entered with what enters it, in the context of its condition.
#[cycle(commands)]
fn analyse_if(
    expressions: &Expressions,
    notes: &mut [Note],
    labels: &mut Labelling,
    n: usize,
    condition: usize,
    yes: usize,
    no: usize,
    context: bool,
)
    requires { Analysable expressions.now.table.now notes.old n context labels.old × (node_in expressions.now.table.now n ≡ If condition yes no) }
    ensures { Analysed (command_in expressions.now.table.now n) context labels.old notes.old notes.new labels.new }
{
    let entering = *labels;
    let entered = Note::new(context, entering);
    notes[n] = entered;
    let inner = guarded(expressions, condition, entered);
    analyse(expressions, &mut *notes, &mut *labels, yes, inner);
    let left = *labels;
    *labels = entering;
    analyse(expressions, &mut *notes, &mut *labels, no, inner);
    *labels = join(left, *labels);
}

// The command of node n, in this context: the labelling that enters it is changed to the one after it.
#[cycle(commands)]
pub fn analyse(
    expressions: &Expressions,
    notes: &mut [Note],
    labels: &mut Labelling,
    n: usize,
    context: bool,
)
    requires { Analysable expressions.now.table.now notes.old n context labels.old }
    ensures { Analysed (command_in expressions.now.table.now n) context labels.old notes.old notes.new labels.new }
{
    let node = expressions.table.command(n);
    match node {
        Node::Sequence { first, second } => {
            analyse_sequence(
                expressions,
                &mut *notes,
                &mut *labels,
                n,
                first,
                second,
                context,
            )
        }
        Node::If { condition, yes, no } => {
            analyse_if(
                expressions,
                &mut *notes,
                &mut *labels,
                n,
                condition,
                yes,
                no,
                context,
            )
        }
        Node::While { condition, body } => {
            analyse_loop(
                expressions,
                &mut *notes,
                &mut *labels,
                n,
                condition,
                body,
                context,
            )
        }
        _ => {
            let entered = Note::new(context, *labels);
            follow_single(expressions, node, context, &mut *labels);
            notes[n] = entered;
        }
    }
}
