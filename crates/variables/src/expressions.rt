// The variables that can make an expression secret. Numbers and truths nest in each other, so the two functions call each other: they are two, as
// a caller knows the sort of the node that it asks for, and only the kinds of that sort are told apart.
// A node goes by its number alone. That a number is of a sort is a fact about it and the table, so it stands in each contract: a type for it would
// carry the table beside each number.
ghost use Rattle.std.specs.Prelude.{◌≡◌};
ghost use Rattle.std.specs.Int.Bits.{bit_or};
ghost use Rattle.awhile.specs.Language.{multiply};
ghost use Rattle.reader.specs.Index.{numeric_in, truth_in, HasSort};
ghost use Rattle.awhile.specs.declared.Sort.TheVariants.{Numeric, Truth};
ghost use Rattle.variables.specs.Variables.{variables_of_a, variables_of_b};

use crate::meeting::mark;
use crate::noughts::times_nought;
use awhile::Node;
use reader::accepted::Accepted;

// The variables in a numeric node.
#[cycle(expressions)]
pub fn numeric_variables(table: &Accepted, n: usize) -> u64
    requires { HasSort table.now Numeric n }
    ensures { result ≡ variables_of_a (numeric_in table.now n) }
{
    match table.numeric(n) {
        Node::Variable { variable } => mark(variable),
        Node::Add { left, right } | Node::Subtract { left, right } => {
            both_variables(table, left, right)
        }
        Node::Multiply { left, right } => product_variables(table, left, right),
        Node::Choice { condition, yes, no } => choice_variables(table, condition, yes, no),
        // a number; nodes of other sorts never stand here
        _ => 0,
    }
}

// The variables in a truth node.
#[cycle(expressions)]
pub fn truth_variables(table: &Accepted, n: usize) -> u64
    requires { HasSort table.now Truth n }
    ensures { result ≡ variables_of_b (truth_in table.now n) }
{
    match table.truth(n) {
        Node::Equal { left, right } | Node::Less { left, right } => {
            both_variables(table, left, right)
        }
        Node::Not { truth } => truth_variables(table, truth),
        Node::And { left, right } => truth_variables(table, left) | truth_variables(table, right),
        // a constant; nodes of other sorts never stand here
        _ => 0,
    }
}

// The variables in two numeric nodes.
#[cycle(expressions)]
fn both_variables(table: &Accepted, left: usize, right: usize) -> u64
    requires { HasSort table.now Numeric left × HasSort table.now Numeric right }
    ensures { result ≡ bit_or (variables_of_a (numeric_in table.now left)) (variables_of_a (numeric_in table.now right)) }
{
    numeric_variables(table, left) | numeric_variables(table, right)
}

// The variables in a product; none where a number node of value 0 is an operand.
#[cycle(expressions)]
#[tactic(auto, unfolding(crate::specs::Variables::variables_of_a))]
fn product_variables(table: &Accepted, left: usize, right: usize) -> u64
    requires { HasSort table.now Numeric left × HasSort table.now Numeric right }
    ensures { result ≡ variables_of_a (multiply (numeric_in table.now left) (numeric_in table.now right)) }
{
    if times_nought(table, left, right) {
        return 0;
    }
    both_variables(table, left, right)
}

// The variables in a choice.
#[cycle(expressions)]
fn choice_variables(table: &Accepted, condition: usize, yes: usize, no: usize) -> u64
    requires { HasSort table.now Truth condition × HasSort table.now Numeric yes × HasSort table.now Numeric no }
    ensures { result ≡ bit_or (variables_of_b (truth_in table.now condition))
        (bit_or (variables_of_a (numeric_in table.now yes)) (variables_of_a (numeric_in table.now no))) }
{
    let test = truth_variables(table, condition);
    let sides = both_variables(table, yes, no);
    test | sides
}
