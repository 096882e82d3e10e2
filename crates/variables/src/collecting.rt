// For each expression that a command holds, the variables that can make it secret are noted at its node, once a table.
// That the lent words reach for all nodes is asked of each function that fills them: `Expressions`, which has it as a fact, is made of filled ones.
ghost use Rattle.std.specs.Prelude.{◌≤◌, ◌≡◌, length};
ghost use Rattle.reader.specs.Admitted.{Admitted};
ghost use Rattle.reader.specs.Index.{nodes_in, HasSort};
ghost use Rattle.awhile.specs.declared.Sort.TheVariants.{Command};
ghost use Rattle.variables.specs.Named.{Names, Named};

use crate::expressions::{numeric_variables, truth_variables};
use awhile::Node;
use reader::accepted::Accepted;

// The expressions of one command.
fn name_command(table: &Accepted, n: usize, named: &mut [u64])
    requires { HasSort table.now Command n × (nodes_in table.now ≤ length named.old) }
    ensures { Names table.now n named.old named.new }
{
    match table.command(n) {
        Node::Assign { value, .. } => named[value] = numeric_variables(table, value),
        Node::If { condition, .. } | Node::While { condition, .. } => {
            named[condition] = truth_variables(table, condition);
        }
        Node::Read { index, .. } => named[index] = numeric_variables(table, index),
        Node::Write { index, value, .. } => {
            named[index] = numeric_variables(table, index);
            named[value] = numeric_variables(table, value);
        }
        // a skip and a sequence hold no expression; nodes of other sorts never stand here
        _ => {}
    }
}

// The expressions of all commands of a table.
pub fn name_all(table: &Accepted, named: &mut [u64])
    requires { nodes_in table.now ≤ length named.old }
    ensures names { Named table.now named.new }
    ensures admitted { Admitted table.now }
{
    for n in 0..table.count() {
        if table.is_command(n) {
            name_command(table, n, &mut *named);
        }
    }
}
