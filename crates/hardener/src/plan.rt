// What a table is hardened by, and what a command with a condition is.
ghost use Rattle.std.specs.Prelude.{◌≤◌, length};
ghost use Rattle.awhile.specs.declared.Sort.TheVariants.{Truth};
ghost use Rattle.reader.specs.Index.{nodes_in, HasSort};

use deciding::decisions::Decision;
use masking::Maskable;
use reader::accepted::Accepted;

// The table, a decision for each of its nodes, and the flag: the number of a variable that it does not declare.
#[derive(Clone, Copy)]
pub struct Plan<'a> {
    pub table: &'a Accepted<'a>,
    pub decisions: &'a [Decision],
    pub flag: usize,
    ghost room: { nodes_in table.now ≤ length decisions.now },
}

// A condition of an if or of a loop, masked or not, by its plan.
#[derive(Clone, Copy)]
pub struct Test<'a> {
    pub plan: &'a Plan<'a>,
    pub condition: Maskable,
    ghost of_sort: { HasSort plan.now.table.now Truth condition.node },
}
