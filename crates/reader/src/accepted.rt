// A table that was read and accepted: its bytes, an index that leads to each node's record, and what it declares.
ghost use Rattle.std.specs.Prelude.{ℕ, List, ◌<◌, ◌≡◌};
ghost use Rattle.awhile.specs.Nodes.{sort_of, same_sort};
ghost use Rattle.awhile.specs.Tables.{declarations_of};
ghost use Rattle.awhile.specs.declared.Sort.TheVariants.{Numeric, Truth, Command};
ghost use Rattle.reader.specs.Admitted.{Admitted};
ghost use Rattle.reader.specs.Index.{Indexed, Ready, table_of, nodes_in, node_in, HasSort};

use crate::declared::declared_in;
use crate::lookup;
use awhile::{Declarations, Node};
use std::marker::Model;

// In a clause an accepted table is the list of its bytes: index and declarations follow from them.
#[derive(Drop)]
pub struct Accepted<'a> {
    table: &'a [u8],
    index: &'a [u16],
    declared: Declarations,
}

impl<'a> Model for Accepted<'a> {
    ghost Value = { List ℕ };

    ghost view = { λ a. a.table.now };

    ghost invariant = { λ a. Ready a.table.now a.index.now a.declared × Admitted a.table.now };
}

impl<'a> Accepted<'a> {
    // An index of a table is enough: what the table declares is read again.
    pub fn of(table: &'a [u8], index: &'a [u16]) -> Self
        requires { Indexed table.now index.now }
        ensures { result ≡ table.now }
    {
        let declared = declared_in(table);
        Accepted {
            table,
            index,
            declared,
        }
    }

    pub fn new(table: &'a [u8], index: &'a [u16], declared: Declarations) -> Self
        requires { Ready table.now index.now declared }
        ensures { result ≡ table.now }
    {
        Accepted {
            table,
            index,
            declared,
        }
    }

    // The table's bytes.
    pub fn bytes(&self) -> &'a [u8]
        ensures value { result.now ≡ self.now }
        ensures admitted { Admitted self.now }
    {
        self.table
    }

    // What the table declares.
    pub fn declared(&self) -> Declarations
        ensures value { result ≡ declarations_of (table_of self.now) }
        ensures admitted { Admitted self.now }
    {
        self.declared
    }

    // The number of nodes.
    #[tactic(auto, unfolding(crate::specs::Index::nodes_in))]
    pub fn count(&self) -> usize
        ensures value { result ≡ nodes_in self.now }
        ensures admitted { Admitted self.now }
    {
        self.declared.header.nodes
    }

    // The numeric node of a number. There is a method for each sort, and no one for all, as there is a look-up for each (lookup.rt says why).
    pub fn numeric(&self, n: usize) -> Node
        requires { HasSort self.now Numeric n }
        ensures value { result ≡ node_in self.now n }
        ensures admitted { Admitted self.now }
    {
        lookup::numeric_at(self.table, self.index, n)
    }

    // The truth node of a number.
    pub fn truth(&self, n: usize) -> Node
        requires { HasSort self.now Truth n }
        ensures value { result ≡ node_in self.now n }
        ensures admitted { Admitted self.now }
    {
        lookup::truth_at(self.table, self.index, n)
    }

    // The command node of a number.
    pub fn command(&self, n: usize) -> Node
        requires { HasSort self.now Command n }
        ensures value { result ≡ node_in self.now n }
        ensures admitted { Admitted self.now }
    {
        lookup::command_at(self.table, self.index, n)
    }

    // The node of a number, whatever its sort.
    pub fn node(&self, n: usize) -> Node
        requires { n < nodes_in self.now }
        ensures value { result ≡ node_in self.now n }
        ensures admitted { Admitted self.now }
    {
        lookup::node_at(self.table, self.index, n)
    }

    // Whether the node of a number is a command.
    pub fn is_command(&self, n: usize) -> bool
        requires { n < nodes_in self.now }
        ensures value { result ≡ same_sort (sort_of (node_in self.now n)) Command }
        ensures admitted { Admitted self.now }
    {
        lookup::is_command(self.table, self.index, n)
    }
}
