// Size classes: for how many nodes a table is given memory, told before it is read. To clear memory for all nodes that a table can have takes
// longer than to label a small table.
ghost use Rattle.std.specs.Prelude.{◌≡◌};
ghost use Rattle.reader.specs.Classes.{holds_table, next_class};

use bytes_le::get::u16_at;

// Memory for SMALL_NODES, for MEDIUM_NODES, or for as many as a table can have.
#[derive(Clone, Copy)]
pub enum Class {
    Small,
    Medium,
    Full,
}

pub const SMALL_NODES: usize = 64;

pub const MEDIUM_NODES: usize = 512;

// Where a header says how many nodes there are.
const NODES_AT: usize = 8;

// Whether a class holds a table, by the node count that its header's bytes state. They are not tested here: where the header is refused, no node is
// read. This and `next` are functions by the names that run_entries and write_entries call.
#[tactic(auto, unfolding(crate::specs::Classes::holds_table, crate::specs::Classes::class_nodes))]
pub fn holds(class: Class, table: &[u8]) -> bool
    ensures { result ≡ holds_table class table.now }
{
    let stated = u16_at(table, NODES_AT);
    match class {
        Class::Small => stated <= SMALL_NODES,
        Class::Medium => stated <= MEDIUM_NODES,
        Class::Full => true,
    }
}

// The next larger class.
#[tactic(auto, unfolding(crate::specs::Classes::next_class))]
pub fn next(class: Class) -> Class
    ensures { result ≡ next_class class }
{
    match class {
        Class::Small => Class::Medium,
        Class::Medium => Class::Full,
        Class::Full => Class::Full,
    }
}
