// How often each node is a child.
ghost use Rattle.std.specs.Prelude.{◌≤◌, ◌<◌, true, ◌≡◌, length, map};
ghost use mathlib.Core.List.{flat_map};
ghost use Rattle.awhile.specs.Nodes.{field_children};
ghost use Rattle.record.specs.RecordRead.{field_of, fields_of, tally, all_below, CountsBelow, OrderSearched};

use crate::forms::{Field, Fields};
use awhile::Sort;

// One use more of the child that a field names, if it names one.
#[tactic(auto, using(crate::proofs::Tally::counting))]
fn count_field(uses: &mut [u16], field: Field)
    requires { (all_below (length uses.old) (field_children (field_of field)) ≡ true) × CountsBelow 65535 uses.old }
    ensures { uses.new ≡ tally uses.old (field_children (field_of field)) }
{
    let Field::Child { sort: _, node } = field else {
        return;
    };
    uses[node] += 1;
}

// One use more of each child that so many fields name. No record has more than three, and so no count goes past 65535.
fn count_all<const N: usize>(uses: &mut [u16], fields: [Field; N])
    requires { (N ≤ 3) × (all_below (length uses.old) (flat_map field_children (map field_of fields)) ≡ true) × CountsBelow 65533 uses.old }
    ensures { uses.new ≡ tally uses.old (flat_map field_children (map field_of fields.entry)) }
{
    for field in fields {
        count_field(&mut *uses, field);
    }
}

// One use more of each child that the fields name.
#[tactic(auto, using(crate::proofs::Tally::tally_no_fields, crate::proofs::Tally::tally_word))]
pub fn count_fields(uses: &mut [u16], fields: Fields)
    requires { (all_below (length uses.old) (flat_map field_children (fields_of fields)) ≡ true) × CountsBelow 65533 uses.old }
    ensures { uses.new ≡ tally uses.old (flat_map field_children (fields_of fields)) }
{
    match fields {
        Fields::Nothing | Fields::Word { .. } => {}
        Fields::One { first } => count_all(uses, [first]),
        Fields::Two { first, second } => count_all(uses, [first, second]),
        Fields::Three {
            first,
            second,
            third,
        } => count_all(uses, [first, second, third]),
    }
}

// Looks through the nodes from 0 up for the lowest-numbered one that is not in order: one but the last that is not a child exactly once is not,
// nor is a last one that is no command. A `for` counts them from 0, as the must-fail edit `search_from_one` says, where `position` would count from
// the start of its slice. The counts may be more than the nodes, since they are lent at the size of a class.
#[tactic(auto, using(crate::proofs::Searching::searching))]
pub fn find_broken(uses: &[u16], nodes: usize, root: Sort) -> Option<usize>
    requires { (0 < nodes) × (nodes ≤ length uses.now) }
    ensures { OrderSearched uses.now nodes root result }
{
    let last = nodes - 1;
    for n in 0..last {
        if uses[n] != 1 {
            return Some(n);
        }
    }
    (root != Sort::Command).then_some(last)
}
