// A node's record: its kind and frame, then its fields' ranges, then its children's sorts.
ghost use Rattle.std.specs.Prelude.{◌+◌, ◌^◌, ◌≤◌, ◌<◌, ◌≡◌, [], ◌∷◌, length, get_or, map};
ghost use Rattle.std.specs.List.{list_all};
ghost use Rattle.awhile.specs.Refusals.{as_result, refused, got, passed, check};
ghost use Rattle.awhile.specs.Nodes.{field_in_range, same_sort};
ghost use Rattle.awhile.specs.Tables.{framed};
ghost use Rattle.record.specs.RecordRead.{field_of, fields_of, Heads, ChildThere, AllThere, SortAt, SortsAs, RecordChecked, NodeChecked};
ghost use Rattle.awhile.specs.declared.Node.TheVariants.{Skip};
ghost use Rattle.awhile.specs.declared.Refusal.TheVariants.{WrongSort};

use crate::forms::{Field, Fields, in_range, record_size};
use crate::{checks, decode, forms};
use awhile::{Header, Refusal, Sort};
use bytes_le::get;

// The offset that an index has for a number; 0 past its end.
pub fn offset_at(index: &[u16], n: usize) -> usize
    ensures { (result ≡ get_or index.now n 0) × (result < 65536) }
{
    index.get(n).map_or(0, |at| usize::from(*at))
}

// The functions below take what a `Reader` stands at as `table` and `at`, and the index of the nodes before as a slice: it is still being filled, so
// no type can hold it together with the table (`Heads` says of so many nodes only that their records are there).

// The sort of the node whose record stands at an offset, by its kind alone; of no account where no node stands.
pub fn sort_at(table: &[u8], at: usize) -> Sort
    requires { at + 4 ≤ length table.now }
    ensures { SortAt table.now at result }
{
    forms::sort_of_kind(get::whole_u16(table, at + 2))
}

// A child's sort is the wanted one; where it is not, reading stops at the parent's record. The sort is taken apart by `let .. else`, the other way
// being the refusal, as document 01 has it for this place.
#[tactic(auto, unfolding(awhile::specs::Refusals::as_result, awhile::specs::Refusals::check, awhile::specs::Nodes::same_sort))]
fn check_sort(sort: Sort, wanted: Sort, at: usize) -> Result<(), Refusal>
    ensures { result ≡ as_result (check (same_sort sort wanted) (WrongSort at) passed) }
{
    match wanted {
        Sort::Numeric => {
            let Sort::Numeric = sort else {
                return Err(Refusal::WrongSort { at });
            };
        }
        Sort::Truth => {
            let Sort::Truth = sort else {
                return Err(Refusal::WrongSort { at });
            };
        }
        Sort::Command => {
            let Sort::Command = sort else {
                return Err(Refusal::WrongSort { at });
            };
        }
    }
    Ok(())
}

// A child that a field names is of the wanted sort; its record is found by an index of the nodes before. A field that names none passes.
fn check_child(table: &[u8], index: &[u16], at: usize, field: Field) -> Result<(), Refusal>
    requires { ChildThere table.now index.now (field_of field) }
    ensures { SortsAs table.now index.now at (field_of field ∷ []) result }
{
    let Field::Child { sort, node } = field else {
        return Ok(());
    };
    check_sort(sort_at(table, usize::from(index[node])), sort, at)
}

// All that the fields name is there.
fn all_in_range<const N: usize>(header: Header, n: usize, fields: [Field; N]) -> bool
    ensures { result ≡ list_all (λ field. field_in_range header.variables header.arrays n (field_of field)) fields.entry }
{
    fields.iter().all(|field| in_range(*field, header, n))
}

// All children that the fields name are of the wanted sorts. `check_child` may be asked only of a field whose child is there (`ChildThere`), and
// `SortsAs` is no equation: a turn of the `for` goes by both for the fields that are left, and a closure that is called for each field has neither.
fn check_sorts<const N: usize>(
    table: &[u8],
    index: &[u16],
    at: usize,
    fields: [Field; N],
) -> Result<(), Refusal>
    requires { AllThere table.now index.now (map field_of fields) }
    ensures { SortsAs table.now index.now at (map field_of fields.entry) result }
{
    for field in fields {
        check_child(table, index, at, field)?;
    }
    Ok(())
}

// A record of so many 2-byte fields, of which none has more than three: its frame, then all ranges, then all sorts.
fn check_fields<const N: usize>(
    table: &[u8],
    index: &[u16],
    header: Header,
    n: usize,
    at: usize,
    fields: [Field; N],
) -> Result<(), Refusal>
    requires { (N ≤ 3) × (at + 10 < 2 ^ 64) × Heads table.now index.now n }
    ensures { RecordChecked table.now index.now header n at (map field_of fields.entry) result }
{
    checks::frame(table, at, 4 + 2 * N)?;
    if !all_in_range(header, n, fields) {
        return Err(Refusal::OutOfRange { at });
    }
    check_sorts(table, index, at, fields)
}

// A record with these fields passes all tests of its own. Each way knows how many fields it has,
// and hands on an array of that length.
fn check_record(
    table: &[u8],
    index: &[u16],
    header: Header,
    n: usize,
    at: usize,
    fields: Fields,
) -> Result<(), Refusal>
    requires { (at + 10 < 2 ^ 64) × Heads table.now index.now n }
    ensures { RecordChecked table.now index.now header n at (fields_of fields) result }
{
    match fields {
        Fields::Nothing => check_fields(table, index, header, n, at, []),
        Fields::Word { .. } => checks::frame(table, at, record_size(fields)),
        Fields::One { first } => check_fields(table, index, header, n, at, [first]),
        Fields::Two { first, second } => check_fields(table, index, header, n, at, [first, second]),
        Fields::Three {
            first,
            second,
            third,
        } => check_fields(table, index, header, n, at, [first, second, third]),
    }
}

// Why a record of no kind is refused: its head is cut, or it is the wrong record. `checks::frame` with the length 0 tests the same, but its
// type leaves a passing record to be answered too.
#[tactic(auto, unfolding(awhile::specs::Refusals::check, awhile::specs::Tables::framed))]
fn refuse_kind(table: &[u8], at: usize) -> Refusal
    requires { at + 4 < 2 ^ 64 }
    ensures { framed table.now at 0 (got Skip) ≡ refused result }
{
    if table.len() < at + 4 {
        Refusal::Cut { at }
    } else {
        Refusal::WrongRecord { at }
    }
}

// The record of node n, by an index of the nodes before it: its kind, then its frame, its fields' ranges and its children's sorts.
pub fn read_node(
    table: &[u8],
    index: &[u16],
    header: Header,
    n: usize,
    at: usize,
) -> Result<Fields, Refusal>
    requires { (at + 10 < 2 ^ 64) × Heads table.now index.now n }
    ensures { NodeChecked table.now index.now header n at result }
{
    let Some(node) = decode::decode_at(table, at) else {
        return Err(refuse_kind(table, at));
    };
    let form = forms::form_of(node);
    check_record(table, index, header, n, at, form.fields)?;
    Ok(form.fields)
}
