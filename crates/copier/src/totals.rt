// Totals: how much a copy of a node and its parts takes. A total is one number, 65,536 for each node and 1 for each byte, so that one addition adds
// both. It is made from the totals of the node's parts, which stand in a slice by their numbers.
// That a slice has a total for a node, `HasTotal`, is a fact about the node's number and a slice that fills up, so it stands in each contract.
// A total is no `Size`: a slice of these, which is cleared each time that a table is measured, would be four times as large.
ghost use Rattle.std.specs.Prelude.{◌+◌, ◌^◌, ◌<◌, ◌≤◌, ◌≡◌, All, map, length, sum_by, get_or};
ghost use Rattle.copier.specs.Totals.{total, bytes_told, Over, HasTotal};

// One node, in a total.
pub const NODE: u32 = 65536;

// So many nodes and bytes more.
pub fn more(part: u32, nodes: u32, bytes: u32) -> u32
    requires { part + total nodes bytes < 2 ^ 32 }
    ensures { result ≡ part + total nodes bytes }
{
    part + nodes * NODE + bytes
}

// The bytes that a total tells.
pub fn bytes_told(total: u32) -> usize
    ensures { result ≡ bytes_told total }
{
    (total % NODE) as usize
}

// The totals of so many parts, added up.
pub fn sum_of<const N: usize>(totals: &[u32], parts: [usize; N]) -> u32
    requires few { sum_by (λ part. get_or totals.now part 0) parts < 2 ^ 32 }
    requires each { All (λ part. part < length totals.now) parts }
    ensures { result ≡ sum_by (λ part. get_or totals.now part 0) parts.entry }
{
    parts.iter().map(|part| totals[*part]).sum()
}

// A node over so many parts: their totals, and its own record of 4 bytes and 2 for each of them. A node has three at most.
pub fn over<const N: usize>(totals: &[u32], parts: [usize; N]) -> u32
    requires few { N ≤ 3 }
    requires each { All (HasTotal totals.now) parts }
    ensures { Over (map (λ part. get_or totals.now part 0) parts.entry) result }
{
    more(sum_of(totals, parts), 1, 4 + 2 * N as u32)
}
