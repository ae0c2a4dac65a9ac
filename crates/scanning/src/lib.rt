// Layer 1: the checks of a graph's edges, and their table (SPECIFICATION.md, 13: 2 to 4). An edge has two bytes, tail and
// head. The table has two masks of 64 bits a vertex: bit v mod 64 of mask 2 u + v / 64 says that an edge goes from u to v.
#![tactic(auto)]

ghost use Rattle.std.specs.Prelude.{◌≡◌, ◌+◌, ◌*◌, ◌≤◌, ◌<◌, length};
ghost use Rattle.specification.specs.Sets.{member?, inserted};
ghost use Rattle.specification.specs.Graph.{outsized?};
ghost use Rattle.specification.specs.Refusals.{number_in};
ghost use Rattle.scanning.specs.Scanned.{Scanned, Scans};
ghost use Rattle.masks.specs.Sets.{Blank};

use specification::Refusal;

// The most vertices and edges of a graph.
const MOST_VERTICES: usize = 128;

const MOST_EDGES: usize = 4096;

// Puts v into the set of u; whether it stood there before.
// A twin of masks::contains and masks::insert together: each of them reads the mask.
fn mark(edges: &mut [u64], u: usize, v: usize) -> bool
    requires { (u < 128) × (v < 128) × (2 * u + 2 ≤ length edges.old) }
    ensures { (result ≡ member? edges.old (2 * u) v) × (edges.new ≡ inserted edges.old (2 * u) v) }
{
    let w = 2 * u + v / 64;
    let old = edges[w];
    edges[w] = old | (1u64 << (v % 64));
    (old >> (v % 64)) & 1 == 1
}

// The checks 3 and 4 of edges, two bytes each, among n vertices. Unless an end is no vertex, `edges` has the edges' bits and no other.
fn scan(ends: &[u8], n: usize, edges: &mut [u64]) -> Result<(), Refusal>
    requires { (n ≤ 128) × (2 * n ≤ length edges.old) × Blank edges.old }
    ensures { Scanned n ends.now edges.new (number_in result) }
{
    let mut double = false;
    for i in 0..ends.len() / 2 {
        let u = ends[2 * i] as usize;
        let v = ends[2 * i + 1] as usize;
        if n <= u || n <= v {
            return Err(Refusal::Stranger);
        }
        double |= mark(edges, u, v);
    }
    if double { Err(Refusal::Double) } else { Ok(()) }
}

// Whether n vertices and m edges are too few or too many.
fn is_outsized(n: usize, m: usize) -> bool
    ensures { result ≡ outsized? n m }
{
    n == 0 || MOST_VERTICES < n || MOST_EDGES < m
}

// Checks 2 to 4 of n vertices and of edges of two bytes each, tail and head, and the table of the edges. Refused as `Short` (the table
// lacks room, two masks a vertex: nothing is changed), `Size` (no vertex, more than 128, or more than 4,096 edges: nothing is changed),
// `Stranger` (an end of n or more) or `Double` (an edge twice).
pub fn scanned(n: usize, ends: &[u8], edges: &mut [u64]) -> Result<(), Refusal>
    ensures { Scans n ends.now edges.old (number_in result) edges.new }
{
    if edges.len() < 2 * n.min(MOST_VERTICES) {
        return Err(Refusal::Short);
    }
    if is_outsized(n, ends.len() / 2) {
        return Err(Refusal::Size);
    }
    edges.fill(0);
    scan(ends, n, edges)
}
