// Layer 1: from the bytes of a graph's edges to its tables (SPECIFICATION.md, 2 and 4). The crate `scanning` checks the edges and makes
// their table. Rows are found by rounds; then, from the highest row down, each vertex gets the union of its successors' sets. Rows are levels
// here, which go by the edges alone: the crate `floors` lifts them. A table has two masks of 64 bits a vertex: bit v mod 64 of mask
// 2 u + v / 64 says that v is in the set of u. The places have four bytes a vertex: the row of v at 4 v + 2, and at 4 v + 3 how many vertices
// it reaches; the first two are others'.
#![tactic(auto)]

ghost use Rattle.std.specs.Prelude.{◌≡◌, ℕ, ◌+◌, ◌*◌, ◌≤◌, ◌<◌, length, MatchOption};
ghost use Rattle.std.specs.Int.Count.{ones};
ghost use Rattle.specification.specs.Sets.{bit};
ghost use Rattle.masks.specs.Pairs.{in_pair};
ghost use Rattle.descent.specs.Steps.Members.{Below, Long, Gathered, FirstGathered, Pictured, Nested, Covered, Written};
ghost use Rattle.descent.specs.Steps.Closed.{Arc, Ample, Reached, Finished, Vertex, Row, Inside, Prefixes, Laid, Closed, Ranked};
ghost use Rattle.descent.specs.Promise.{descent_of, Descends};
ghost use Rattle.descent.specs.Steps.Closed.{fits?, levels_in};

use specification::Refusal;

// The most vertices of a graph.
const MOST_VERTICES: usize = 128;

// The two masks of a set.
#[derive(Clone, Copy)]
struct Pair {
    low: u64,
    high: u64,
}

// ---- unions

// The set of the vertices below n.
fn below_n(n: usize) -> Pair
    requires { n ≤ 128 }
    ensures { Below n result.low result.high }
{
    if n < 64 {
        return Pair {
            low: (1u64 << n) - 1,
            high: 0,
        };
    }
    if n < 128 {
        return Pair {
            low: !0,
            high: (1u64 << (n - 64)) - 1,
        };
    }
    Pair { low: !0, high: !0 }
}

// A set with the sets of the members of a mask, which begins at vertex `base`, put in.
// A mask with the vertex of its bit 0, parameters that go together: both are in registers, and the loop takes them apart at once.
fn gather(table: &[u64], mask: u64, base: usize, set: Pair) -> Pair
    requires { (base ≤ 64) × Long 2 table.now mask base }
    ensures { Gathered table.now mask base set.low set.high result.low result.high }
{
    let Pair { mut low, mut high } = set;
    let mut x = mask;
    while x != 0 {
        let w = base + x.trailing_zeros() as usize;
        low |= table[2 * w];
        high |= table[2 * w + 1];
        x &= x - 1;
    }
    Pair { low, high }
}

// The first masks of the sets of a mask's members, put together.
// A twin of `gather` for at most 64 vertices: the second masks, which are empty, are not read.
fn gather_first(table: &[u64], mask: u64) -> u64
    requires { Long 2 table.now mask 0 }
    ensures { FirstGathered table.now mask result }
{
    let mut low = 0;
    let mut x = mask;
    while x != 0 {
        let w = x.trailing_zeros() as usize;
        low |= table[2 * w];
        x &= x - 1;
    }
    low
}

// The union of the sets of the members of a set, all of them among n vertices. Of at most 64 the second masks are empty, and are not read.
fn image(table: &[u64], n: usize, set: Pair) -> Pair
    requires { Long 2 table.now set.low 0 × Long 2 table.now set.high 64 × Inside table.now n × ((v : ℕ) → v < 128 → in_pair set.low set.high v ≡ 1 → v < n) }
    ensures { Pictured table.now set.low set.high result.low result.high }
{
    if n <= 64 {
        return Pair {
            low: gather_first(table, set.low),
            high: 0,
        };
    }
    let union = gather(table, set.low, 0, Pair { low: 0, high: 0 });
    gather(table, set.high, 64, union)
}

// A set with the sets of the members of its second mask put in, where it holds the sets of those that it has: they are left out. Alike the
// loop of `reached` and no twin: what that leaves out are those that the first mask has.
fn with_second(table: &[u64], mask: u64, set: Pair) -> Pair
    requires { Long 2 table.now mask 64 × Nested table.now 0 mask × Covered table.now 0 mask set.low set.high }
    ensures { Gathered table.now mask 64 set.low set.high result.low result.high }
{
    let Pair { mut low, mut high } = set;
    let mut x = mask & !high;
    while x != 0 {
        let w = 64 + x.trailing_zeros() as usize;
        low |= table[2 * w];
        high |= table[2 * w + 1];
        x = x & (x - 1) & !high;
    }
    Pair { low, high }
}

// The union of sets that hold the sets of their own members in `set`: those that are in the union already are left out.
fn reached(table: &[u64], set: Pair) -> Pair
    requires { Long 2 table.now set.low 0 × Long 2 table.now set.high 64 × Nested table.now set.low set.high }
    ensures { Pictured table.now set.low set.high result.low result.high }
{
    let mut low = 0;
    let mut high = 0;
    let mut x = set.low;
    while x != 0 {
        let w = x.trailing_zeros() as usize;
        low |= table[2 * w];
        high |= table[2 * w + 1];
        x = x & (x - 1) & !low;
    }
    with_second(table, set.high, Pair { low, high })
}

// ---- the rows

// Row r for each member of a mask that begins at vertex `base`.
fn set_rows(mask: u64, base: usize, r: u8, places: &mut [u8])
    requires { (base ≤ 64) × Long 4 places.old mask base }
    ensures { Written mask base r places.old places.new }
{
    let mut x = mask;
    while x != 0 {
        let v = base + x.trailing_zeros() as usize;
        x &= x - 1;
        places[4 * v + 2] = r;
    }
}

// The row of each of n vertices, and for each number up to that of the rows used the set of the vertices of lower rows. The number of rows
// used, if no vertex reaches itself.
fn grown(edges: &[u64], n: usize, places: &mut [u8], below: &mut [u64]) -> Option<usize>
    requires { (0 < n) × (2 * n ≤ length edges.now) × (4 * n ≤ length places.old) × (2 * n + 2 ≤ length below.old) × Inside edges.now n }
    ensures laid { Laid edges.now n (levels_in result) places.old places.new below.old below.new }
    ensures some { MatchOption result (Unit {0}) (λ used. 0 < used) }
{
    let all = below_n(n);
    below[0] = 0;
    below[1] = 0;
    let mut left = all;
    for r in 0..n {
        let entered = image(edges, n, left);
        let low = left.low & entered.low;
        let high = left.high & entered.high;
        set_rows(left.low & !low, 0, r as u8, places);
        set_rows(left.high & !high, 64, r as u8, places);
        let next = r + 1;
        below[2 * next] = all.low & !low;
        below[2 * next + 1] = all.high & !high;
        if low | high == 0 {
            return Some(next);
        }
        left = Pair { low, high };
    }
    None
}

// ---- the closure

// How many members a set has. The second mask is empty where no vertex is above 63, which is most charts: its ones are not counted then.
fn members(set: Pair) -> u8
    ensures { result ≡ ones set.low + ones set.high }
{
    if set.high == 0 {
        return set.low.count_ones() as u8;
    }
    (set.low.count_ones() + set.high.count_ones()) as u8
}

// The sets of u from those of its successors.
fn close_vertex(u: usize, edges: &[u64], table: &mut [u64], longer: &mut [u64], places: &mut [u8])
    requires { (u < 128) × (2 * u + 2 ≤ length edges.now) × (2 * u + 2 ≤ length table.old) × (2 * u + 2 ≤ length longer.old) × (4 * u + 4 ≤ length places.old) × Ample edges.now table.old × ((w : ℕ) → Arc edges.now u w → Reached edges.now table.old w) }
    ensures { Vertex edges.now u table.old longer.old places.old table.new longer.new places.new }
{
    let near = Pair {
        low: edges[2 * u],
        high: edges[2 * u + 1],
    };
    let far = reached(table, near);
    longer[2 * u] = far.low;
    longer[2 * u + 1] = far.high;
    let all = Pair {
        low: near.low | far.low,
        high: near.high | far.high,
    };
    table[2 * u] = all.low;
    table[2 * u + 1] = all.high;
    places[4 * u + 3] = members(all);
}

// The sets of the members of a mask that begins at vertex `base`, where those of all their successors stand.
fn close_row(
    mask: u64,
    base: usize,
    edges: &[u64],
    table: &mut [u64],
    longer: &mut [u64],
    places: &mut [u8],
)
    requires { (base ≤ 64) × Long 2 edges.now mask base × Long 2 table.old mask base × Long 2 longer.old mask base × Long 4 places.old mask base × Ample edges.now table.old × ((j : ℕ) → j < 64 → bit mask j ≡ 1 → (w : ℕ) → Arc edges.now (base + j) w → Finished edges.now table.old longer.old places.old w) }
    ensures { Row edges.now mask base table.old longer.old places.old table.new longer.new places.new }
{
    let mut x = mask;
    while x != 0 {
        let u = base + x.trailing_zeros() as usize;
        x &= x - 1;
        close_vertex(u, edges, table, longer, places);
    }
}

// What each of n vertices reaches, what it reaches by two edges or more, and how many it reaches, from the highest row down.
fn close(
    edges: &[u64],
    below: &[u64],
    n: usize,
    top: usize,
    table: &mut [u64],
    longer: &mut [u64],
    places: &mut [u8],
)
    requires { (2 * n ≤ length edges.now) × (2 * n + 2 ≤ length below.now) × (2 * n ≤ length table.old) × (2 * n ≤ length longer.old) × (4 * n ≤ length places.old) × Inside edges.now n × Prefixes edges.now n top below.now }
    ensures { Closed edges.now n table.old longer.old places.old table.new longer.new places.new }
{
    for r in (0..top).rev() {
        let a = below[2 * r + 2] & !below[2 * r];
        let b = below[2 * r + 3] & !below[2 * r + 1];
        close_row(a, 0, edges, table, longer, places);
        close_row(b, 64, edges, table, longer, places);
    }
}

// ---- the whole

// The rows of n vertices and what each reaches, by the table of their edges. Refused as `Ring` where a vertex reaches itself.
// rooms of lists that stand in three contracts: the lists stay parameters, as in chart_plan::planned
fn ranked(
    n: usize,
    edges: &[u64],
    below: &mut [u64],
    table: &mut [u64],
    longer: &mut [u64],
    places: &mut [u8],
) -> Result<u8, Refusal>
    requires { (0 < n) × (2 * n ≤ length edges.now) × (2 * n + 2 ≤ length below.old) × (2 * n ≤ length table.old) × (2 * n ≤ length longer.old) × (4 * n ≤ length places.old) × Inside edges.now n }
    ensures { Ranked edges.now n below.old places.old (descent_of result) below.new table.new longer.new places.new }
{
    table.fill(0);
    longer.fill(0);
    let Some(used) = grown(edges, n, places, below) else {
        return Err(Refusal::Ring);
    };
    close(edges, below, n, used, table, longer, places);
    Ok(used as u8)
}

// Whether work lists of these lengths have room for the sets and the places of n vertices.
// Lengths alone, beside no list: they are compared.
fn is_fit(n: usize, edges: usize, below: usize, table: usize, longer: usize, places: usize) -> bool
    ensures { result ≡ fits? n edges below table longer places }
{
    let room = 2 * n.min(MOST_VERTICES);
    room <= edges && room + 2 <= below && room <= table && room <= longer && 2 * room <= places
}

// The tables of n vertices and of edges of two bytes each, tail and head, with rows and counts in `places`; how many rows are used.
// Refused as `Short` (a work list lacks room) or `Size` (no vertex, more than 128, or more than 4,096 edges), and nothing is changed; as
// `Stranger` (an end of n or more) or `Double` (an edge twice), and only the table of edges is; or as `Ring` (a cycle).
// Parameters that travel together: no struct of the lists, as in chart_plan::planned.
pub fn descend(
    n: usize,
    ends: &[u8],
    edges: &mut [u64],
    below: &mut [u64],
    table: &mut [u64],
    longer: &mut [u64],
    places: &mut [u8],
) -> Result<u8, Refusal>
    ensures { Descends n ends.now edges.old below.old table.old longer.old places.old (descent_of result) edges.new below.new table.new longer.new places.new }
{
    if !is_fit(
        n,
        edges.len(),
        below.len(),
        table.len(),
        longer.len(),
        places.len(),
    ) {
        return Err(Refusal::Short);
    }
    scanning::scanned(n, ends, edges)?;
    ranked(n, edges, below, table, longer, places)
}
