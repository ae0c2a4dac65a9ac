// Layer 1: rows by floors (SPECIFICATION.md, 4). The crate `descent` finds the levels, which go by the edges alone. Where there are floors
// each vertex begins at its own, and level by level each lifts its successors above itself; the sets of vertices by row are made anew.
#![tactic(auto)]

ghost use Rattle.std.specs.Prelude.{◌≡◌, true, false, ◌||◌, ℕ, ◌+◌, ◌*◌, ◌≤◌, ◌<◌, eqb, length, get_or, Ok};
ghost use Rattle.specification.specs.Count.{above};
ghost use Rattle.specification.specs.Checks.{unfloored?};
ghost use Rattle.specification.specs.Parts.{present?, bytes_of};
ghost use Rattle.counting.specs.Quads.{quad};
ghost use Rattle.descent.specs.Promise.{descent_of};
ghost use Rattle.descent.specs.Steps.Members.{Long};
ghost use Rattle.floors.specs.Steps.{too_high?, Set, Lifted, Ample, Pushed, Carried, Lifts, Liftable, Settled};
ghost use Rattle.floors.specs.Promise.{Raises};

use specification::{Graph, Refusal};

// The highest floor, and the most vertices.
const MOST_FLOOR: u8 = 127;

const MOST_VERTICES: usize = 128;

// ---- the floors

// Whether one of the floors is over the highest.
fn is_too_high(floors: &[u8]) -> bool
    ensures { result ≡ too_high? floors.now }
{
    floors.iter().any(|floor| MOST_FLOOR < *floor)
}

// Whether the floors of n vertices are not one a vertex, or one of them is over the highest.
fn is_unfloored(n: usize, floors: &[u8]) -> bool
    ensures { result ≡ unfloored? n true floors.now }
{
    floors.len() != n || is_too_high(floors)
}

// Each vertex begins at its floor.
fn set_floors(floors: &[u8], places: &mut [u8])
    requires { (length floors.now ≤ 128) × (4 * length floors.now ≤ length places.old) }
    ensures { Set (length floors.now) floors.now places.old places.new }
{
    for (v, floor) in floors.iter().enumerate() {
        places[4 * v + 2] = *floor;
    }
}

// ---- lifting

// Lifts each member of a mask that begins at vertex `base` to row r, unless it is higher.
// A mask with the vertex of its bit 0, parameters that go together: both are in registers, and the loop takes them apart at once.
fn lift_members(mask: u64, base: usize, r: u8, places: &mut [u8])
    requires { (base ≤ 64) × Long 4 places.old mask base }
    ensures { Lifted mask base r places.old places.new }
{
    let mut x = mask;
    while x != 0 {
        let i = 4 * (base + u64::trailing_zeros(x) as usize) + 2;
        x = x & (x - 1);
        places[i] = places[i].max(r);
    }
}

// Lifts the successors of u above it. Above the last row there is none, and no graph without cycles comes to it.
fn push(u: usize, edges: &[u64], places: &mut [u8])
    requires { (u < 128) × (2 * u + 2 ≤ length edges.now) × (4 * u + 4 ≤ length places.old) × Ample edges.now places.old }
    ensures { Pushed edges.now u places.old places.new }
{
    let r = places[4 * u + 2].saturating_add(1);
    lift_members(edges[2 * u], 0, r, places);
    lift_members(edges[2 * u + 1], 64, r, places);
}

// Lifts the successors of each member of a mask that begins at vertex `base` above it, where each stands in its row already.
fn push_members(mask: u64, base: usize, edges: &[u64], places: &mut [u8])
    requires { (base ≤ 64) × Long 2 edges.now mask base × Long 4 places.old mask base × Ample edges.now places.old }
    ensures { (n : ℕ) (floor : ℕ → ℕ) → Carried edges.now n floor mask base places.old places.new }
{
    let mut x = mask;
    while x != 0 {
        let u = base + u64::trailing_zeros(x) as usize;
        x = x & (x - 1);
        push(u, edges, places);
    }
}

// Level by level, from the lowest of `top`, by the sets of the vertices below each: from its floor each of n vertices comes to its row.
fn lift(edges: &[u64], below: &[u64], n: usize, top: usize, places: &mut [u8])
    requires { Liftable edges.now below.now n top (length places.old) }
    ensures { (floor : ℕ → ℕ) → Lifts edges.now n floor places.old places.new }
{
    for r in 0..top {
        let a = below[2 * r + 2] & !below[2 * r];
        let b = below[2 * r + 3] & !below[2 * r + 1];
        push_members(a, 0, edges, places);
        push_members(b, 64, edges, places);
    }
}

// One more than the highest row of n vertices.
fn rows_used(n: usize, places: &[u8]) -> usize
    requires { (n ≤ 128) × (4 * n ≤ length places.now) }
    ensures { result ≡ above n (λ v. true) (quad 2 places.now) }
{
    let mut used: usize = 0;
    for v in 0..n {
        used = used.max(places[4 * v + 2] as usize + 1);
    }
    used
}

// ---- the whole

// The rows of n vertices by their floors, from the tables of a graph that `descent::descend` accepts, and the sets by row; how many rows
// are used.
fn settled(
    n: usize,
    floors: &[u8],
    levels: usize,
    edges: &[u64],
    below: &mut [u64],
    places: &mut [u8],
) -> u8
    requires { Liftable edges.now below.old n levels (length places.old) × (unfloored? n true floors.now ≡ false) × (2 * (n + 127) + 2 ≤ length below.old) }
    ensures { Settled n floors.now edges.now below.old places.old (descent_of (Ok result)) below.new places.new }
{
    set_floors(floors, places);
    lift(edges, below, n, levels, places);
    let used = rows_used(n, places);
    prefixes::by_row(places, n, used, below);
    used as u8
}

// Whether the edges are refused before the floors are looked at.
fn is_first(descended: Result<u8, Refusal>) -> bool
    ensures { result ≡ (eqb (descent_of descended).refusal 8 || eqb (descent_of descended).refusal 2) }
{
    matches!(descended, Err(Refusal::Short | Refusal::Size))
}

// The tables of a graph, with rows and counts in `places`; how many rows are used. Refused as `Short` (a work list lacks room: nothing is
// changed), as `Size`, as `Floor` (the floors are not one a vertex, or one is over 127), or as `Stranger`, `Double` or `Ring`. After a
// refusal the lists have what `descent::descend` leaves of the edges alone.
// Parameters that travel together: no struct of the lists, as in chart_plan::planned.
pub fn raised(
    g: &Graph,
    edges: &mut [u64],
    below: &mut [u64],
    table: &mut [u64],
    longer: &mut [u64],
    places: &mut [u8],
) -> Result<u8, Refusal>
    ensures { Raises g.now.vertices g.now.ends.now (present? g.now.floors) (bytes_of g.now.floors) edges.old below.old table.old longer.old places.old (descent_of result) edges.new below.new table.new longer.new places.new }
{
    let n = g.vertices;
    let spread = 2 * (n.min(MOST_VERTICES) + MOST_FLOOR as usize) + 2;
    if g.floors.is_some() && below.len() < spread {
        return Err(Refusal::Short);
    }
    // called in one place, so that the compiler puts it here
    let descended = descent::descend(n, g.ends, edges, below, table, longer, places);
    let Some(floors) = g.floors else {
        return descended;
    };
    if is_first(descended) {
        return descended;
    }
    if is_unfloored(n, floors) {
        return Err(Refusal::Floor);
    }
    let levels = descended? as usize;
    Ok(settled(n, floors, levels, edges, below, places))
}
