// Layer 2: channels (SPECIFICATION.md, 3). A channel is a list of vertices of which each reaches the next by the reachability table.
// Channels are planned, or given by the caller and checked.
#![tactic(auto)]

ghost use Rattle.std.specs.Prelude.{◌≡◌, ◌≢◌, Bool, [], ◌+◌, ◌*◌, ◌≤◌, ◌<◌, length};
ghost use Rattle.specification.specs.Refusals.{number_in};
ghost use Rattle.specification.specs.Sets.{member?, inserted};
ghost use Rattle.reach.specs.Closure.{connection_by};
ghost use Rattle.planning.specs.Arranged.{Arranged};
ghost use Rattle.planning.specs.Promise.{channels_of};
ghost use Rattle.specification.specs.Channels.{vertices_of, unknown?};
ghost use Rattle.channels.specs.Steps.Laid.{opened_at, Lays};
ghost use Rattle.channels.specs.Steps.Walked.{may_follow, weighed, walked_of, Walks};
ghost use Rattle.channels.specs.Promise.{Plans, Gives};
ghost use Rattle.channels.specs.Steps.Sized.{Sized};

use specification::Refusal;

// The most vertices.
const MOST: usize = 128;

// ---- channels laid in the list of places: four bytes a vertex, its channel first and then its position

// Lays v at a position of the last channel, and of a new one where the position is 0, behind `laid` vertices; nothing where these are 128.
// The number of channels then.
#[tactic(auto, unfolding(crate::specs::Steps::Laid::opened_at))]
fn lay(places: &mut [u8], count: usize, laid: usize, p: usize, v: usize) -> usize
    requires { (4 * v + 4 ≤ length places.old) × (count ≤ laid) × (p ≤ laid) × (0 < laid → 0 < count) × (v < 128) }
    ensures { Lays laid p v count places.old result places.new }
{
    if 128 <= laid {
        return count;
    }
    let c = if p == 0 { count + 1 } else { count };
    places[4 * v] = (c - 1) as u8;
    places[4 * v + 1] = p as u8;
    c
}

// ---- planned channels

// Why channels of n vertices are refused by size alone, with a list of so many bytes.
fn sized(n: usize, bytes: usize) -> Result<(), Refusal>
    ensures { Sized n bytes (number_in result) }
{
    if bytes < 4 * n.min(MOST) {
        return Err(Refusal::Short);
    }
    if n == 0 || MOST < n {
        return Err(Refusal::Size);
    }
    Ok(())
}

// Plans the channels of n vertices by the table: how many. Refused with `Short` (a list without room) or `Size` (no vertex, or more than
// 128), the first that applies, and then there is none.
pub fn plan(n: usize, table: &[u64], places: &mut [u8]) -> Result<u8, Refusal>
    ensures { Plans n table.now places.old (channels_of result) places.new }
{
    sized(n, places.len())?;
    planning::chained(n, table, places)
}

// ---- given channels: a field of lines, each a byte k and then k vertices

// Whether the field names a vertex of n or more.
pub fn unknown(n: usize, field: &[u8]) -> bool
    ensures { result ≡ unknown? n (vertices_of field.now) }
{
    let mut left: u8 = 0;
    for &byte in field {
        if left == 0 {
            left = byte;
        } else if n <= byte as usize {
            return true;
        } else {
            left -= 1;
        }
    }
    false
}

// Whether v may follow `last` in a line: it is the first, or `last`, asked how it reaches v, does not answer 'not at all'.
// Two tables that travel together, here and below: `connection_by` names both.
fn follows(edges: &[u64], longer: &[u64], last: Option<u8>, v: usize) -> bool
    ensures { result ≡ may_follow (connection_by 2 edges.now longer.now) last v }
{
    match last {
        None => true,
        Some(u) => reach::is_leading(reach::between(edges, longer, 2 * u as usize, v)),
    }
}

// Puts v into the set: `Cover` where it stood there before; else `Broken` where nothing was found so far and v may not follow `last`; else
// what was found so far.
#[tactic(auto, unfolding(crate::specs::Steps::Walked::weighed))]
fn weigh(
    edges: &[u64],
    longer: &[u64],
    seen: &mut [u64],
    last: Option<u8>,
    v: usize,
    found: Result<(), Refusal>,
) -> Result<(), Refusal>
    ensures { (number_in result ≡ weighed (member? seen.old 0 v) (may_follow (connection_by 2 edges.now longer.now) last v) (number_in found)) × ((member? seen.old 0 v ≡ Bool.false → seen.new ≡ inserted seen.old 0 v)) }
{
    if masks::contains(seen, 0, v) {
        return Err(Refusal::Cover);
    }
    masks::insert(seen, 0, v);
    found?;
    if follows(edges, longer, last, v) {
        Ok(())
    } else {
        Err(Refusal::Broken)
    }
}

// How many given channels are laid, how many vertices they have, and the set of these.
#[derive(Clone, Copy)]
struct Laid {
    count: usize,
    vertices: usize,
    seen: [u64; 4],
}

// The checks of the field and the channels, laid where no vertex has one yet, in one walk over its bytes. Where it is not refused the
// channels are those of the field; else what is laid is not said, and the caller clears it.
fn walk(
    n: usize,
    edges: &[u64],
    longer: &[u64],
    field: &[u8],
    places: &mut [u8],
) -> Result<Laid, Refusal>
    requires { (n ≢ 0) × (n ≤ 128) × (4 * n ≤ length places.old) × Arranged n [] 0 places.old }
    ensures { Walks (connection_by 2 edges.now longer.now) n field.now places.old (walked_of result) places.new }
{
    let mut seen = [0u64; 4];
    let mut found = Ok(());
    let (mut count, mut vertices) = (0, 0);
    let (mut last, mut p, mut left) = (None, 0, 0);
    for &byte in field {
        if left == 0 {
            left = byte;
            last = None;
            p = 0;
        } else {
            let v = byte as usize;
            if n <= v {
                return Err(Refusal::Stranger);
            }
            found = weigh(edges, longer, &mut seen, last, v, found);
            count = lay(places, count, vertices, p, v);
            last = Some(byte);
            vertices += 1;
            p += 1;
            left -= 1;
        }
    }
    found?;
    Ok(Laid {
        count,
        vertices,
        seen,
    })
}

// The channels of the field, in its order, for n vertices, checked by the tables of edges and of longer routes, and behind them those planned
// by the table of what reaches what for the vertices that it lacks: how many. Refused with `Short` (a list without room), `Size` (no vertex,
// or more than 128), `Stranger` (a vertex of n or more), `Cover` (a vertex repeated) or `Broken` (a vertex that the one before does not
// reach), the first that applies; then there is none, and nothing that was laid stays.
pub fn given(
    n: usize,
    edges: &[u64],
    longer: &[u64],
    table: &[u64],
    field: &[u8],
    places: &mut [u8],
) -> Result<u8, Refusal>
    ensures { Gives n edges.now longer.now table.now field.now places.old (channels_of result) places.new }
{
    sized(n, places.len())?;
    planning::unplace(n, places);
    let laid = match walk(n, edges, longer, field, places) {
        Ok(laid) => laid,
        Err(refusal) => {
            planning::unplace(n, places);
            return Err(refusal);
        }
    };
    if laid.vertices == n {
        return Ok(laid.count as u8);
    }
    planning::beside(n, table, &laid.seen, laid.count, places)
}
