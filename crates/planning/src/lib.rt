// Layer 2: channels as data, and planned channels (SPECIFICATION.md, 3.3 and 3.4), laid by the predecessors that the search finds.
#![tactic(auto)]

ghost use Rattle.std.specs.Prelude.{◌≡◌, [], ◌∷◌, suc, ◌+◌, ◌*◌, ◌≤◌, ◌<◌, min, ◌/◌, length, replicate};
ghost use Rattle.specification.specs.Sets.{member?, has?};
ghost use Rattle.planning.specs.Arranged.{Arranged, Kept, Added};
ghost use Rattle.planning.specs.Steps.{free_in, Successors, followed, Ready, Apart, Cleared};
ghost use Rattle.planning.specs.Promise.{channels_of, Besides, Chained};

use search::NOBODY;
use specification::Refusal;

// The most vertices.
const MOST: usize = 128;

// Each vertex's channel and position stand in a list of places, four bytes a vertex: the channel first, then the position.

// Sets channel and position of the first n vertices to 0, or of as many as the list has room for: gives how many.
pub fn unplace(n: usize, places: &mut [u8]) -> usize
    ensures { (result ≡ min n (length places.old / 4)) × Arranged result [] 0 places.new × Kept result places.old places.new }
{
    let count = n.min(places.len() / 4);
    for v in 0..count {
        places[4 * v] = 0;
        places[4 * v + 1] = 0;
    }
    count
}

// Each vertex's successor: the first vertex whose predecessor it is, or NOBODY. The later ones are stored first.
// A bound that stands in four contracts, of n alone: no value that goes along has it.
fn successors(predecessor: &[u8; 128], n: usize) -> [u8; 128]
    requires { n ≤ 128 }
    ensures { Successors n predecessor.now result }
{
    let mut successor = [NOBODY; 128];
    for v in (0..n).rev() {
        let p = predecessor[v] as usize;
        if p < MOST {
            successor[p] = v as u8;
        }
    }
    successor
}

// Lays the channel that begins with v and goes on by the vertices' successors, while these are below n, as channel c.
fn with_chain(places: &mut [u8], successor: &[u8; 128], n: usize, c: usize, v: usize)
    requires { (n ≤ 128) × (v < n) × Ready n (followed n successor.now (suc n) v) c places.old }
    ensures { Added c (followed n successor.now (suc n) v ∷ []) places.old places.new }
{
    let mut p: usize = 0;
    let mut w = v;
    // no index is counted: each vertex names the next
    while w < n {
        places[4 * w] = c as u8;
        places[4 * w + 1] = p as u8;
        p += 1;
        w = successor[w] as usize;
    }
}

// The channels that the predecessors make, by first vertex, ascending, but for the held vertices. They are numbered from `first` on; gives
// how many there are with those before.
fn chains(predecessor: &[u8; 128], held: &[u64], n: usize, first: usize, places: &mut [u8]) -> u8
    requires { (n ≤ 128) × (first < 128) × (4 * n ≤ length places.old) × Apart (member? held.now 0) n predecessor.now }
    ensures { (result ≡ first + length (free_in (member? held.now 0) n predecessor.now)) × Added first (free_in (member? held.now 0) n predecessor.now) places.old places.new }
{
    let successor = successors(predecessor, n);
    let mut count = first;
    for v in 0..n {
        if predecessor[v] == NOBODY && !masks::contains(held, 0, v) {
            with_chain(places, &successor, n, count, v);
            count += 1;
        }
    }
    count as u8
}

// The table of the first n vertices, without the rows and the columns of held ones, into one that is empty.
fn without(table: &[u64], held: &[u64], n: usize, left: &mut [u64])
    requires { (n ≤ 128) × (left.old ≡ replicate 256 0) }
    ensures { Cleared (member? held.now 0) n table.now left.new }
{
    let low = masks::mask_at(held, 0, 0);
    let high = masks::mask_at(held, 0, 1);
    for u in 0..n {
        if !masks::contains(held, 0, u) {
            left[2 * u] = masks::mask_at(table, 2 * u, 0) & !low;
            left[2 * u + 1] = masks::mask_at(table, 2 * u, 1) & !high;
        }
    }
}

// Lays the channels of those of n vertices that are not held, by the table, or of 128 where n is over: numbered from `first` on, behind
// those that stand in the list; gives how many there are then. Refused with `Short` where the list has no room for n vertices, and with
// `Size` where `first` is 128 or more.
pub fn beside(
    n: usize,
    table: &[u64],
    held: &[u64],
    first: usize,
    places: &mut [u8],
) -> Result<u8, Refusal>
    ensures { Besides n table.now held.now first places.old (channels_of result) places.new }
{
    let most = n.min(MOST);
    if places.len() < 4 * most {
        return Err(Refusal::Short);
    }
    if MOST <= first {
        return Err(Refusal::Size);
    }
    let mut left = [0u64; 256];
    without(table, held, most, &mut left);
    let predecessor = search::matched(&left, n);
    Ok(chains(&predecessor, held, most, first, places))
}

// The channels of n vertices by the table, or of 128 where n is over: how many. Refused with `Short` where the list has no room for them.
// A twin of `beside` with nothing held, but that copies the table.
pub fn chained(n: usize, table: &[u64], places: &mut [u8]) -> Result<u8, Refusal>
    ensures { Chained n table.now places.old (channels_of result) places.new }
{
    let most = n.min(MOST);
    if places.len() < 4 * most {
        return Err(Refusal::Short);
    }
    unplace(most, places);
    let predecessor = search::matched(table, n);
    Ok(chains(&predecessor, &[0; 2], most, 0, places))
}
