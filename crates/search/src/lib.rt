// Layer 2: the search for predecessors (SPECIFICATION.md, 3.3). Each vertex asks once for a successor among those that it leads to by the
// reachability table; a predecessor that stands in the way is moved.
#![tactic(auto)]

ghost use Rattle.std.specs.Prelude.{◌≡◌, Bool, [], ◌∷◌, ◌≤◌, ◌<◌, min, length};
ghost use Rattle.specification.specs.Sets.{inserted, has?};
ghost use Rattle.specification.specs.Planning.{matching};
ghost use Rattle.search.specs.Tabled.{Tabled};
ghost use Rattle.search.specs.Steps.Search.{state, Opens, Augments, Asks};

// The most vertices.
const MOST: usize = 128;

// What stands for no vertex.
// A number for none: a byte a vertex, where an option takes two (fixed memory).
pub const NOBODY: u8 = 255;

// Puts v into the set of the visited vertices.
// A twin of masks::insert: by that the worst case takes a tenth longer, since the first mask leaves its register.
fn visit(visited: &mut [u64; 2], v: usize)
    requires { v < 128 }
    ensures { visited.new ≡ inserted visited.old 0 v }
{
    if v < 64 {
        visited[0] |= 1u64 << v;
    } else {
        visited[1] |= 1u64 << (v - 64);
    }
}

// The first vertex below n, of 128 at most, of a set of two masks that is not visited.
// a length in the contract: of a borrowed array of words no fact says that each fits, and by value the second mask is read in vain
fn first_open(low: u64, high: u64, visited: &[u64], n: usize) -> Option<usize>
    requires { length visited.now ≡ 2 }
    ensures { Opens (low ∷ high ∷ []) 0 visited.now n result }
{
    let x = low & !visited[0];
    let v = if x != 0 {
        u64::trailing_zeros(x)
    } else {
        64 + u64::trailing_zeros(high & !visited[1])
    } as usize;
    if v < n { Some(v) } else { None }
}

// The first vertex below n, of 128 at most, that h leads to and that is not visited.
fn next_open(table: &[u64], h: u8, visited: &[u64; 2], n: usize) -> Option<usize>
    ensures { Opens table.now h visited.now n result }
{
    let row = 2 * h as usize;
    first_open(
        masks::mask_at(table, row, 0),
        masks::mask_at(table, row, 1),
        visited,
        n,
    )
}

// Searches a successor for h: the first vertex that h leads to, not visited yet, that has no predecessor or whose predecessor can be
// given another successor in the same way. A predecessor that leads to no vertex below n that is not visited is not asked: it has no
// other successor. At each call fewer vertices are unvisited.
fn augment(
    table: &[u64],
    n: usize,
    h: u8,
    predecessor: &mut [u8; 128],
    visited: &mut [u64; 2],
) -> bool
    requires { n ≤ 128 }
    ensures { Augments (has? 2 table.now) n h (state predecessor.old visited.old Bool.false) (state predecessor.new visited.new result) }
{
    let row = 2 * h as usize;
    let low = masks::mask_at(table, row, 0);
    let high = masks::mask_at(table, row, 1);
    while let Some(v) = first_open(low, high, visited, n) {
        visit(visited, v);
        let k = predecessor[v];
        if k == NOBODY
            || next_open(table, k, visited, n).is_some()
                && augment(table, n, k, predecessor, visited)
        {
            predecessor[v] = h;
            return true;
        }
    }
    false
}

// Has h ask for a successor. Mostly the first vertex that it leads to has no predecessor, or one whose next vertex has none, and there is
// nothing to search.
fn ask(table: &[u64], n: usize, h: u8, predecessor: &mut [u8; 128])
    requires { n ≤ 128 }
    ensures { Asks (has? 2 table.now) n h predecessor.old predecessor.new }
{
    let mut visited = [0; 2];
    let Some(v) = next_open(table, h, &visited, n) else {
        return;
    };
    let k = predecessor[v];
    if k == NOBODY {
        predecessor[v] = h;
        return;
    }
    visit(&mut visited, v);
    if let Some(w) = next_open(table, k, &visited, n) {
        if predecessor[w] == NOBODY {
            predecessor[w] = k;
            predecessor[v] = h;
            return;
        }
    }
    augment(table, n, h, predecessor, &mut [0; 2]);
}

// Each vertex's predecessor, or NOBODY, after every vertex, from 0 up, has asked for a successor; of more than 128 the first 128.
pub fn matched(table: &[u64], n: usize) -> [u8; 128]
    ensures { Tabled (matching (has? 2 table.now) (min n 128)) result }
{
    let most = n.min(MOST);
    let mut predecessor = [NOBODY; 128];
    for h in 0..most {
        ask(table, most, h as u8, &mut predecessor);
    }
    predecessor
}
