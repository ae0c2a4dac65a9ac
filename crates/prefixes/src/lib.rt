// Sets of vertices by a key, each holding those of all lower keys, so that what lies between two keys is a difference of two sets.
#![tactic(auto)]

ghost use Rattle.std.specs.Prelude.{◌≡◌, ℕ, ◌+◌, ◌*◌, ◌/◌, ◌≤◌, ◌<◌, min, length};
ghost use Rattle.specification.specs.Lent.{KeptFrom};
ghost use Rattle.counting.specs.Quads.{quad};
ghost use Rattle.prefixes.specs.Prefixes.{last_set, Prefixes};
ghost use Rattle.prefixes.specs.Steps.{Stage};

// The most vertices.
const MOST_VERTICES: usize = 128;

// The highest number of a set: one more than the highest key, a byte.
const MOST_SETS: usize = 256;

// Puts each set of two masks into the next, from set 0 to set `top`.
fn join(sets: &mut [u64], top: usize)
    requires { top ≤ last_set 256 (length sets.old) }
    ensures { ((n : ℕ) (key : ℕ → ℕ) → Stage 2 n key top 0 sets.old → Prefixes 2 n key top sets.new) × KeptFrom (2 * top + 2) sets.old sets.new }
{
    for k in 0..top {
        let i = 2 * k;
        let a = sets[i];
        let b = sets[i + 1];
        sets[i + 2] |= a;
        sets[i + 3] |= b;
    }
}

// Fills a list with sets of vertices by their keys, number `key` of an entry of four, as said below.
fn sets_by(places: &[u8], key: usize, n: usize, top: usize, sets: &mut [u64]) -> usize
    requires { key < 4 }
    ensures { (result ≡ last_set top (length sets.old)) × Prefixes 2 (min (min n 128) (length places.now / 4)) (quad key places.now) result sets.new × (length sets.new ≡ length sets.old) × KeptFrom (2 * result + 2) sets.old sets.new }
{
    let last = top.min(MOST_SETS).min((sets.len() / 2).saturating_sub(1));
    let end = (2 * last + 2).min(sets.len());
    sets[..end].fill(0);
    for v in 0..n.min(MOST_VERTICES).min(places.len() / 4) {
        let k = places[4 * v + key] as usize;
        if k < last {
            masks::insert(sets, 2 * (k + 1), v);
        }
    }
    join(sets, last);
    last
}

// Fills a list with sets of vertices by their keys, two masks a set: set k has the vertices whose key is below k, for k up to `top`, at
// most 256 and no more than the list has room for; gives the last. What stands past it stays. The keys are the channels, the first numbers
// of entries of four; the vertices are the first n entries, and at most 128.
pub fn by_channel(places: &[u8], n: usize, top: usize, sets: &mut [u64]) -> usize
    ensures { (result ≡ last_set top (length sets.old)) × Prefixes 2 (min (min n 128) (length places.now / 4)) (quad 0 places.now) result sets.new × (length sets.new ≡ length sets.old) × KeptFrom (2 * result + 2) sets.old sets.new }
{
    sets_by(places, 0, n, top, sets)
}

// The same by the rows, the third numbers.
// Two names for one body: the key is a number of an entry, and each promise names its own (`quad 0`, `quad 2`).
pub fn by_row(places: &[u8], n: usize, top: usize, sets: &mut [u64]) -> usize
    ensures { (result ≡ last_set top (length sets.old)) × Prefixes 2 (min (min n 128) (length places.now / 4)) (quad 2 places.now) result sets.new × (length sets.new ≡ length sets.old) × KeptFrom (2 * result + 2) sets.old sets.new }
{
    sets_by(places, 2, n, top, sets)
}
