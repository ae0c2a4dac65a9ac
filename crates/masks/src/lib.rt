// Sets of vertices as masks of 64 bits, in a list that may hold many sets. A set is known by the number of its first mask:
// vertex v is in it where bit v mod 64 of mask first + v / 64 is set, the lowest bit being 0. A mask that the list lacks counts as 0.
#![tactic(auto)]

ghost use Rattle.std.specs.Prelude.{◌≡◌, true, false, ◌+◌, ◌/◌, ◌<◌, leb, ltb, length, get_or};
ghost use Rattle.specification.specs.Sets.{member?, inserted, United};
ghost use Rattle.specification.specs.Lent.{Untouched};

// Mask i of the set.
pub fn mask_at(masks: &[u64], first: usize, i: usize) -> u64
    ensures { result ≡ get_or masks.now (first + i) 0 }
{
    // two tests by hand: `get` at a sum that stops at the highest number was tried, and loops over masks are slower by a third
    if masks.len() <= first || masks.len() - first <= i {
        return 0;
    }
    masks[first + i]
}

// Whether v is in the set.
pub fn contains(masks: &[u64], first: usize, v: usize) -> bool
    ensures { result ≡ member? masks.now first v }
{
    (mask_at(masks, first, v / 64) >> (v % 64)) & 1 == 1
}

// Puts v into the set; false where no mask holds v, and then nothing changes.
pub fn insert(masks: &mut [u64], first: usize, v: usize) -> bool
    ensures { (result ≡ ltb (first + v / 64) (length masks.old)) × (masks.new ≡ inserted masks.old first v) }
{
    let i = first.saturating_add(v / 64);
    if masks.len() <= i {
        return false;
    }
    masks[i] |= 1u64 << (v % 64);
    true
}

// Puts a set of as many masks as `other` has into the set; false where the list ends before, and then nothing changes.
pub fn unite(masks: &mut [u64], first: usize, other: &[u64]) -> bool
    ensures answer { result ≡ leb (first + length other.now) (length masks.old) }
    ensures made { result ≡ true → United masks.old first other.now (length other.now) masks.new }
    ensures kept { result ≡ false → Untouched masks.old masks.new }
{
    if masks.len() < first.saturating_add(other.len()) {
        return false;
    }
    for (i, mask) in other.iter().enumerate() {
        masks[first + i] |= *mask;
    }
    true
}
