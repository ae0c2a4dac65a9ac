// Transitive and reduced edges (SPECIFICATION.md, 5.1): the one place that says which edge is transitive, from the answer of its ends (2.4),
// and the laws: reduced edges have the graph's reachability, and no links that have it are fewer.
#![tactic(auto)]

ghost use Rattle.std.specs.Prelude.{◌≡◌};
ghost use Rattle.specification.specs.Count.{indicator};
ghost use Rattle.reduction.specs.Reduction.{marked?};

// 1 where an edge to v is transitive, else 0: where its ends answer 'both'. The edge is there; of longer routes the mask tells, the one that
// holds v of the tail's two masks in their table.
// a flag as a number: so an arrow's entry says it (SPECIFICATION.md, 9.4), and the promise of `mark_in`.
pub fn mark_in(mask: u64, v: u8) -> u16
    ensures { result ≡ indicator (marked? mask v) }
{
    let longer = (mask >> (v % 64)) & 1 == 1;
    u16::from(reach::is_both(reach::connected(true, longer)))
}
