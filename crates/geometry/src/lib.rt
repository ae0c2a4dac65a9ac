// Whether the straight segment of an edge has a vertex strictly inside, and the course of a cross edge (an edge between channels).
#![tactic(auto)]

ghost use Rattle.std.specs.Prelude.{◌≡◌, ◌+◌, ◌*◌, ◌≤◌, ◌<◌, eqb, leb, length};
ghost use Rattle.masks.specs.Pairs.{in_pair};
ghost use Rattle.specification.specs.Geometry.{point, Hit, BlockedAmong, aligned, Decides, bend_beside, course_among};
ghost use Rattle.specification.specs.Numbers.{course_code};
ghost use Rattle.geometry.specs.Segment.{point_of, vertex_count};
ghost use Rattle.geometry.specs.Steps.{Struck};

use specification::Course;
use std::cmp::Ordering;

// Columns from a vertex to the bends beside it.
const BEND_OFFSET: u16 = 1;

// Whether (px, py) lies on the line through (ax, ay) and (bx, by), by signed products.
fn aligned(ax: u16, ay: u8, bx: u16, by: u8, px: u16, py: u8) -> bool
    ensures { result ≡ aligned ax ay bx by px py }
{
    let left = (px as i32 - ax as i32) * (by as i32 - ay as i32);
    let right = (bx as i32 - ax as i32) * (py as i32 - ay as i32);
    left == right
}

// Whether (px, py) lies strictly inside the segment that rises from (ax, ay) to (bx, by). Most points fail the cheap test of rows.
fn inside(ax: u16, ay: u8, bx: u16, by: u8, px: u16, py: u8) -> bool
    ensures { Decides result (Hit (point ax ay) (point bx by) (point px py)) }
{
    if py <= ay || by <= py {
        return false;
    }
    aligned(ax, ay, bx, by, px, py)
}

// Whether a segment rises by one row at most.
pub fn low_rise(from: u8, to: u8) -> bool
    ensures { result ≡ leb to (from + 1) }
{
    to as u16 <= from as u16 + 1
}

// Whether a vertex of a mask, of which bit 0 is vertex `base`, lies strictly inside the segment that rises from `tail` to `head`, two
// of n vertices. A bit that is none of them counts as nothing.
// A mask with the vertex of its bit 0, parameters that go together: both are in registers, and the loop takes them apart at once.
fn hit_among<'a>(
    mask: u64,
    base: usize,
    columns: &'a [u16],
    places: &'a [u8],
    n: usize,
    tail: usize,
    head: usize,
) -> bool
    requires { (base ≤ 64) × (n ≤ length columns.now) × (4 * n ≤ length places.now) × (tail < n) × (head < n) }
    ensures { Decides result (Struck mask base (point_of columns.now places.now) n tail head) }
{
    let ax = columns[tail];
    let ay = places[4 * tail + 2];
    let bx = columns[head];
    let by = places[4 * head + 2];
    let mut x = mask;
    while x != 0 {
        let w = base + u64::trailing_zeros(x) as usize;
        let rest = x & (x - 1);
        if w < n && inside(ax, ay, bx, by, columns[w], places[4 * w + 2]) {
            return true;
        }
        x = rest;
    }
    false
}

// Whether a candidate lies strictly inside the segment that rises from vertex `tail` to vertex `head`. The vertices are those that
// both lists have, the candidates those of them that are in the set of two masks; false where an end is no vertex.
// Parameters that go together, the masks of a set, and two lists: `in_pair`, `point_of` and `vertex_count` name them one by one.
fn blocked_among<'a>(
    low: u64,
    high: u64,
    columns: &'a [u16],
    places: &'a [u8],
    tail: usize,
    head: usize,
) -> bool
    ensures { Decides result (BlockedAmong (λ w. eqb (in_pair low high w) 1) (point_of columns.now places.now) (vertex_count columns.now places.now) tail head) }
{
    let n = columns.len().min(places.len() / 4);
    if n <= tail || n <= head {
        return false;
    }
    // Nothing lies strictly between rows next to each other.
    if low_rise(places[4 * tail + 2], places[4 * head + 2]) {
        return false;
    }
    hit_among(low, 0, columns, places, n, tail, head)
        || hit_among(high, 64, columns, places, n, tail, head)
}

// One bend in a row, beside column x on the side of column z; straight where the columns are equal.
fn bend_beside(x: u16, z: u16, row: u8) -> Course
    ensures { result ≡ bend_beside x z row }
{
    match x.cmp(&z) {
        Ordering::Less => Course::Bent(x + BEND_OFFSET, row),
        Ordering::Greater => Course::Bent(x - BEND_OFFSET, row),
        Ordering::Equal => Course::Straight,
    }
}

// The course of the cross edge tail -> head, where only candidates can be in its way: the vertices in the set of two masks. The vertices
// are those that both lists have; straight where an end is none of them, where the edge does not rise, and where its ends stand in one
// column.
// Parameters that go together, as in `blocked_among`.
pub fn course_among<'a>(
    low: u64,
    high: u64,
    columns: &'a [u16],
    places: &'a [u8],
    tail: usize,
    head: usize,
) -> Course
    ensures { course_code result ≡ course_code (course_among (λ w. eqb (in_pair low high w) 1) (point_of columns.now places.now) (vertex_count columns.now places.now) tail head) }
{
    if blocked_among(low, high, columns, places, tail, head) {
        return bend_beside(columns[tail], columns[head], places[4 * head + 2] - 1);
    }
    Course::Straight
}
