// The kind of an edge from tables of its ends' places and bundles. What can be in the way of a cross edge is looked for among the
// few vertices whose row and channel are strictly between those of its ends. An entry that a list lacks counts as 0.
#![tactic(auto)]

ghost use Rattle.std.specs.Prelude.{◌≡◌, get_or};
ghost use Rattle.counting.specs.Quads.{quad};
ghost use Rattle.geometry.specs.Segment.{point_of, vertex_count};
ghost use Rattle.specification.specs.Geometry.{course_among};
ghost use Rattle.kinds.specs.Kinds.{candidate?, kind_among};
ghost use Rattle.kinds.specs.Steps.{less};

use specification::{Bend, Course, Kind};

// The row of v, the third of its four bytes; 0 past the list's end.
fn row_at(places: &[u8], v: u8) -> u8
    ensures { result ≡ quad 2 places.now v }
{
    places.get(4 * v as usize + 2).copied().unwrap_or(0)
}

// One mask of the vertices that a set of a table has and another of it lacks, by the numbers of the sets' masks.
fn less(sets: &[u64], more: usize, fewer: usize) -> u64
    ensures { result ≡ less (get_or sets.now more 0) (get_or sets.now fewer 0) }
{
    sets.get(more).copied().unwrap_or(0) & !sets.get(fewer).copied().unwrap_or(0)
}

// The course of the edge u -> v from channel c to channel d, by the sets of the vertices below each row and left of each channel.
fn course_between<'a>(
    below: &'a [u64],
    left: &'a [u64],
    c: u8,
    d: u8,
    columns: &'a [u16],
    places: &'a [u8],
    u: u8,
    v: u8,
) -> Course
    ensures { result ≡ course_among (candidate? below.now left.now (quad 2 places.now u) (quad 2 places.now v) c d) (point_of columns.now places.now) (vertex_count columns.now places.now) u v }
{
    let a = row_at(places, u);
    let b = row_at(places, v);
    // Nothing lies strictly between rows next to each other, nor between such channels: no set is read.
    if geometry::low_rise(a, b) {
        return Course::Straight;
    }
    let to = 2 * c.max(d) as usize;
    let from = 2 * (c.min(d) as usize + 1);
    if to == from {
        return Course::Straight;
    }
    let high = 2 * b as usize;
    let low = 2 * (a as usize + 1);
    let first = less(below, high, low) & less(left, to, from);
    let second = less(below, high + 1, low + 1) & less(left, to + 1, from + 1);
    geometry::course_among(first, second, columns, places, u as usize, v as usize)
}

// The kind of the edge u -> v from channel c and position p to channel d and position q, by the numbers of the bundles of the edges
// into v and out of u, by columns and places, and by the sets of the vertices below each row and left of each channel.
// Parameters that travel together: those of `kind_among`, in its order.
pub fn kind_of<'a>(
    c: u8,
    d: u8,
    p: u8,
    q: u8,
    into: u16,
    out_of: u16,
    columns: &'a [u16],
    places: &'a [u8],
    below: &'a [u64],
    left: &'a [u64],
    u: u8,
    v: u8,
) -> Kind
    ensures { result ≡ kind_among c d p q into out_of columns.now places.now below.now left.now u v }
{
    if c == d {
        if p.abs_diff(q) == 1 {
            return Kind::Path;
        }
        return Kind::PathTransitive(into.min(out_of));
    }
    match course_between(below, left, c, d, columns, places, u, v) {
        Course::Straight => Kind::Straight,
        Course::Bent(column, row) => Kind::Bent(Bend { column, row }),
    }
}
