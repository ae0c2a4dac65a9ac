// The entries of the lists, from tables: the edges in one pass over the bytes of their ends.
ghost use Rattle.std.specs.Prelude.{◌≡◌, ℕ, ◌+◌, ◌*◌, ◌/◌, ◌≤◌, ◌<◌, length, get_or, set};
ghost use Rattle.specification.specs.Count.{indicator};
ghost use Rattle.counting.specs.Quads.{quad};
ghost use Rattle.specification.specs.Checks.{floor_at};
ghost use Rattle.reduction.specs.Reduction.{transitive_in?};
ghost use Rattle.kinds.specs.Kinds.{kind_among};
ghost use Rattle.specification.specs.Lent.{Filled};
ghost use Rattle.specification.specs.Parts.{present?, bytes_of};
ghost use Rattle.specification.specs.Numbers.{words, bundles};
ghost use Rattle.specification.specs.Pass.{as_numbers, state, next, after};
ghost use Rattle.chart_lists.specs.Steps.Numbers.{given, arrow_from, word_from, bundle_from, Ready};

use specification::{Code, Kind};

// How many numbers an entry has.
pub(crate) const WORD_NUMBERS: usize = 6;

pub(crate) const ARROW_NUMBERS: usize = 5;

pub(crate) const BUNDLE_NUMBERS: usize = 4;

// ---- an entry's numbers, from place i on; a store each, since the pass is promised store by store (`stored`)

fn put_five(out: &mut [u16], i: usize, a: u16, b: u16, c: u16, d: u16, e: u16)
    requires { i + 5 ≤ length out.old }
    ensures { out.new ≡ set (set (set (set (set out.old i a) (i + 1) b) (i + 2) c) (i + 3) d) (i + 4) e }
{
    out[i] = a;
    out[i + 1] = b;
    out[i + 2] = c;
    out[i + 3] = d;
    out[i + 4] = e;
}

fn put_six(out: &mut [u16], i: usize, a: u16, b: u16, c: u16, d: u16, e: u16, f: u16)
    requires { i + 6 ≤ length out.old }
    ensures { out.new ≡ set (set (set (set (set (set out.old i a) (i + 1) b) (i + 2) c) (i + 3) d) (i + 4) e) (i + 5) f }
{
    put_five(out, i, a, b, c, d, e);
    out[i + 5] = f;
}

// ---- edges

// 1 where the edge from u to v is transitive, else 0.
fn mark_at(longer: &[u64], u: u8, v: u8) -> u16
    requires { (2 * u + 2 ≤ length longer.now) × (v < 128) }
    ensures { result ≡ indicator (transitive_in? longer.now u v) }
{
    reduction::mark_in(longer[2 * u as usize + v as usize / 64], v)
}

// The kind of the edge from u to v, from the places and the bundles of its ends.
fn kind_at<'a>(
    places: &'a [u8],
    number: &'a [u16],
    columns: &'a [u16],
    below: &'a [u64],
    left: &'a [u64],
    u: u8,
    v: u8,
) -> Kind
    requires { (4 * u + 4 ≤ length places.now) × (4 * v + 4 ≤ length places.now) × (2 * u + 2 ≤ length number.now) × (2 * v + 2 ≤ length number.now) }
    ensures { result ≡ kind_among (quad 0 places.now u) (quad 0 places.now v) (quad 1 places.now u) (quad 1 places.now v) (get_or number.now (2 * v) 0) (get_or number.now (2 * u + 1) 0) columns.now places.now below.now left.now u v }
{
    let i = u as usize;
    let j = v as usize;
    kinds::kind_of(
        places[4 * i],
        places[4 * j],
        places[4 * i + 1],
        places[4 * j + 1],
        number[2 * j],
        number[2 * i + 1],
        columns,
        places,
        below,
        left,
        u,
        v,
    )
}

// Puts edge e at its place, and counts it where it is reduced: one step of the pass.
// Parameters that travel together, here and around: `given` names each of the lists.
fn put_arrow<'e, 'l, 'a>(
    out: &mut [u16],
    ends: &'e [u8],
    longer: &'l [u64],
    places: &'a [u8],
    number: &'a [u16],
    columns: &'a [u16],
    below: &'a [u64],
    left: &'a [u64],
    e: usize,
    firm: u16,
) -> u16
    requires { (e * 5 + 5 ≤ length out.old) × (firm ≤ e) × Ready (given ends.now longer.now places.now number.now columns.now below.now left.now) e }
    ensures { state out.new result ≡ next as_numbers (arrow_from (given ends.now longer.now places.now number.now columns.now below.now left.now)) e (state out.old firm) }
{
    let u = ends[2 * e];
    let v = ends[2 * e + 1];
    let kind = Code::from(kind_at(places, number, columns, below, left, u, v));
    // after the kind, so that no register holds the mark meanwhile
    let mark = mark_at(longer, u, v);
    put_five(
        out,
        e * ARROW_NUMBERS,
        e as u16,
        kind.code as u16,
        kind.value,
        kind.row as u16,
        mark,
    );
    firm + (1 - mark)
}

// The one pass over the edges: puts each, and counts the reduced ones.
pub(crate) fn put_arrows<'e, 'l, 'a>(
    out: &mut [u16],
    ends: &'e [u8],
    longer: &'l [u64],
    places: &'a [u8],
    number: &'a [u16],
    columns: &'a [u16],
    below: &'a [u64],
    left: &'a [u64],
) -> u16
    requires { (length ends.now / 2 * 5 ≤ length out.old) × ((e : ℕ) → e < length ends.now / 2 → Ready (given ends.now longer.now places.now number.now columns.now below.now left.now) e) }
    ensures { state out.new result ≡ after as_numbers (arrow_from (given ends.now longer.now places.now number.now columns.now below.now left.now)) out.old (length ends.now / 2) }
{
    let m = ends.len() / 2;
    let mut firm: u16 = 0;
    for e in 0..m {
        firm = put_arrow(
            out, ends, longer, places, number, columns, below, left, e, firm,
        );
    }
    firm
}

// ---- vertices and bundles

// The floor of vertex v: 0 where there are none.
fn floor_at(floors: Option<&[u8]>, v: usize) -> u16
    ensures { result ≡ floor_at (present? floors.entry) (bytes_of floors.entry) v }
{
    match floors {
        Some(floors) => floors.get(v).copied().unwrap_or(0) as u16,
        None => 0,
    }
}

pub(crate) fn put_words<'p, 'c, 'f>(
    out: &mut [u16],
    places: &'p [u8],
    column: &'c [u16],
    floors: Option<&'f [u8]>,
    n: usize,
)
    requires { (n * 6 ≤ length out.old) × (n ≤ 128) × (4 * n ≤ length places.now) × (n ≤ length column.now) }
    ensures { Filled out.old (words (word_from places.now column.now (present? floors.entry) (bytes_of floors.entry))) (n * 6) out.new }
{
    for v in 0..n {
        put_six(
            out,
            v * WORD_NUMBERS,
            places[4 * v] as u16,
            places[4 * v + 1] as u16,
            column[v],
            places[4 * v + 2] as u16,
            places[4 * v + 3] as u16,
            floor_at(floors, v),
        );
    }
}

// A bundle's four numbers stand in `spans` as in the list.
// By number, with the count beside: a zip of the two lists was tried, and that what is put stays was not proved.
pub(crate) fn put_bundles<'s>(out: &mut [u16], spans: &'s [u8], count: usize)
    requires { (count ≤ 256) × (count * 4 ≤ length out.old) × (count * 4 ≤ length spans.now) }
    ensures { Filled out.old (bundles (bundle_from spans.now)) (count * 4) out.new }
{
    for i in 0..count * BUNDLE_NUMBERS {
        out[i] = spans[i] as u16;
    }
}
