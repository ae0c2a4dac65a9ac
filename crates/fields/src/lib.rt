// Where the fields of a record stand (SPECIFICATION.md, 1), and the graph that they say.
#![tactic(auto)]

ghost use Rattle.std.specs.Prelude.{◌≡◌, ◌+◌, ◌/◌, ◌%◌, ◌≤◌, length, take, drop};
ghost use Rattle.specification.specs.Layout.{field_at, layout_of, layout_answer, lined, with_floors, after_lines, with_lines, with_edges};
ghost use Rattle.fields.specs.Parts.{field_told, fields_told, layout_told, Within, Paired, Tells, Parted};

use specification::{Graph, Refusal};

// The most bytes of a record.
const MOST_BYTES: usize = 65535;

// A part of a record: so many bytes, the first of them at `start`.
#[derive(Clone, Copy)]
pub struct Span {
    pub start: usize,
    pub size: usize,
}

// How many vertices a record has, and where its fields stand: the edges, two bytes each, the given channels, if any are given, and the
// floors, if there are any.
#[derive(Clone, Copy)]
pub struct Fields {
    pub vertices: usize,
    pub edges: Span,
    pub given: Option<Span>,
    pub floors: Option<Span>,
}

// The field with this tag at a place.
// a bound that stands in four contracts: where a field may begin is no fact of a value that goes along
#[tactic(auto, unfolding(specification::specs::Layout::field_at, specification::specs::Layout::size_at))]
fn field_at(b: &[u8], tag: u8, at: usize) -> Option<Span>
    requires { at ≤ 65535 }
    ensures told { field_told result ≡ field_at tag b.now at }
    ensures within { Within b.now result }
{
    let start = at + 3;
    if b.len() < start || b[at] != tag {
        return None;
    }
    let size = b[at + 1] as usize * 256 + b[at + 2] as usize;
    if b.len() - start < size {
        return None;
    }
    Some(Span { start, size })
}

// Whether bytes are channels, each a length above 0 and so many bytes, ending exactly.
fn is_lined(b: &[u8]) -> bool
    ensures { result ≡ lined 0 b.now }
{
    let mut left: u8 = 0;
    for &v in b {
        if left > 0 {
            left -= 1;
        } else if v > 0 {
            left = v;
        } else {
            return false;
        }
    }
    left == 0
}

// Tag 4 at a place: the floors, to the end of the record.
#[tactic(auto, unfolding(specification::specs::Layout::with_floors))]
fn with_floors(b: &[u8], fields: Fields, at: usize) -> Option<Fields>
    requires { (at ≤ 65535) × Paired (Some fields) }
    ensures { Tells result (with_floors b.now (fields_told fields) (field_at 4 b.now at)) }
{
    let floors = field_at(b, 4, at)?;
    if floors.start + floors.size != b.len() {
        return None;
    }
    Some(Fields {
        floors: Some(floors),
        ..fields
    })
}

// After the given channels: the end of the record, or tag 4.
#[tactic(auto, unfolding(specification::specs::Layout::after_lines))]
fn after_lines(b: &[u8], fields: Fields, end: usize) -> Option<Fields>
    requires { (end ≤ 65535) × Paired (Some fields) }
    ensures { Tells result (after_lines b.now (fields_told fields) end) }
{
    if end == b.len() {
        return Some(fields);
    }
    with_floors(b, fields, end)
}

// Tag 3 at a place: the given channels, and what comes after them. They may be left out.
#[tactic(auto, unfolding(specification::specs::Layout::with_lines))]
fn with_lines(b: &[u8], vertices: usize, edges: Span, at: usize) -> Option<Fields>
    requires { (at ≤ 65535) × (length b.now ≤ 65535) × (edges.size % 2 ≡ 0) }
    ensures { Tells result (with_lines b.now vertices edges.start (edges.size / 2) at (field_at 3 b.now at)) }
{
    let given = field_at(b, 3, at);
    let fields = Fields {
        vertices,
        edges,
        given,
        floors: None,
    };
    let Some(lines) = given else {
        return after_lines(b, fields, at);
    };
    let end = lines.start + lines.size;
    if !is_lined(&b[lines.start..end]) {
        return None;
    }
    after_lines(b, fields, end)
}

// Tag 2 at a place: the edges, two bytes each.
#[tactic(auto, unfolding(specification::specs::Layout::with_edges, specification::specs::Layout::after_edges))]
fn with_edges(b: &[u8], vertices: usize, at: usize) -> Option<Fields>
    requires { (at ≤ 65535) × (length b.now ≤ 65535) }
    ensures { Tells result (with_edges b.now vertices (field_at 2 b.now at)) }
{
    let edges = field_at(b, 2, at)?;
    if edges.size % 2 != 0 {
        return None;
    }
    with_lines(b, vertices, edges, edges.start + edges.size)
}

// Where the fields of a record stand, none where they do not stand as they must. The edges have an even number of bytes.
#[tactic(auto, unfolding(specification::specs::Layout::layout_of, specification::specs::Layout::with_vertices))]
pub fn layout_of(b: &[u8]) -> Option<Fields>
    ensures laid { layout_answer (layout_told result) ≡ layout_answer (layout_of b.now) }
    ensures paired { Paired result }
{
    if b.len() > MOST_BYTES {
        return None;
    }
    let count = field_at(b, 1, 0)?;
    if count.size != 1 {
        return None;
    }
    with_edges(b, b[count.start] as usize, count.start + count.size)
}

// The bytes of a part that lies within the record.
fn part(b: &[u8], span: Span) -> &[u8]
    requires { span.start + span.size ≤ length b.now }
    ensures { result.now ≡ take span.size (drop span.start b.now) }
{
    &b[span.start..span.start + span.size]
}

// The graph that a record says, in the record's own bytes. Refused with 1 where its fields do not stand as they must.
pub fn graph_of(b: &[u8]) -> Result<Graph<'_>, Refusal>
    ensures { Parted b.now (layout_of b.now) result }
{
    let Some(fields) = layout_of(b) else {
        return Err(Refusal::Layout);
    };
    Ok(Graph {
        vertices: fields.vertices,
        ends: part(b, fields.edges),
        given: fields.given.map(|lines| part(b, lines)),
        floors: fields.floors.map(|floors| part(b, floors)),
    })
}
