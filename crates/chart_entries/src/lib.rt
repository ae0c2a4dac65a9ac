// Charts handed over into lists that the caller lends (SPECIFICATION.md, 9).
#![tactic(auto)]

ghost use Rattle.std.specs.Prelude.{◌≡◌, List, ℕ, Ok, ◌+◌, ◌<◌, ◌≤◌, length};
ghost use Rattle.specification.specs.Count.{indicator};
ghost use Rattle.specification.specs.Drawn.{record_drawn, graph_drawn};
ghost use Rattle.specification.specs.Pass.{as_entries, state, after};
ghost use Rattle.specification.specs.Lent.{Filled};
ghost use Rattle.specification.specs.Parts.{present?, bytes_of};
ghost use Rattle.specification.specs.Refusals.{refusal_number};
ghost use Rattle.chart_plan.specs.Laid.{plan_told};
ghost use Rattle.reduction.specs.Reduction.{transitive_in?};
ghost use Rattle.chart_plan.specs.Laid.{lists};
ghost use Rattle.chart_entries.specs.Promise.{HandedOver};
ghost use Rattle.chart_entries.specs.Steps.Sheet.{sheet_told, sheet_in, blank_of};
ghost use Rattle.chart_entries.specs.Steps.Entries.{vertex_at, kind_at, edge_at, bundle_at, reduced?};
ghost use Rattle.chart_entries.specs.Steps.Sheets.{Drafted, Room, GraphSheet, floors_if, summary_of, Leaves};

use chart_plan::Plan;
use specification::{BundleEntry, ChartCounts, EdgeEntry, Graph, Kind, Refusal, VertexEntry};

// What a chart's counts and entries are made of, but for the ends of the edges and the floors: the channel of each vertex, its position
// there, its row and how many vertices it reaches, in turn; the columns of the vertices, the pairs with a vertex between, the sets of the
// vertices below each row and left of each channel, the bundle of the edges into each vertex and of those out of it, in turn, and the
// channel, first row, last row and track of each bundle, in turn.
#[derive(Clone, Copy)]
pub struct Sheet {
    pub vertices: usize,
    pub edges: usize,
    pub bundles: usize,
    pub rows: u8,
    pub channels: u8,
    pub width: u16,
    pub tracks: [u16; 128],
    pub places: [u8; 512],
    pub column: [u16; 128],
    pub longer: [u64; 256],
    pub below: [u64; 512],
    pub left: [u64; 258],
    pub number: [u16; 256],
    pub spans: [u8; 1024],
}

// ---- entries, from a sheet; what a table lacks counts as 0

#[tactic(auto, unfolding(crate::specs::Steps::Entries::vertex_at))]
fn vertex_at(floors: &[u8], d: &Sheet, i: usize) -> VertexEntry
    requires { i < 128 }
    ensures { result ≡ vertex_at (sheet_told d.now) floors.now i }
{
    VertexEntry {
        channel: d.places[4 * i],
        position: d.places[4 * i + 1],
        column: d.column[i],
        row: d.places[4 * i + 2],
        descendants: d.places[4 * i + 3],
        floor: floors.get(i).copied().unwrap_or(0),
    }
}

// The kind of the edge u -> v.
// Twins of chart_lists' kind_at and mark_at, but that what a list lacks counts as 0: there a `requires` says that nothing lacks, and
// the pass tests nothing.
#[tactic(auto, unfolding(crate::specs::Steps::Entries::kind_at))]
fn kind_at(d: &Sheet, u: u8, v: u8) -> Kind
    ensures { result ≡ kind_at (sheet_told d.now) u v }
{
    let i = u as usize;
    let j = v as usize;
    kinds::kind_of(
        d.places.get(4 * i).copied().unwrap_or(0),
        d.places.get(4 * j).copied().unwrap_or(0),
        d.places.get(4 * i + 1).copied().unwrap_or(0),
        d.places.get(4 * j + 1).copied().unwrap_or(0),
        d.number.get(2 * j).copied().unwrap_or(0),
        d.number.get(2 * i + 1).copied().unwrap_or(0),
        &d.column[..d.vertices.min(128)],
        &d.places,
        &d.below,
        &d.left,
        u,
        v,
    )
}

// Whether the edge u -> v is transitive.
fn mark_at(d: &Sheet, u: u8, v: u8) -> bool
    ensures { result ≡ transitive_in? d.now.longer u v }
{
    let mask = masks::mask_at(&d.longer, 2 * u as usize, v as usize / 64);
    reduction::mark_in(mask, v) == 1
}

#[tactic(auto, unfolding(crate::specs::Steps::Entries::edge_at))]
fn edge_at(ends: &[u8], d: &Sheet, i: usize) -> EdgeEntry
    requires { i < 4096 }
    ensures { result ≡ edge_at (sheet_told d.now) ends.now i }
{
    let u = ends.get(2 * i).copied().unwrap_or(0);
    let v = ends.get(2 * i + 1).copied().unwrap_or(0);
    EdgeEntry {
        number: i as u16,
        kind: kind_at(d, u, v),
        transitive: mark_at(d, u, v),
    }
}

#[tactic(auto, unfolding(crate::specs::Steps::Entries::bundle_at))]
fn bundle_at(d: &Sheet, i: usize) -> BundleEntry
    requires { i < 256 }
    ensures { result ≡ bundle_at (sheet_told d.now) i }
{
    BundleEntry {
        channel: d.spans[4 * i],
        first_row: d.spans[4 * i + 1],
        last_row: d.spans[4 * i + 2],
        track: d.spans[4 * i + 3],
    }
}

// ---- the sheet of what goes into lists of given lengths

// The sheet of what is planned of n vertices and m edges. Of the lists that are lent to the planner it has all but the edges and the table
// of what reaches what.
fn drafted(
    n: usize,
    m: usize,
    p: Plan,
    below: [u64; 512],
    longer: [u64; 256],
    places: [u8; 512],
    spans: [u8; 1024],
    number: [u16; 256],
    tracks: [u16; 128],
    column: [u16; 128],
) -> Sheet
    ensures { (edges table : List ℕ) → Drafted n m (plan_told (Ok p)) (lists edges below table longer places spans number tracks column) (sheet_told result) }
{
    let mut left = [0; 258];
    prefixes::by_channel(&places, n, p.channels as usize, &mut left);
    Sheet {
        vertices: n,
        edges: m,
        bundles: p.bundles,
        rows: p.rows,
        channels: p.channels,
        width: p.width,
        tracks,
        places,
        column,
        longer,
        below,
        left,
        number,
        spans,
    }
}

// The sheet of a neutral graph.
// Lengths of the lent lists, beside none: they are compared.
fn sheet_of_graph(
    g: &Graph<'_>,
    vertices: usize,
    edges: usize,
    bundles: usize,
) -> Result<Sheet, Refusal>
    ensures { GraphSheet g.now.vertices g.now.ends.now (present? g.now.given) (bytes_of g.now.given) (present? g.now.floors) (bytes_of g.now.floors) vertices edges bundles (sheet_in result) }
{
    let mut edge_table = [0; 256];
    let mut below = [0; 512];
    let mut table = [0; 256];
    let mut longer = [0; 256];
    let mut places = [0; 512];
    let mut spans = [0; 1024];
    let mut number = [0; 256];
    let mut used = [0; 128];
    let mut column = [0; 128];
    let p = chart_plan::planned(
        g,
        &mut edge_table,
        &mut below,
        &mut table,
        &mut longer,
        &mut places,
        &mut spans,
        &mut number,
        &mut used,
        &mut column,
    )?;
    let n = g.vertices;
    let m = g.ends.len() / 2;
    if vertices < n || edges < m || bundles < p.bundles {
        return Err(Refusal::Short);
    }
    Ok(drafted(n, m, p, below, longer, places, spans, number, used, column))
}

// ---- the lists

// Two fills alike, of vertices and of bundles: the publisher's form has bundles filled by one thin function, and one for both would take
// closures with clauses of their own, as entries are asked for below 128 and 256. An entry is made of its number, so loops go over numbers.
// The room in a list stands in three contracts: it is a fact of two parameters.

fn fill_vertices(out: &mut [VertexEntry], floors: &[u8], d: &Sheet, top: usize)
    requires { (top ≤ length out.old) × (top ≤ 128) }
    ensures { Filled out.old (vertex_at (sheet_told d.now) floors.now) top out.new }
{
    for i in 0..top {
        out[i] = vertex_at(floors, d, i);
    }
}

// The one pass over the edges: writes each, and counts the reduced ones.
fn fill_edges(out: &mut [EdgeEntry], ends: &[u8], d: &Sheet, top: usize) -> u16
    requires { (top ≤ length out.old) × (top ≤ 4096) }
    ensures { state out.new result ≡ after as_entries (edge_at (sheet_told d.now) ends.now) out.old top }
{
    let mut firm: u16 = 0;
    for i in 0..top {
        let entry = edge_at(ends, d, i);
        let one = u16::from(!entry.transitive);
        firm += one;
        out[i] = entry;
    }
    firm
}

fn fill_bundles(out: &mut [BundleEntry], d: &Sheet, top: usize)
    requires { (top ≤ length out.old) × (top ≤ 256) }
    ensures { Filled out.old (bundle_at (sheet_told d.now)) top out.new }
{
    for i in 0..top {
        out[i] = bundle_at(d, i);
    }
}

// The floors of a graph, none where it has no floors.
fn floors_of<'a>(g: &Graph<'a>) -> &'a [u8]
    ensures { result.now ≡ floors_if (present? g.now.floors) (bytes_of g.now.floors) }
{
    match g.floors {
        Some(floors) => floors,
        None => &[],
    }
}

// Writes the sheet's entries into lists that have room for them, and gives its counts.
fn hand_over<'a, 'v, 'e, 'b>(
    d: &Sheet,
    ends: &'a [u8],
    floors: &'a [u8],
    vertices: &'v mut [VertexEntry],
    edges: &'e mut [EdgeEntry],
    bundles: &'b mut [BundleEntry],
) -> ChartCounts
    requires { Room (sheet_told d.now) (length vertices.old) (length edges.old) (length bundles.old) }
    ensures { Leaves (sheet_told d.now) ends.now floors.now vertices.old edges.old bundles.old result vertices.new edges.new bundles.new }
{
    fill_vertices(vertices, floors, d, d.vertices);
    let firm = fill_edges(edges, ends, d, d.edges);
    fill_bundles(bundles, d, d.bundles);
    ChartCounts {
        refusal: 0,
        words: d.vertices,
        arrows: d.edges,
        bundles: d.bundles,
        rows: d.rows,
        lines: d.channels,
        firm,
        width: d.width,
        side_columns: d.tracks,
    }
}

// A refusal: no count.
// A twin of an arm of chart_numbers' with_columns: the promise is of a sheet (`summary_of`).
fn refused(refusal: Refusal) -> ChartCounts
    ensures { result ≡ summary_of (blank_of (refusal_number refusal)) 0 }
{
    ChartCounts {
        refusal: refusal.into(),
        words: 0,
        arrows: 0,
        bundles: 0,
        rows: 0,
        lines: 0,
        firm: 0,
        width: 0,
        side_columns: [0; 128],
    }
}

// ---- the calls

// The chart of a neutral graph into the three lists: the needed entries of each are written and the others stay; where it is refused all
// stay. Refused with 11 where it has more than 31 channels, and then with 8 where a list is too short.
pub fn draw<'v, 'e, 'b>(
    g: &Graph<'_>,
    vertices: &'v mut [VertexEntry],
    edges: &'e mut [EdgeEntry],
    bundles: &'b mut [BundleEntry],
) -> ChartCounts
    ensures { HandedOver (graph_drawn g.now.vertices g.now.ends.now (present? g.now.given) (bytes_of g.now.given) (present? g.now.floors) (bytes_of g.now.floors)) vertices.old edges.old bundles.old result vertices.new edges.new bundles.new }
{
    match sheet_of_graph(g, vertices.len(), edges.len(), bundles.len()) {
        Ok(d) => hand_over(&d, g.ends, floors_of(g), vertices, edges, bundles),
        Err(refusal) => refused(refusal),
    }
}

// The same of a record.
pub fn chart_record<'v, 'e, 'b>(
    bytes: &[u8],
    vertices: &'v mut [VertexEntry],
    edges: &'e mut [EdgeEntry],
    bundles: &'b mut [BundleEntry],
) -> ChartCounts
    ensures { HandedOver (record_drawn bytes.now) vertices.old edges.old bundles.old result vertices.new edges.new bundles.new }
{
    match fields::graph_of(bytes) {
        Ok(g) => draw(&g, vertices, edges, bundles),
        Err(refusal) => refused(refusal),
    }
}
