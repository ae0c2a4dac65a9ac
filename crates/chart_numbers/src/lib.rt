// The chart of a graph or of a record as three lent lists of numbers (SPECIFICATION.md, 9.4), with work lists of as much room as it may need.
#![tactic(auto)]

ghost use Rattle.std.specs.Prelude.{◌≡◌, ◌/◌, length, replicate};
ghost use Rattle.specification.specs.Drawn.{graph_drawn, lent};
ghost use Rattle.specification.specs.Parts.{present?, bytes_of};
ghost use Rattle.chart_lists.specs.Chart.{Left, whole, counts_of};
ghost use Rattle.chart_numbers.specs.Chart.{HandedFlat};
ghost use Rattle.chart_numbers.specs.Steps.{Sized};
ghost use Rattle.specification.specs.Numbers.{word_numbers, arrow_numbers, bundle_numbers};

use chart_lists::{Counts, drawn};
use specification::{ChartCounts, Graph, Refusal};

// For so many vertices there are smaller work lists: none is longer than 256 bytes, which the compiler clears without a call. Clearing the
// larger ones would take most of the time of a small chart.
const FEW: usize = 15;

// The chart of a neutral graph into three lists and its side columns into `used`, with work lists for so many vertices: two masks or bundles
// each (PAIRS), four bytes (PLACES), eight bytes (SPANS) and a column, and masks for the sets of the vertices below each row (ROWS).
fn sized<
    'u,
    const VERTICES: usize,
    const PAIRS: usize,
    const PLACES: usize,
    const SPANS: usize,
    const ROWS: usize,
>(
    g: &Graph<'_>,
    words: &mut [u16],
    arrows: &mut [u16],
    bundles: &mut [u16],
    used: &'u mut [u16],
) -> Result<Counts, Refusal>
    requires { (length used.old ≡ 128) × Sized g.now.vertices (present? g.now.floors) VERTICES PAIRS PLACES SPANS ROWS }
    ensures { Left (lent (length words.old / word_numbers) (length arrows.old / arrow_numbers) (length bundles.old / bundle_numbers) (graph_drawn g.now.vertices g.now.ends.now (present? g.now.given) (bytes_of g.now.given) (present? g.now.floors) (bytes_of g.now.floors))) words.old arrows.old bundles.old (whole (counts_of result) used.new) words.new arrows.new bundles.new }
{
    let mut edges = [0; PAIRS];
    let mut below = [0; ROWS];
    let mut table = [0; PAIRS];
    let mut longer = [0; PAIRS];
    let mut places = [0; PLACES];
    let mut spans = [0; SPANS];
    let mut number = [0; PAIRS];
    let mut column = [0; VERTICES];
    drawn(
        g,
        words,
        arrows,
        bundles,
        &mut edges,
        &mut below,
        &mut table,
        &mut longer,
        &mut places,
        &mut spans,
        &mut number,
        &mut column,
        used,
    )
}

// The same with the smaller work lists where they are enough; where there are floors, there may be many more rows than vertices.
// A graph's parts one by one in the clause, as in three others: the definitions take the parts.
fn graphed<'u>(
    g: &Graph<'_>,
    words: &mut [u16],
    arrows: &mut [u16],
    bundles: &mut [u16],
    used: &'u mut [u16],
) -> Result<Counts, Refusal>
    requires { length used.old ≡ 128 }
    ensures { Left (lent (length words.old / word_numbers) (length arrows.old / arrow_numbers) (length bundles.old / bundle_numbers) (graph_drawn g.now.vertices g.now.ends.now (present? g.now.given) (bytes_of g.now.given) (present? g.now.floors) (bytes_of g.now.floors))) words.old arrows.old bundles.old (whole (counts_of result) used.new) words.new arrows.new bundles.new }
{
    match (g.vertices <= FEW, g.floors.is_some()) {
        (true, false) => sized::<15, 30, 60, 120, 32>(g, words, arrows, bundles, used),
        (true, true) => sized::<15, 30, 60, 120, 288>(g, words, arrows, bundles, used),
        (false, false) => sized::<128, 256, 512, 1024, 258>(g, words, arrows, bundles, used),
        (false, true) => sized::<128, 256, 512, 1024, 512>(g, words, arrows, bundles, used),
    }
}

// The same of the graph that a record says, into side columns that are 0: where its fields do not stand as they must, they stay.
fn recorded<'u>(
    bytes: &[u8],
    words: &mut [u16],
    arrows: &mut [u16],
    bundles: &mut [u16],
    used: &'u mut [u16],
) -> Result<Counts, Refusal>
    requires { used.old ≡ replicate 128 0 }
    ensures { HandedFlat bytes.now words.old arrows.old bundles.old (whole (counts_of result) used.new) words.new arrows.new bundles.new }
{
    let g = fields::graph_of(bytes)?;
    graphed(&g, words, arrows, bundles, used)
}

// The counts with the side columns, or a refusal with no count.
// A conversion, and no From: the side columns come from another list.
fn with_columns(counts: Result<Counts, Refusal>, side_columns: &[u16; 128]) -> ChartCounts
    ensures { result ≡ whole (counts_of counts) side_columns.now }
{
    match counts {
        Ok(c) => ChartCounts {
            refusal: 0,
            words: c.words,
            arrows: c.arrows,
            bundles: c.bundles,
            rows: c.rows,
            lines: c.lines,
            firm: c.firm,
            width: c.width,
            side_columns: *side_columns,
        },
        Err(refusal) => ChartCounts {
            refusal: refusal.into(),
            words: 0,
            arrows: 0,
            bundles: 0,
            rows: 0,
            lines: 0,
            firm: 0,
            width: 0,
            side_columns: *side_columns,
        },
    }
}

// The chart of a neutral graph into three lists. Refused with 11 where it has more than 31 channels, and then with 8 where a list has no
// room for all its entries. Numbers past the needed ones stay.
// Three lists that travel together: the header lends them one by one.
pub fn of_graph(
    g: &Graph<'_>,
    words: &mut [u16],
    arrows: &mut [u16],
    bundles: &mut [u16],
) -> ChartCounts
    ensures { Left (lent (length words.old / word_numbers) (length arrows.old / arrow_numbers) (length bundles.old / bundle_numbers) (graph_drawn g.now.vertices g.now.ends.now (present? g.now.given) (bytes_of g.now.given) (present? g.now.floors) (bytes_of g.now.floors))) words.old arrows.old bundles.old result words.new arrows.new bundles.new }
{
    let mut used = [0; 128];
    let counts = graphed(g, words, arrows, bundles, &mut used);
    with_columns(counts, &used)
}

// The same of the graph that a record says. Refused with 1 where the record's fields do not stand as they must.
pub fn of_record(
    bytes: &[u8],
    words: &mut [u16],
    arrows: &mut [u16],
    bundles: &mut [u16],
) -> ChartCounts
    ensures { HandedFlat bytes.now words.old arrows.old bundles.old result words.new arrows.new bundles.new }
{
    let mut used = [0; 128];
    let counts = recorded(bytes, words, arrows, bundles, &mut used);
    with_columns(counts, &used)
}
