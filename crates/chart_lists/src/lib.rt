// What is planned of a graph as three lent lists of numbers (SPECIFICATION.md, 9.4): no table of edges between.
#![tactic(auto)]

ghost use Rattle.specification.specs.Parts.{present?, bytes_of};
ghost use Rattle.chart_plan.specs.Laid.{lists};
ghost use Rattle.chart_lists.specs.Chart.{counts_of};
ghost use Rattle.chart_lists.specs.Promise.{Draws};

use hand::hand_over;
use specification::{Graph, Refusal};

mod entries;
mod hand;

// `ChartCounts` without the refusal and the side columns: these are lent from above, so that they are copied once.
#[derive(Clone, Copy)]
pub struct Counts {
    pub words: usize,
    pub arrows: usize,
    pub bundles: usize,
    pub rows: u8,
    pub lines: u8,
    pub firm: u16,
    pub width: u16,
}

// The chart of a neutral graph into three lists and its side columns into `used`, by work lists; 'short', and nothing changed but that
// `used` is cleared, where one of these has no room.
// Parameters that travel together: no struct of the lists, as in chart_plan::planned.
pub fn drawn<'e, 'b, 't, 'l, 'p, 's, 'n, 'c, 'u>(
    g: &Graph<'_>,
    words: &mut [u16],
    arrows: &mut [u16],
    bundles: &mut [u16],
    edges: &'e mut [u64],
    below: &'b mut [u64],
    table: &'t mut [u64],
    longer: &'l mut [u64],
    places: &'p mut [u8],
    spans: &'s mut [u8],
    number: &'n mut [u16],
    column: &'c mut [u16],
    used: &'u mut [u16],
) -> Result<Counts, Refusal>
    ensures { Draws g.now.vertices g.now.ends.now (present? g.now.given) (bytes_of g.now.given) (present? g.now.floors) (bytes_of g.now.floors) words.old arrows.old bundles.old (lists edges.old below.old table.old longer.old places.old spans.old number.old used.old column.old) (counts_of result) words.new arrows.new bundles.new (lists edges.new below.new table.new longer.new places.new spans.new number.new used.new column.new) }
{
    let plan = chart_plan::planned(
        g, edges, below, table, longer, places, spans, number, used, column,
    );
    // what reaches what is not read any more: its list takes the sets left of channels
    hand_over(
        g, words, arrows, bundles, longer, below, table, places, spans, number, column, used, plan,
    )
}
