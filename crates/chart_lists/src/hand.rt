// What is planned of a graph, handed over or refused.
ghost use Rattle.std.specs.Prelude.{◌≡◌, ◌/◌, length};
ghost use Rattle.specification.specs.Parts.{present?, bytes_of};
ghost use Rattle.chart_plan.specs.Laid.{plan_told};
ghost use Rattle.chart_lists.specs.Chart.{counts_of};
ghost use Rattle.chart_lists.specs.Steps.Hand.{LeftFor, Lends, Hands, Accepts};

use crate::Counts;
use crate::entries::{
    ARROW_NUMBERS, BUNDLE_NUMBERS, WORD_NUMBERS, put_arrows, put_bundles, put_words,
};
use chart_plan::Plan;
use specification::{Graph, Refusal};

// The plan, or why a chart is refused: as its graph is, or 'short' where a list of so many numbers has no room for n vertices, m edges or
// all bundles.
// Lengths alone, beside no list: they are compared.
fn accepted(
    planned: Result<Plan, Refusal>,
    n: usize,
    m: usize,
    words: usize,
    arrows: usize,
    bundles: usize,
) -> Result<Plan, Refusal>
    ensures { Accepts planned n m (words / 6) (arrows / 5) (bundles / 4) result }
{
    let plan = planned?;
    if words / WORD_NUMBERS < n
        || arrows / ARROW_NUMBERS < m
        || bundles / BUNDLE_NUMBERS < plan.bundles
    {
        return Err(Refusal::Short);
    }
    Ok(plan)
}

// The most channels of which none stands between two others.
const NONE_BETWEEN: usize = 2;

// The sets of the vertices left of each channel, where one can stand between two others.
fn make_left(places: &[u8], n: usize, count: usize, left: &mut [u64])
    ensures { LeftFor n count places.now (length left.old) left.new × (length left.new ≡ length left.old) }
{
    if NONE_BETWEEN < count {
        prefixes::by_channel(places, n, count, left);
    }
}

// The chart of a graph into three lists, from what is planned, or its refusal, with no side column left in `used`. What `left` has is lost.
pub(crate) fn hand_over<'l, 'b, 's, 'u>(
    g: &Graph<'_>,
    words: &mut [u16],
    arrows: &mut [u16],
    bundles: &mut [u16],
    longer: &'l [u64],
    below: &'b [u64],
    left: &'b mut [u64],
    places: &'b [u8],
    spans: &'s [u8],
    number: &'b [u16],
    column: &'b [u16],
    used: &'u mut [u16],
    planned: Result<Plan, Refusal>,
) -> Result<Counts, Refusal>
    requires { Lends g.now.vertices g.now.ends.now (present? g.now.floors) (bytes_of g.now.floors) (plan_told planned) below.now longer.now places.now spans.now number.now used.old column.now (length left.old) }
    ensures { Hands g.now.vertices g.now.ends.now (present? g.now.floors) (bytes_of g.now.floors) (plan_told planned) below.now longer.now places.now spans.now number.now used.old column.now left.old words.old arrows.old bundles.old (counts_of result) left.new words.new arrows.new bundles.new used.new }
{
    let n = g.vertices;
    let m = g.ends.len() / 2;
    let plan = match accepted(planned, n, m, words.len(), arrows.len(), bundles.len()) {
        Ok(plan) => plan,
        Err(refusal) => {
            // where only a list is too short, the side columns are there already
            used.fill(0);
            return Err(refusal);
        }
    };
    make_left(places, n, plan.channels as usize, left);
    put_words(words, places, column, g.floors, n);
    let firm = put_arrows(
        arrows,
        g.ends,
        longer,
        places,
        number,
        &column[..n],
        below,
        left,
    );
    put_bundles(bundles, spans, plan.bundles);
    Ok(Counts {
        words: n,
        arrows: m,
        bundles: plan.bundles,
        rows: plan.rows,
        lines: plan.channels,
        firm,
        width: plan.width,
    })
}
