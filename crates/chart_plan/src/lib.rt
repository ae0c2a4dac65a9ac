// Layer 3: what is planned of a graph, layer by layer (SPECIFICATION.md, 3 to 8).
#![tactic(auto)]

ghost use Rattle.std.specs.Prelude.{◌≡◌, ◌≤◌, length, Ok};
ghost use Rattle.specification.specs.Parts.{present?, bytes_of};
ghost use Rattle.record.specs.Checked.{checked_of};
ghost use Rattle.chart_plan.specs.Laid.{plan_told, lists, Plans};
ghost use Rattle.chart_plan.specs.Steps.{roomy?, Passed, Filled};

mod columns;

use bundles::bundled;
use columns::columns_of;
use record::checks::{Checked, check};
use specification::{Graph, Refusal};

// The most vertices, and so the most channels that have tracks.
const MOST: usize = 128;

// The most channels of a chart.
const MOST_CHANNELS: u8 = 31;

// How many rows, channels and bundles a graph has, and the columns of all channels.
#[derive(Clone, Copy)]
pub struct Plan {
    pub rows: u8,
    pub channels: u8,
    pub bundles: usize,
    pub width: u16,
}

// Whether lists of these lengths have room for the bundles, the tracks and the columns of m vertices.
// Lengths alone, beside no list: they are compared.
fn is_roomy(m: usize, spans: usize, number: usize, used: usize, column: usize) -> bool
    requires { m ≤ 128 }
    ensures { result ≡ roomy? m spans number used column }
{
    8 * m <= spans && 2 * m <= number && MOST <= used && m <= column
}

// The plan of n vertices that passed the checks, and the lists that go with it.
fn filled(
    n: usize,
    checked: Checked,
    edges: &[u64],
    places: &[u8],
    spans: &mut [u8],
    number: &mut [u16],
    used: &mut [u16],
    column: &mut [u16],
) -> Plan
    requires { Passed n (checked_of (Ok checked)) edges.now places.now spans.old number.old used.old column.old }
    ensures { Filled n (checked_of (Ok checked)) edges.now places.now spans.old number.old used.old column.old (plan_told (Ok result)) spans.new number.new used.new column.new }
{
    let count = checked.channels as usize;
    let bundles = bundled(n, edges, count, places, spans, number);
    tracks::tracked(bundles, spans, used);
    let width = columns_of(n, count, places, used, column);
    Plan {
        rows: checked.used,
        channels: checked.channels,
        bundles,
        width,
    }
}

// What is planned of a graph; or the first check that fails, or `Broad` where there are too many channels. `below` gets the sets of vertices
// by row, `longer` the pairs with a vertex between; `places` four bytes a vertex: its channel, its position there, its row and how many
// vertices it reaches; `spans` four bytes a bundle: its channel, its first row, its last row and its track; `number` the bundle of the edges
// into each vertex and of those out of it, in turn; `used` how many tracks each channel has, and `column` the column of each vertex. `Short`,
// and nothing changed, where a list has no room.
// Parameters that travel together: no struct of the lists, since two fields of a lent struct can't be lent to one call.
pub fn planned(
    g: &Graph,
    edges: &mut [u64],
    below: &mut [u64],
    table: &mut [u64],
    longer: &mut [u64],
    places: &mut [u8],
    spans: &mut [u8],
    number: &mut [u16],
    used: &mut [u16],
    column: &mut [u16],
) -> Result<Plan, Refusal>
    ensures { Plans g.now.vertices g.now.ends.now (present? g.now.given) (bytes_of g.now.given) (present? g.now.floors) (bytes_of g.now.floors) (lists edges.old below.old table.old longer.old places.old spans.old number.old used.old column.old) (plan_told result) (lists edges.new below.new table.new longer.new places.new spans.new number.new used.new column.new) }
{
    let n = g.vertices;
    if !is_roomy(
        n.min(MOST),
        spans.len(),
        number.len(),
        used.len(),
        column.len(),
    ) {
        return Err(Refusal::Short);
    }
    let checked = check(g, edges, below, table, longer, places)?;
    if checked.channels > MOST_CHANNELS {
        return Err(Refusal::Broad);
    }
    Ok(filled(n, checked, edges, places, spans, number, used, column))
}
