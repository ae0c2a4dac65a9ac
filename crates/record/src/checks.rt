// The checks 2, 12 and 3 to 7 of a graph with given channels and floors, in their order (SPECIFICATION.md, 13.1): the one place that refuses
// a graph.
ghost use Rattle.std.specs.Prelude.{◌≡◌, ◌&&◌, leb};
ghost use Rattle.specification.specs.Count.{choose};
ghost use Rattle.specification.specs.Channels.{vertices_of, unknown?};
ghost use Rattle.specification.specs.Parts.{present?, bytes_of};
ghost use Rattle.specification.specs.Refusals.{refusal_number};
ghost use Rattle.planning.specs.Promise.{channels_of};
ghost use Rattle.channels.specs.Promise.{Answers};
ghost use Rattle.record.specs.Checked.{channels_by, checked_of, Checks};
ghost use Rattle.record.specs.Steps.{channels_refusal};

use floors::raised;
use specification::{Graph, Refusal};

// How many rows are used, and how many channels there are.
#[derive(Clone, Copy)]
pub struct Checked {
    pub used: u8,
    pub channels: u8,
}

// The refusal of a graph whose edges or floors are refused: an unknown vertex in the given channels goes before duplicates and cycles.
fn first_of(refusal: Refusal, g: &Graph) -> Refusal
    ensures { let k = refusal_number refusal in refusal_number result ≡ choose ((leb 4 k && leb k 5) && (present? g.now.given && unknown? g.now.vertices (vertices_of (bytes_of g.now.given)))) (λ _. 3) (λ _. k) }
{
    match (refusal, g.given) {
        (Refusal::Double | Refusal::Ring, Some(lines)) if channels::unknown(g.vertices, lines) => {
            Refusal::Stranger
        }
        _ => refusal,
    }
}

// Lays the channels of a graph whose edges are accepted, the given ones first, and says how many there are.
fn laid(
    g: &Graph,
    edges: &[u64],
    longer: &[u64],
    table: &[u64],
    places: &mut [u8],
) -> Result<u8, Refusal>
    ensures { Answers g.now.vertices (channels_refusal g.now.vertices edges.now longer.now (present? g.now.given) (bytes_of g.now.given)) (channels_by g.now.vertices table.now (present? g.now.given) (bytes_of g.now.given)) places.old (channels_of result) places.new }
{
    match g.given {
        Some(lines) => channels::given(g.vertices, edges, longer, table, lines, places),
        None => channels::plan(g.vertices, table, places),
    }
}

// The checks of a graph: the first that fails refuses. The lists get the edges' masks, the sets of vertices by row, what reaches what, what
// does by two edges or more, and four bytes a vertex: its channel, its position there, its row, and how many vertices it reaches; refused as
// `Short`, and nothing changed, where one has too little room.
// Parameters that travel together: no struct of the lists, as in chart_plan::planned.
pub fn check(
    g: &Graph,
    edges: &mut [u64],
    below: &mut [u64],
    table: &mut [u64],
    longer: &mut [u64],
    places: &mut [u8],
) -> Result<Checked, Refusal>
    ensures { Checks g.now.vertices g.now.ends.now (present? g.now.given) (bytes_of g.now.given) (present? g.now.floors) (bytes_of g.now.floors) edges.old below.old table.old longer.old places.old (checked_of result) edges.new below.new table.new longer.new places.new }
{
    let used = match raised(g, edges, below, table, longer, places) {
        Ok(used) => used,
        Err(refusal) => return Err(first_of(refusal, g)),
    };
    let channels = laid(g, edges, longer, table, places)?;
    Ok(Checked { used, channels })
}
