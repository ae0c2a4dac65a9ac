// A record read: whether it is accepted, what reaches what in it, and how.
ghost use Rattle.std.specs.Prelude.{◌≡◌, length};
ghost use Rattle.specification.specs.Asked.{reply_of, asked};
ghost use Rattle.record.specs.Reading.{reading_of, Reads};
ghost use Rattle.record.specs.Steps.{judged_of, Judges};

use crate::checks::check;
use fields::graph_of;
use specification::{Connection, Refusal};

// How many vertices a record has, and the table of what reaches what (SPECIFICATION.md, 2.2), two masks a vertex.
#[derive(Clone, Copy)]
pub struct Reading {
    pub vertices: usize,
    pub table: [u64; 256],
}

// Checks a record, leaves the tables of its edges, of longer routes and of what reaches what in lists of 256 masks, and says how many vertices
// it has.
fn judge(
    b: &[u8],
    edges: &mut [u64],
    longer: &mut [u64],
    table: &mut [u64],
) -> Result<usize, Refusal>
    requires { (length edges.old ≡ 256) × (length longer.old ≡ 256) × (length table.old ≡ 256) }
    ensures { Judges b.now (judged_of result) edges.new longer.new table.new }
{
    let graph = graph_of(b)?;
    let mut below = [0; 512];
    let mut places = [0; 512];
    check(&graph, edges, &mut below, table, longer, &mut places)?;
    Ok(graph.vertices)
}

// The vertices and the reachability of a record, or the first check that fails, of 1, 2, 12 and 3 to 7.
pub fn read(b: &[u8]) -> Result<Reading, Refusal>
    ensures { Reads b.now (reading_of result) }
{
    let mut edges = [0; 256];
    let mut longer = [0; 256];
    let mut table = [0; 256];
    let vertices = judge(b, &mut edges, &mut longer, &mut table)?;
    Ok(Reading { vertices, table })
}

// How one vertex of a record reaches another. Refused as the record is, and then as `Stranger` where one of the two is no vertex of it.
pub fn ask(b: &[u8], u: usize, v: usize) -> Result<Connection, Refusal>
    ensures { reply_of result ≡ asked b.now u v }
{
    let mut edges = [0; 256];
    let mut longer = [0; 256];
    let mut table = [0; 256];
    let vertices = judge(b, &mut edges, &mut longer, &mut table)?;
    if vertices <= u || vertices <= v {
        return Err(Refusal::Stranger);
    }
    Ok(reach::between(&edges, &longer, 2 * u, v))
}
