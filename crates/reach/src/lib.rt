// Layer 1: which vertex reaches which (SPECIFICATION.md, 2), its laws and tables, and the one place that says how (2.4). A table has two
// masks of 64 bits a vertex: bit v mod 64 of mask 2 u + v / 64, the lowest bit being 0, says that u reaches v by one or more edges.
#![tactic(auto)]

ghost use Rattle.std.specs.Prelude.{◌≡◌, ◌+◌, ◌*◌};
ghost use Rattle.specification.specs.Count.{indicator};
ghost use Rattle.specification.specs.Connection.{connection, connection_number, leading?, both?};
ghost use Rattle.specification.specs.Sets.{member?};

use specification::Connection;

// How one vertex reaches another, by whether an edge goes there and whether two edges or more do.
pub fn connected(edge: bool, longer: bool) -> Connection
    ensures case { result ≡ connection edge longer }
    ensures number { connection_number result ≡ indicator edge + 2 * indicator longer }
{
    match (edge, longer) {
        (false, false) => Connection::Unreached,
        (true, false) => Connection::EdgeOnly,
        (false, true) => Connection::LongerOnly,
        (true, true) => Connection::Both,
    }
}

// The same of v, by the set whose masks begin at mask `first`, in the table of edges and in that of longer routes.
pub fn between<'e, 'l>(edges: &'e [u64], longer: &'l [u64], first: usize, v: usize) -> Connection
    ensures { result ≡ connection (member? edges.now first v) (member? longer.now first v) }
{
    connected(
        masks::contains(edges, first, v),
        masks::contains(longer, first, v),
    )
}

// Whether there is a way at all.
// A comparison under the name that its promise has, as the next is.
pub fn is_leading(answer: Connection) -> bool
    ensures { result ≡ leading? answer }
{
    answer != Connection::Unreached
}

// Whether there is an edge and a longer route.
pub fn is_both(answer: Connection) -> bool
    ensures { result ≡ both? answer }
{
    answer == Connection::Both
}
