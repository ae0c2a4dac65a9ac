// Sessions (SPECIFICATION.md, 11): an acyclic graph that grows edge by edge, with its reachability kept up. A session is a value: a call
// takes it and hands one back. A table has two masks of 64 bits a vertex: bit v mod 64 of mask 2 u + v / 64 says that v is in the set of u.
#![tactic(auto)]

ghost use Rattle.std.specs.Prelude.{◌≡◌, ◌||◌, ◌≤◌, ◌<◌, eqb, length};
ghost use Rattle.specification.specs.Asked.{reply_of};
ghost use Rattle.specification.specs.Refusals.{number_in};
ghost use Rattle.specification.specs.Sets.{has?};
ghost use Rattle.editing.specs.Steps.{passing?};
ghost use Rattle.editing.specs.Promise.{blank, changed_of, outside?, refusal_of, detour?, Linked, StartPromise, AddPromise, LeadsPromise};

use specification::{Connection, Refusal};

// The most vertices and edges of a graph.
const MOST_VERTICES: usize = 128;

const MOST_EDGES: usize = 4096;

// The vertices are 0 .. vertices - 1; `count` is the number of edges.
#[derive(Clone, Copy)]
pub struct Session {
    pub vertices: usize,
    pub count: usize,
    pub edges: [u64; 256],
    pub reach: [u64; 256],
}

// Why a call is refused, and the session after it, as it was before.
#[derive(Clone, Copy)]
pub struct Refused {
    pub refusal: Refusal,
    pub session: Session,
}

// Whether u is the tail or has it.
fn comes(reach: &[u64], u: usize, tail: usize) -> bool
    requires { u < 128 }
    ensures { result ≡ (eqb u tail || has? 2 reach.now u tail) }
{
    masks::contains(reach, 2 * u, tail) || u == tail
}

// Reachability with one edge more: every vertex that is the tail or reaches it gets the head and all that the head reaches.
fn link(reach: &mut [u64], tail: usize, head: usize)
    requires { (length reach.old ≡ 256) × (tail < 128) × (head < 128) }
    ensures { Linked 2 reach.old tail head 128 reach.new }
{
    let mut row = [reach[2 * head], reach[2 * head + 1]];
    masks::insert(&mut row, 0, head);
    for u in 0..MOST_VERTICES {
        if comes(reach, u, tail) {
            masks::unite(reach, 2 * u, &row);
        }
    }
}

// Whether a member of a mask, which begins at vertex `base`, has v.
// A mask with the vertex of its bit 0, parameters that go together: both are in registers, and the loop takes them apart at once.
fn passes(reach: &[u64], mask: u64, base: usize, v: usize) -> bool
    requires { base ≤ 64 }
    ensures { result ≡ passing? 2 reach.now mask base v }
{
    let mut x = mask;
    while x != 0 {
        let w = base + x.trailing_zeros() as usize;
        if masks::contains(reach, 2 * w, v) {
            return true;
        }
        x &= x - 1;
    }
    false
}

// Whether the tail reaches the head by two edges or more: an edge goes from it to a vertex that has the head. No table is kept of it.
fn detour(edges: &[u64], reach: &[u64], tail: usize, head: usize) -> bool
    requires { tail < 128 }
    ensures { result ≡ detour? 2 edges.now reach.now tail head }
{
    passes(reach, masks::mask_at(edges, 2 * tail, 0), 0, head)
        || passes(reach, masks::mask_at(edges, 2 * tail, 1), 64, head)
}

// A session of n vertices and no edges. Refused where n is 0 or more than 128, and then the session has no vertices.
pub fn start(n: usize) -> Result<Session, Refused>
    ensures { StartPromise n (changed_of result) }
{
    if n == 0 || MOST_VERTICES < n {
        return Err(Refused {
            refusal: Refusal::Size,
            session: Session::blank(0),
        });
    }
    Ok(Session::blank(n))
}

impl Session {
    fn blank(n: usize) -> Session
        ensures { result ≡ blank n }
    {
        Session {
            vertices: n,
            count: 0,
            edges: [0; 256],
            reach: [0; 256],
        }
    }

    // Whether one of the two is no vertex.
    fn is_outside(&self, tail: usize, head: usize) -> bool
        ensures { result ≡ outside? self.now tail head }
    {
        let n = self.vertices.min(MOST_VERTICES);
        n <= tail || n <= head
    }

    // Whether the edge may be put in. Refused where an end is no vertex, the edge is in, it would close a cycle, or 4,096 edges are in: the
    // first that applies.
    fn allows(&self, tail: usize, head: usize) -> Result<(), Refusal>
        ensures value { number_in result ≡ refusal_of self.now tail head }
        ensures room { number_in result ≡ 0 → (tail < 128) × (head < 128) × (self.now.count < 4096) }
    {
        if self.is_outside(tail, head) {
            return Err(Refusal::Stranger);
        }
        if masks::contains(&self.edges, 2 * tail, head) {
            return Err(Refusal::Double);
        }
        if comes(&self.reach, head, tail) {
            return Err(Refusal::Ring);
        }
        if MOST_EDGES <= self.count {
            return Err(Refusal::Full);
        }
        Ok(())
    }

    // Puts in the edge from tail to head, where the session stands; refused as `allows` says, and then nothing changes.
    pub fn grow(&mut self, tail: usize, head: usize) -> Result<(), Refusal>
        ensures { AddPromise self.old tail head (record { refusal = number_in result; session = self.new }) }
    {
        self.allows(tail, head)?;
        self.count += 1;
        masks::insert(&mut self.edges, 2 * tail, head);
        link(&mut self.reach, tail, head);
        Ok(())
    }

    // The session with the edge from tail to head; refused as `allows` says.
    pub fn add(self, tail: usize, head: usize) -> Result<Session, Refused>
        ensures { AddPromise self tail head (changed_of result) }
    {
        let mut next = self;
        if let Err(refusal) = next.grow(tail, head) {
            return Err(Refused {
                refusal,
                session: next,
            });
        }
        Ok(next)
    }

    // How the tail reaches the head. Refused where one of them is no vertex.
    pub fn leads(self, tail: usize, head: usize) -> Result<Connection, Refusal>
        ensures { LeadsPromise self tail head (reply_of result) }
    {
        if self.is_outside(tail, head) {
            return Err(Refusal::Stranger);
        }
        let edge = masks::contains(&self.edges, 2 * tail, head);
        Ok(reach::connected(edge, detour(&self.edges, &self.reach, tail, head)))
    }
}
