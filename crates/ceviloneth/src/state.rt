// A session as a list of numbers.
ghost use Rattle.std.specs.Prelude.{◌≡◌, ◌≤◌, length};
ghost use Rattle.specification.specs.Asked.{reply_of, leading_of};
ghost use Rattle.editing.specs.Promise.{changed_of};
ghost use Rattle.ceviloneth.specs.State.{session_of};
ghost use Rattle.ceviloneth.specs.Steps.{Stored, Changes};

use editing::{Refused, Session};
use specification::{Connection, Leading, Refusal};

// How many numbers a session has: words, arrows, 256 masks of arrows, 256 of descent.
pub(crate) const STATE_NUMBERS: usize = 514;

// Where the masks of descent begin.
const REACH: usize = 258;

// The session that a list spells.
// A conversion, and no From: the list has to be long enough. So is `fill_state`.
pub(crate) fn session_of(state: &[u64]) -> Session
    requires { 514 ≤ length state.now }
    ensures { result ≡ session_of state.now }
{
    let mut edges = [0; 256];
    let mut reach = [0; 256];
    edges.copy_from_slice(&state[2..REACH]);
    reach.copy_from_slice(&state[REACH..STATE_NUMBERS]);
    Session {
        vertices: state[0] as usize,
        count: state[1] as usize,
        edges,
        reach,
    }
}

// Writes a session into a list.
pub(crate) fn fill_state(out: &mut [u64], s: &Session)
    requires { 514 ≤ length out.old }
    ensures { Stored out.old s.now out.new }
{
    out[0] = s.vertices as u64;
    out[1] = s.count as u64;
    out[2..REACH].copy_from_slice(&s.edges);
    out[REACH..STATE_NUMBERS].copy_from_slice(&s.reach);
}

// Writes the session of a change into a list, unless it is refused, and tells the refusal's number, or 0.
// A refusal as a number: C gets it.
pub(crate) fn store(out: &mut [u64], change: Result<Session, Refused>) -> u8
    requires { 514 ≤ length out.old }
    ensures { Changes out.old (changed_of change) result out.new }
{
    match change {
        Ok(session) => {
            fill_state(out, &session);
            0
        }
        Err(refused) => u8::from(refused.refusal),
    }
}

// An answer as two numbers.
// No From: both types are other crates'.
pub(crate) fn told(answer: Result<Connection, Refusal>) -> Leading
    ensures { result ≡ leading_of (reply_of answer) }
{
    match answer {
        Ok(connection) => Leading {
            refusal: 0,
            leads: u8::from(connection),
        },
        Err(refusal) => Leading {
            refusal: u8::from(refusal),
            leads: 0,
        },
    }
}
