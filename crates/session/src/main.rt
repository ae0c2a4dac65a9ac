// Runs a script of a session: a line on standard input is `words N`, `add U V` or `leads U V`, and is answered by a line on standard
// output: `ok`, `refused` with the number, `unreadable`, or how U leads to V, `no`, `arrow`, `longer` or `both` (SPECIFICATION.md, 14.3).
#![tactic(auto)]

ghost use Rattle.std.specs.Prelude.{◌+◌, ◌≤◌, ◌≡◌, IfOk};

use editing::Session;
use script::{Outcome, Scanner};
use std::io;
use std::io::Read;
use text::Text;

// How many bytes a read gets at most, and answers wait for.
const BUFFER: usize = 65536;

// No answer is longer, with the end of its line.
const LINE: usize = 16;

// Answers that wait until there is no room for another: one call of the system writes many.
#[derive(Drop)]
struct Answers<'a, P> {
    rt: &'a P,
    text: Text<BUFFER>,
}

// Puts an answer, and the end of its line, behind those that wait: that there is room for it is proved.
fn put_answer(text: &mut Text<BUFFER>, outcome: Outcome)
    requires { text.old.used + 16 ≤ BUFFER }
    ensures { text.new.used ≤ text.old.used + 16 }
{
    text.push(outcome.text().as_bytes());
    text.push_byte(b'\n');
}

impl<P: Print> Answers<'_, P> {
    // Writes what waits, where less than a line's room is left. An error is the write's own.
    fn make_room(&mut self) -> io::Result<()>
        ensures { IfOk result (λ _. self.new.text.used + 16 ≤ BUFFER) }
    {
        if self.text.room() < LINE {
            self.flush()?;
        }
        Ok(())
    }

    fn flush(&mut self) -> io::Result<()>
        ensures { IfOk result (λ _. self.new.text.used ≡ 0) }
    {
        self.rt.write_all(self.text.as_bytes())?;
        self.text.clear();
        Ok(())
    }

    fn add(&mut self, outcome: Outcome) -> io::Result<()> {
        self.make_room()?;
        put_answer(&mut self.text, outcome);
        Ok(())
    }
}

// The session, the line that is being read, and whether it has a byte.
#[derive(Clone, Copy)]
struct State {
    session: Session,
    line: Scanner,
    begun: bool,
}

impl State {
    // A session of no vertices, before the first line.
    fn new() -> State {
        let session = editing::start(0).unwrap_or_else(|refused| refused.session);
        State {
            session,
            line: Scanner::new(),
            begun: false,
        }
    }

    // Answers the lines that end in the input.
    fn feed<P: Print>(&mut self, answers: &mut Answers<'_, P>, input: &[u8]) -> io::Result<()> {
        let mut line = self.line;
        for &byte in input {
            if byte == b'\n' {
                let done = script::perform(self.session, line.finish());
                self.session = done.session;
                line = Scanner::new();
                self.begun = false;
                answers.add(done.outcome)?;
            } else {
                line.read(byte);
                self.begun = true;
            }
        }
        self.line = line;
        answers.flush()
    }
}

fn main(rt: HostRuntime) -> io::Result<()> {
    let mut input = [0; BUFFER];
    let mut answers = Answers {
        rt: &rt,
        text: Text::new(),
    };
    let mut state = State::new();
    // More reads than any input has: the proof asks for a number that falls.
    for _ in 0..u64::MAX {
        let n = rt.stdin().read(&mut input)?;
        if n == 0 {
            break;
        }
        state.feed(&mut answers, &input[..n])?;
    }
    if state.begun {
        state.feed(&mut answers, b"\n")?;
    }
    Ok(())
}
