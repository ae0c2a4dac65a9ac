// Scripts of a session: lines of text, read byte by byte, and what each of them does to the session. A line is `words N`, `add U V` or
// `leads U V`; no line is ever kept, so that it may be of any length.
#![tactic(auto)]

ghost use Rattle.std.specs.Prelude.{◌≡◌, ◌≤◌, length};
ghost use Rattle.script.specs.Scanning.{advanced, appended, extended, part_after, within, scanned, begun, order_of, finished};
ghost use Rattle.script.specs.Performing.{PerformPromise};
ghost use Rattle.script.specs.Printing.{outcome_text};

use editing::{Refused, Session};
use specification::{Connection, Refusal};
use std::fmt;

// A larger number counts as this one: more than the most vertices, so that every call answers it alike.
const LARGEST: usize = 129;

// A part as a decimal number: no byte yet, the value so far, or a byte that is no digit.
// Three cases: an option of a result would tell the same with less said.
#[derive(Clone, Copy)]
pub enum Numeral {
    Empty,
    Value(usize),
    Bad,
}

// The parts of a line: the name, two numbers, and whatever follows.
#[derive(Clone, Copy)]
pub enum Part {
    Name,
    First,
    Second,
    Rest,
}

// A line, as far as it is read: the part that is read, how many bytes of each name its first part has matched, if no other byte came, and
// the numbers.
#[derive(Clone, Copy)]
pub struct Scanner {
    pub part: Part,
    pub words: Option<usize>,
    pub add: Option<usize>,
    pub leads: Option<usize>,
    pub first: Numeral,
    pub second: Numeral,
}

// What a line orders. A line that cannot be read is a case, as in `Order`, and no refusal: it is answered, and has no number (14.3).
#[derive(Clone, Copy)]
pub enum Command {
    Words(usize),
    Add(usize, usize),
    Leads(usize, usize),
    Unreadable,
}

// What a command comes to. A line that cannot be read is a case here too, as in `Command`.
#[derive(Clone, Copy)]
pub enum Outcome {
    Done,
    Refused(Refusal),
    Told(Connection),
    Unreadable,
}

// A refusal as it is printed: `refused` and its number.
fn refused_text(refusal: Refusal) -> &'static str
    ensures text { result.now ≡ outcome_text (Outcome.Refused refusal) }
    ensures few { length result.now ≤ 10 }
{
    match refusal {
        Refusal::Layout => "refused 1",
        Refusal::Size => "refused 2",
        Refusal::Stranger => "refused 3",
        Refusal::Double => "refused 4",
        Refusal::Ring => "refused 5",
        Refusal::Cover => "refused 6",
        Refusal::Broken => "refused 7",
        Refusal::Short => "refused 8",
        Refusal::Full => "refused 9",
        Refusal::OffPage => "refused 10",
        Refusal::Broad => "refused 11",
        Refusal::Floor => "refused 12",
    }
}

impl Outcome {
    // An outcome as it is printed (14.3): a text that is there already, so that none has to be made.
    pub fn text(self) -> &'static str
        ensures text { result.now ≡ outcome_text self }
        ensures few { length result.now ≤ 10 }
    {
        match self {
            Outcome::Done => "ok",
            Outcome::Refused(refusal) => refused_text(refusal),
            Outcome::Told(Connection::Unreached) => "no",
            Outcome::Told(Connection::EdgeOnly) => "arrow",
            Outcome::Told(Connection::LongerOnly) => "longer",
            Outcome::Told(Connection::Both) => "both",
            Outcome::Unreadable => "unreadable",
        }
    }
}

impl fmt::Display for Outcome {
    ghost use Rattle.std.specs.Prelude.{Some};
    ghost use Rattle.script.specs.Printing.{outcome_text};

    ghost output = { λ o. Some (outcome_text o) };

    fn fmt<W: fmt::Write>(&self, f: &mut fmt::Formatter<W>) -> fmt::Result {
        f.write_str(self.text())
    }
}

// What a command comes to, and the session after it.
#[derive(Clone, Copy)]
pub struct Performed {
    pub outcome: Outcome,
    pub session: Session,
}

// How many bytes of the name are matched, after one byte more.
#[tactic(auto, unfolding(crate::specs::Scanning::advanced))]
fn advance(name: &[u8], matched: Option<usize>, byte: u8) -> Option<usize>
    ensures { result ≡ advanced name.now matched byte }
{
    match matched {
        Some(i) if i < name.len() && name[i] == byte => Some(i + 1),
        _ => None,
    }
}

// The digit after those of v.
fn append(v: usize, byte: u8) -> Numeral
    ensures { result ≡ appended v byte }
{
    if byte < b'0' || b'9' < byte {
        return Numeral::Bad;
    }
    let digit = (byte - b'0') as usize;
    Numeral::Value((v.min(LARGEST) * 10 + digit).min(LARGEST))
}

impl Numeral {
    // The number with one byte more.
    fn extend(self, byte: u8) -> Numeral
        ensures { result ≡ extended self byte }
    {
        match self {
            Numeral::Empty => append(0, byte),
            Numeral::Value(v) => append(v, byte),
            Numeral::Bad => Numeral::Bad,
        }
    }
}

impl Part {
    // The part after a blank.
    fn next(self) -> Part
        ensures { result ≡ part_after self }
    {
        match self {
            Part::Name => Part::First,
            Part::First => Part::Second,
            Part::Second | Part::Rest => Part::Rest,
        }
    }
}

impl Scanner {
    // The begin of a line.
    pub fn new() -> Scanner
        ensures { result ≡ begun }
    {
        Scanner {
            part: Part::Name,
            words: Some(0),
            add: Some(0),
            leads: Some(0),
            first: Numeral::Empty,
            second: Numeral::Empty,
        }
    }

    // One byte more of the line, read where the line stands: what it doesn't change stays untouched. The part that is read then.
    #[tactic(auto, unfolding(crate::specs::Scanning::scanned, crate::specs::Scanning::next_part, crate::specs::Scanning::within))]
    pub fn read(&mut self, byte: u8) -> Part
        ensures line { self.new ≡ scanned self.old byte }
        ensures part { result ≡ self.new.part }
    {
        if byte == b' ' {
            self.part = self.part.next();
            return self.part;
        }
        match self.part {
            Part::Name => {
                self.words = advance(b"words", self.words, byte);
                self.add = advance(b"add", self.add, byte);
                self.leads = advance(b"leads", self.leads, byte);
            }
            Part::First => self.first = self.first.extend(byte),
            Part::Second => self.second = self.second.extend(byte),
            Part::Rest => {}
        }
        self.part
    }

    // The same by value.
    pub fn step(self, byte: u8) -> Scanner
        ensures { result ≡ scanned self byte }
    {
        let mut next = self;
        next.read(byte);
        next
    }

    // The command of the line, which ends here.
    #[tactic(auto, unfolding(crate::specs::Scanning::order_of, crate::specs::Scanning::finished, crate::specs::Scanning::finished_one, crate::specs::Scanning::finished_two))]
    pub fn finish(self) -> Command
        ensures { order_of result ≡ finished self }
    {
        match (self.part, self.first, self.second) {
            (Part::First, Numeral::Value(n), _) if self.words == Some(5) => Command::Words(n),
            (Part::Second, Numeral::Value(u), Numeral::Value(v)) if self.add == Some(3) => {
                Command::Add(u, v)
            }
            (Part::Second, Numeral::Value(u), Numeral::Value(v)) if self.leads == Some(5) => {
                Command::Leads(u, v)
            }
            _ => Command::Unreadable,
        }
    }
}

// A call that starts or changes a session, as it is said, with the session after it.
impl From<Result<Session, Refused>> for Performed {
    ghost use Rattle.script.specs.Performing.{IsChange};

    ghost from_gives = { IsChange };

    #[tactic(auto, using(crate::proofs::Said::said_change), unfolding(crate::specs::Performing::said_of, specification::specs::Machine::answer_number, editing::specs::Promise::change_answer))]
    fn from(change: Result<Session, Refused>) -> Performed {
        match change {
            Ok(session) => Performed {
                outcome: Outcome::Done,
                session,
            },
            Err(refused) => Performed {
                outcome: Outcome::Refused(refused.refusal),
                session: refused.session,
            },
        }
    }
}

// A call that changes a session where it stands, as it is said.
impl From<Result<(), Refusal>> for Outcome {
    ghost use Rattle.script.specs.Performing.{IsGrowth};

    ghost from_gives = { IsGrowth };

    #[tactic(auto, using(crate::proofs::Said::said_change), unfolding(crate::specs::Performing::said_of, specification::specs::Machine::answer_number, editing::specs::Promise::change_answer))]
    fn from(growth: Result<(), Refusal>) -> Outcome {
        match growth {
            Ok(()) => Outcome::Done,
            Err(refusal) => Outcome::Refused(refusal),
        }
    }
}

// A question's answer, as it is said.
impl From<Result<Connection, Refusal>> for Outcome {
    ghost use Rattle.script.specs.Performing.{IsReply};

    ghost from_gives = { IsReply };

    #[tactic(auto, using(crate::proofs::Said::said_reply), unfolding(crate::specs::Performing::said_of, specification::specs::Machine::answer_number, editing::specs::Promise::reply_answer))]
    fn from(reply: Result<Connection, Refusal>) -> Outcome {
        match reply {
            Ok(connection) => Outcome::Told(connection),
            Err(refusal) => Outcome::Refused(refusal),
        }
    }
}

// What the command does to the session.
// A switch over what is ordered: a match over an enum, and no table of steps.
pub fn perform(mut s: Session, command: Command) -> Performed
    ensures { PerformPromise s command result }
{
    match command {
        Command::Words(n) => Performed::from(editing::start(n)),
        Command::Add(u, v) => Performed {
            outcome: Outcome::from(s.grow(u, v)),
            session: s,
        },
        Command::Leads(u, v) => Performed {
            outcome: Outcome::from(s.leads(u, v)),
            session: s,
        },
        Command::Unreadable => Performed {
            outcome: Outcome::Unreadable,
            session: s,
        },
    }
}
