// The types that are handed over, and the definitions of what is right (specs/, by the numbers of SPECIFICATION.md): all that a promise
// rests on.
#![tactic(auto)]

use std::fmt;

// Why a call is refused, by the names of SPECIFICATION.md, 13; the number of each is `refusal_number`.
#[derive(Clone, Copy, PartialEq, Eq)]
pub enum Refusal {
    Layout,
    Size,
    Stranger,
    Double,
    Ring,
    Cover,
    Broken,
    Short,
    Full,
    OffPage,
    Broad,
    Floor,
}

impl From<Refusal> for u8 {
    ghost use Rattle.specification.specs.Refusals.{IsNumberOf};

    ghost from_gives = { IsNumberOf };

    fn from(refusal: Refusal) -> u8 {
        match refusal {
            Refusal::Layout => 1,
            Refusal::Size => 2,
            Refusal::Stranger => 3,
            Refusal::Double => 4,
            Refusal::Ring => 5,
            Refusal::Cover => 6,
            Refusal::Broken => 7,
            Refusal::Short => 8,
            Refusal::Full => 9,
            Refusal::OffPage => 10,
            Refusal::Broad => 11,
            Refusal::Floor => 12,
        }
    }
}

// Its number.
impl fmt::Display for Refusal {
    ghost use Rattle.std.specs.Prelude.{Some};
    ghost use Rattle.specification.specs.Refusals.{refusal_text};

    ghost output = { λ refusal. Some (refusal_text refusal) };

    fn fmt<W: fmt::Write>(&self, f: &mut fmt::Formatter<W>) -> fmt::Result {
        write!(f, "{}", u8::from(*self))
    }
}

// A graph: so many vertices, the bytes of its edges' ends, tail and head in turn, the bytes of its given channels, if any are given, and its
// floors, if there are any.
#[derive(Clone, Copy)]
pub struct Graph<'a> {
    pub vertices: usize,
    pub ends: &'a [u8],
    pub given: Option<&'a [u8]>,
    pub floors: Option<&'a [u8]>,
}

// How a cross edge runs: straight, or with one bend at a column and a row. No Option of a bend: straight is a course, and no lack of one.
#[derive(Clone, Copy)]
pub enum Course {
    Straight,
    Bent(u16, u8),
}

// A vertex as it is handed over (9.2).
#[derive(Clone, Copy)]
pub struct VertexEntry {
    pub channel: u8,
    pub position: u8,
    pub column: u16,
    pub row: u8,
    pub descendants: u8,
    pub floor: u8,
}

// Where an edge bends.
#[derive(Clone, Copy)]
pub struct Bend {
    pub column: u16,
    pub row: u8,
}

// The kinds of edges (6.1, 8.4).
#[derive(Clone, Copy)]
pub enum Kind {
    Path,
    PathTransitive(u16),
    Straight,
    Bent(Bend),
}

// A kind as three numbers: its own, with its bundle or its bend. Numbers, since a list has them (9.4).
#[derive(Clone, Copy)]
pub struct Code {
    pub code: u8,
    pub value: u16,
    pub row: u8,
}

impl From<Kind> for Code {
    ghost use Rattle.specification.specs.Numbers.{IsCodeOf};

    ghost from_gives = { IsCodeOf };

    #[tactic(auto, unfolding(crate::specs::Numbers::code_of))]
    fn from(kind: Kind) -> Code {
        let (code, value, row) = match kind {
            Kind::Path => (0, 0, 0),
            Kind::PathTransitive(bundle) => (1, bundle, 0),
            Kind::Straight => (2, 0, 0),
            Kind::Bent(bend) => (3, bend.column, bend.row),
        };
        Code { code, value, row }
    }
}

// An edge as it is handed over, with its mark (5.1).
#[derive(Clone, Copy)]
pub struct EdgeEntry {
    pub number: u16,
    pub kind: Kind,
    pub transitive: bool,
}

// A bundle as it is handed over: its channel, its rows, both included, and its track.
#[derive(Clone, Copy)]
pub struct BundleEntry {
    pub channel: u8,
    pub first_row: u8,
    pub last_row: u8,
    pub track: u8,
}

// What a call for a chart answers (9.1), in the publisher's words: its number, or 0; how many entries each list got; the other counts, and the side
// columns of each line, 0 past the last. Every number but the first is 0 where the chart is refused. Numbers for refusals here and in the other
// structs for C: its header fixes them.
#[repr(C)]
#[derive(Clone, Copy)]
pub struct ChartCounts {
    pub refusal: u8,
    pub words: usize,
    pub arrows: usize,
    pub bundles: usize,
    pub rows: u8,
    pub lines: u8,
    pub firm: u16,
    pub width: u16,
    pub side_columns: [u16; 128],
}

// A whole column and row, on the page or not.
#[derive(Clone, Copy)]
pub struct Cell {
    pub column: u32,
    pub row: u32,
}

// Points across and points up (12.1).
#[derive(Clone, Copy)]
pub struct Point {
    pub x: f32,
    pub y: f32,
}

// A line through two, three or four points, or that one of them would be off the page (12.2). Not Result: that one enum has the case for the
// refusal is the publisher's own form.
#[derive(Clone, Copy)]
pub enum Polyline {
    Straight(Point, Point),
    Bent(Point, Point, Point),
    Side(Point, Point, Point, Point),
    OffPage,
}

// How one vertex reaches another (2.4): not at all, by an edge alone, by longer routes alone, of two edges or more each, or by both.
#[derive(Clone, Copy, PartialEq, Eq)]
pub enum Connection {
    Unreached,
    EdgeOnly,
    LongerOnly,
    Both,
}

impl From<Connection> for u8 {
    ghost use Rattle.specification.specs.Connection.{IsNumberOf};

    ghost from_gives = { IsNumberOf };

    fn from(connection: Connection) -> u8 {
        match connection {
            Connection::Unreached => 0,
            Connection::EdgeOnly => 1,
            Connection::LongerOnly => 2,
            Connection::Both => 3,
        }
    }
}

// For apps, in the publisher's words: the refusal, or 0, and how the first word leads to the second, 0 not at all, 1 by an arrow
// only, 2 by longer routes only, 3 by both; 0 where the call is refused.
#[repr(C)]
#[derive(Clone, Copy)]
pub struct Leading {
    pub refusal: u8,
    pub leads: u8,
}

// The refusal, or 0, how many points the stroke has, and the points across (x) and up (y); 0.0 where there is none.
#[repr(C)]
#[derive(Clone, Copy)]
pub struct Stroke {
    pub refusal: u8,
    pub points: u8,
    pub x0: f32,
    pub y0: f32,
    pub x1: f32,
    pub y1: f32,
    pub x2: f32,
    pub y2: f32,
    pub x3: f32,
    pub y3: f32,
}

// What a call that writes a record answers, in the publisher's words: its number, or 0, and how many bytes it wrote, 0 where it is refused.
#[repr(C)]
#[derive(Clone, Copy)]
pub struct WrittenBytes {
    pub refusal: u8,
    pub bytes: usize,
}
