// Cells of a chart as points on a page, exactly, and polylines through them (SPECIFICATION.md, 12).
#![tactic(auto)]

ghost use Rattle.std.specs.Prelude.{◌≡◌, false, [], ◌∷◌, ◌<◌, ◌^◌};
ghost use Rattle.specification.specs.Page.{to_points, off_page, Answers};
ghost use Rattle.page.specs.Places.{place_of};

use specification::{Cell, Point, Polyline};

// How many columns and rows the page has, and how far apart they are in quarter points.
const COLUMNS: u32 = 640;

const ROWS: u32 = 255;

const COLUMN_PITCH: u32 = 42;

const ROW_PITCH: u32 = 113;

// A quarter point, in points.
const QUARTER: f32 = 0.25;

// n quarter points, in points: below 2 ^ 24 the cast loses nothing, and the product is exact.
fn quarters(n: u32) -> f32
    requires { n < 2 ^ 24 }
    ensures { result ≡ to_points n }
{
    n as f32 * QUARTER
}

// Whether the column or the row is beyond the page.
fn off_page(cell: Cell) -> bool
    ensures { result ≡ off_page cell }
{
    (COLUMNS <= cell.column) | (ROWS <= cell.row)
}

// Where a cell is, if it is on the page.
fn point_at(cell: Cell) -> Option<Point>
    ensures { result ≡ place_of cell }
{
    if off_page(cell) {
        return None;
    }
    Some(Point {
        x: quarters(cell.column * COLUMN_PITCH),
        y: quarters(cell.row * ROW_PITCH),
    })
}

// The line from a to b. Like the other two it is off the page where any of its cells is.
pub fn straight(a: Cell, b: Cell) -> Polyline
    ensures { Answers (a ∷ b ∷ []) result }
{
    match (point_at(a), point_at(b)) {
        (Some(a), Some(b)) => Polyline::Straight(a, b),
        _ => Polyline::OffPage,
    }
}

// The line from a to c that bends at b.
pub fn bent(a: Cell, b: Cell, c: Cell) -> Polyline
    ensures { Answers (a ∷ b ∷ c ∷ []) result }
{
    match (point_at(a), point_at(b), point_at(c)) {
        (Some(a), Some(b), Some(c)) => Polyline::Bent(a, b, c),
        _ => Polyline::OffPage,
    }
}

// The line from a to d with corners at b and c, in a side column.
pub fn side(a: Cell, b: Cell, c: Cell, d: Cell) -> Polyline
    ensures { Answers (a ∷ b ∷ c ∷ d ∷ []) result }
{
    match (point_at(a), point_at(b), point_at(c), point_at(d)) {
        (Some(a), Some(b), Some(c), Some(d)) => Polyline::Side(a, b, c, d),
        _ => Polyline::OffPage,
    }
}
