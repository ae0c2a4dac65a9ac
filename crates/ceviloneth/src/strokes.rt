// A polyline as numbers.
ghost use Rattle.std.specs.Prelude.{◌≡◌};
ghost use Rattle.specification.specs.Page.{answer_of};
ghost use Rattle.specification.specs.Strokes.{cell, stroke_for};

use specification::{Cell, Point, Polyline, Refusal, Stroke};

// Stands for a point that a stroke has not.
const NOWHERE: Point = Point { x: 0.0, y: 0.0 };

pub(crate) fn cell(column: u32, row: u32) -> Cell
    ensures { result ≡ cell column row }
{
    Cell { column, row }
}

// A polyline as the struct for C.
// No From: both types are another crate's.
pub(crate) fn stroke_of(p: Polyline) -> Stroke
    ensures { result ≡ stroke_for (answer_of p) }
{
    let (refusal, points, [a, b, c, d]) = match p {
        Polyline::Straight(a, b) => (0, 2, [a, b, NOWHERE, NOWHERE]),
        Polyline::Bent(a, b, c) => (0, 3, [a, b, c, NOWHERE]),
        Polyline::Side(a, b, c, d) => (0, 4, [a, b, c, d]),
        Polyline::OffPage => (u8::from(Refusal::OffPage), 0, [NOWHERE; 4]),
    };
    Stroke {
        refusal,
        points,
        x0: a.x,
        y0: a.y,
        x1: b.x,
        y1: b.y,
        x2: c.x,
        y2: c.y,
        x3: d.x,
        y3: d.y,
    }
}
