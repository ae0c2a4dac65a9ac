// Draws a few polylines and checks what comes back, from what `page` promises.
#![tactic(auto)]

ghost use Rattle.std.specs.Prelude.{◌≡◌};
ghost use Rattle.specification.specs.Page.{answer_of};
ghost use Rattle.page_test.specs.Begins.{begins_at};

use specification::{Cell, Point, Polyline};

// The number of a polyline (SPECIFICATION.md, 12.2): 10 off the page, else 0.
// A number for a case: it is what the test compares.
fn number(r: Polyline) -> u32
    ensures { result ≡ (answer_of r).number }
{
    match r {
        Polyline::OffPage => 10,
        _ => 0,
    }
}

// Whether a polyline begins at these points across and up.
fn begins_at(r: Polyline, x: f32, y: f32) -> bool
    ensures { result ≡ begins_at (answer_of r).points x y }
{
    match r {
        Polyline::Straight(p, ..) | Polyline::Bent(p, ..) | Polyline::Side(p, ..) => {
            p.x == x && p.y == y
        }
        Polyline::OffPage => false,
    }
}

fn main() {
    let three = Cell { column: 3, row: 3 };
    let last = Cell {
        column: 639,
        row: 254,
    };
    let right = Cell {
        column: 640,
        row: 0,
    };
    let above = Cell {
        column: 0,
        row: 255,
    };
    check::expect(begins_at(page::straight(three, last), 31.5, 84.75));
    check::expect(begins_at(page::bent(last, three, last), 6709.5, 7175.5));
    check::expect(number(page::straight(right, last)) == 10);
    check::expect(number(page::bent(three, last, above)) == 10);
    check::expect(number(page::side(three, last, last, three)) == 0);
}
