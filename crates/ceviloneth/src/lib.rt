// The engine for apps: calls for C and Rust, on numbers and lists of numbers alone. No argument is asked to be sound: each call answers
// for any numbers and any lists, and a refusal, a number of SPECIFICATION.md, 13, leaves every lent list as it was.
#![tactic(auto)]

ghost use Rattle.std.specs.Prelude.{◌≡◌, [], ◌∷◌};
ghost use Rattle.chart_numbers.specs.Chart.{HandedFlat};
ghost use Rattle.specification.specs.Asked.{leading_of, asked};
ghost use Rattle.ceviloneth.specs.State.{Starts, Adds, Tells};
ghost use Rattle.ceviloneth.specs.Strokes.{Drawn};
ghost use Rattle.ceviloneth.specs.Version.{version};
ghost use Rattle.specification.specs.Strokes.{cell};

mod state;
mod strokes;

use specification::{ChartCounts, Leading, Refusal, Stroke};
use state::{STATE_NUMBERS, fill_state, session_of, store, told};
use strokes::{cell, stroke_of};

const VERSION: u32 = 5;

// The version of the interface, so that an app can refuse a library that was made by another header.
#[unsafe(no_mangle)]
pub extern "C" fn ceviloneth_version() -> u32
    ensures { result ≡ version }
{
    VERSION
}

// The chart of a record into three lists. A word has six numbers: line, position, column, row, descendants, floor; an arrow five: its
// number, its kind (0 spine, 1 side, 2 straight, 3 bent), the bundle or the bend's column, the bend's row, 1 if implied; a bundle four:
// line, the first and the last row, side column (SPECIFICATION.md, 9.4). Refused with 1, 2, 12 and 3 to 7 as the record is, with 11 where
// it has more than 31 lines, and then with 8 where a list has no room for all its entries. Numbers past the last entry stay.
#[unsafe(no_mangle)]
pub extern "C" fn ceviloneth_chart(
    bytes: &[u8],
    words: &mut [u16],
    arrows: &mut [u16],
    bundles: &mut [u16],
) -> ChartCounts
    ensures { HandedFlat bytes.now words.old arrows.old bundles.old result words.new arrows.new bundles.new }
{
    chart_numbers::of_record(bytes, words, arrows, bundles)
}

// How one word of a record leads to another: 0 not at all, 1 by an arrow only, 2 by longer routes (two arrows or more) only, 3 by both.
// Refused with 1, 2, 12 and 3 to 7 as the record is, and with 3 where one of the two is no word of it; a record whose chart is broad is answered for.
#[unsafe(no_mangle)]
pub extern "C" fn ceviloneth_leads(bytes: &[u8], from: usize, to: usize) -> Leading
    ensures { result ≡ leading_of (asked bytes.now from to) }
{
    told(record::reading::ask(bytes, from, to))
}

// ---- sessions, in a list that the app keeps: 514 numbers, of which the first two count words and arrows, 256 are masks of arrows and 256
// of descent. A shorter list is refused with 8, before anything else.

// A session of so many words and no arrows. Refused with 2 (no word, or more than 128).
#[unsafe(no_mangle)]
pub extern "C" fn ceviloneth_session_start(state: &mut [u64], words: usize) -> u8
    ensures { Starts state.old words result state.new }
{
    if state.len() < STATE_NUMBERS {
        return u8::from(Refusal::Short);
    }
    store(state, editing::start(words))
}

// Adds the arrow. Refused with 3, 4, 5 or 9, the first that applies.
#[unsafe(no_mangle)]
pub extern "C" fn ceviloneth_session_add(state: &mut [u64], from: usize, to: usize) -> u8
    ensures { Adds state.old from to result state.new }
{
    if state.len() < STATE_NUMBERS {
        return u8::from(Refusal::Short);
    }
    let mut session = session_of(state);
    if let Err(refusal) = session.grow(from, to) {
        return u8::from(refusal);
    }
    fill_state(state, &session);
    0
}

// How the first word leads to the second, by the same four numbers. Refused with 3.
#[unsafe(no_mangle)]
pub extern "C" fn ceviloneth_session_leads(state: &[u64], from: usize, to: usize) -> Leading
    ensures { Tells state.now from to result }
{
    if state.len() < STATE_NUMBERS {
        return told(Err(Refusal::Short));
    }
    told(session_of(state).leads(from, to))
}

// ---- page strokes

// The stroke from one place to another, each a column and a row. Like the other two it is refused with 10 where a place is off the page.
#[unsafe(no_mangle)]
pub extern "C" fn ceviloneth_stroke_straight(c0: u32, r0: u32, c1: u32, r1: u32) -> Stroke
    ensures { Drawn (cell c0 r0 ∷ cell c1 r1 ∷ []) result }
{
    stroke_of(page::straight(cell(c0, r0), cell(c1, r1)))
}

// The stroke that bends at the second place.
#[unsafe(no_mangle)]
pub extern "C" fn ceviloneth_stroke_bent(
    c0: u32,
    r0: u32,
    c1: u32,
    r1: u32,
    c2: u32,
    r2: u32,
) -> Stroke
    ensures { Drawn (cell c0 r0 ∷ cell c1 r1 ∷ cell c2 r2 ∷ []) result }
{
    stroke_of(page::bent(cell(c0, r0), cell(c1, r1), cell(c2, r2)))
}

// The stroke of a side arrow, with corners at the second and third places.
#[unsafe(no_mangle)]
pub extern "C" fn ceviloneth_stroke_side(
    c0: u32,
    r0: u32,
    c1: u32,
    r1: u32,
    c2: u32,
    r2: u32,
    c3: u32,
    r3: u32,
) -> Stroke
    ensures { Drawn (cell c0 r0 ∷ cell c1 r1 ∷ cell c2 r2 ∷ cell c3 r3 ∷ []) result }
{
    stroke_of(page::side(cell(c0, r0), cell(c1, r1), cell(c2, r2), cell(c3, r3)))
}
