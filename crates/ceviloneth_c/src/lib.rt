// The archive that C links: the calls of `ceviloneth`, each under its own name and with its own promise. A crate that others use exports
// nothing itself.
#![tactic(auto)]

ghost use Rattle.std.specs.Prelude.{◌≡◌, [], ◌∷◌};
ghost use Rattle.chart_numbers.specs.Chart.{HandedFlat};
ghost use Rattle.specification.specs.Asked.{leading_of, asked};
ghost use Rattle.ceviloneth.specs.State.{Starts, Adds, Tells};
ghost use Rattle.ceviloneth.specs.Strokes.{Drawn};
ghost use Rattle.ceviloneth.specs.Version.{version};
ghost use Rattle.specification.specs.Strokes.{cell};

use specification::{ChartCounts, Leading, Stroke};

#[unsafe(no_mangle)]
pub extern "C" fn ceviloneth_version() -> u32
    ensures { result ≡ version }
{
    ceviloneth::ceviloneth_version()
}

#[unsafe(no_mangle)]
pub extern "C" fn ceviloneth_chart(
    bytes: &[u8],
    words: &mut [u16],
    arrows: &mut [u16],
    bundles: &mut [u16],
) -> ChartCounts
    ensures { HandedFlat bytes.now words.old arrows.old bundles.old result words.new arrows.new bundles.new }
{
    ceviloneth::ceviloneth_chart(bytes, words, arrows, bundles)
}

#[unsafe(no_mangle)]
pub extern "C" fn ceviloneth_leads(bytes: &[u8], from: usize, to: usize) -> Leading
    ensures { result ≡ leading_of (asked bytes.now from to) }
{
    ceviloneth::ceviloneth_leads(bytes, from, to)
}

#[unsafe(no_mangle)]
pub extern "C" fn ceviloneth_session_start(state: &mut [u64], words: usize) -> u8
    ensures { Starts state.old words result state.new }
{
    ceviloneth::ceviloneth_session_start(state, words)
}

#[unsafe(no_mangle)]
pub extern "C" fn ceviloneth_session_add(state: &mut [u64], from: usize, to: usize) -> u8
    ensures { Adds state.old from to result state.new }
{
    ceviloneth::ceviloneth_session_add(state, from, to)
}

#[unsafe(no_mangle)]
pub extern "C" fn ceviloneth_session_leads(state: &[u64], from: usize, to: usize) -> Leading
    ensures { Tells state.now from to result }
{
    ceviloneth::ceviloneth_session_leads(state, from, to)
}

#[unsafe(no_mangle)]
pub extern "C" fn ceviloneth_stroke_straight(c0: u32, r0: u32, c1: u32, r1: u32) -> Stroke
    ensures { Drawn (cell c0 r0 ∷ cell c1 r1 ∷ []) result }
{
    ceviloneth::ceviloneth_stroke_straight(c0, r0, c1, r1)
}

#[unsafe(no_mangle)]
pub extern "C" fn ceviloneth_stroke_bent(
    c0: u32,
    r0: u32,
    c1: u32,
    r1: u32,
    c2: u32,
    r2: u32,
) -> Stroke
    ensures { Drawn (cell c0 r0 ∷ cell c1 r1 ∷ cell c2 r2 ∷ []) result }
{
    ceviloneth::ceviloneth_stroke_bent(c0, r0, c1, r1, c2, r2)
}

#[unsafe(no_mangle)]
pub extern "C" fn ceviloneth_stroke_side(
    c0: u32,
    r0: u32,
    c1: u32,
    r1: u32,
    c2: u32,
    r2: u32,
    c3: u32,
    r3: u32,
) -> Stroke
    ensures { Drawn (cell c0 r0 ∷ cell c1 r1 ∷ cell c2 r2 ∷ cell c3 r3 ∷ []) result }
{
    ceviloneth::ceviloneth_stroke_side(c0, r0, c1, r1, c2, r2, c3, r3)
}
