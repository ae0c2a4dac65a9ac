// Columns by blocks (SPECIFICATION.md, 8.1).
ghost use Rattle.std.specs.Prelude.{◌≡◌, ℕ, ◌*◌, ◌≤◌, ◌<◌, length, get_or, replicate};
ghost use Rattle.counting.specs.Quads.{quad};
ghost use Rattle.specification.specs.Geometry.{even_gaps, block_start};
ghost use Rattle.specification.specs.Limits.{page_columns};
ghost use Rattle.chart_plan.specs.Steps.{Tabled, Owns, Spaceable, Spaced};

// Columns kept free on either side of a channel's own.
const GAP: u16 = 1;

// The own columns of the channels, by the tracks of each, block after block from column 0: tracks, a gap, the own column, a gap. The columns
// of all blocks.
fn own_columns(tracks: &[u16], own: &mut [u16]) -> u16
    requires { (length tracks.now ≤ 128) × (own.old ≡ replicate 128 0) × (block_start (even_gaps (λ l. get_or tracks.now l 0)) (length tracks.now) ≤ page_columns) }
    ensures { Owns (even_gaps (λ l. get_or tracks.now l 0)) (length tracks.now) own.new result }
{
    let mut start: u16 = 0;
    for (l, &count) in tracks.iter().enumerate() {
        let x = start + count + GAP;
        own[l] = x;
        start = x + 1 + GAP;
    }
    start
}

// Each vertex stands in its channel's own column.
fn vertex_columns(places: &[u8], own: &[u16], columns: &mut [u16])
    requires { (4 * length columns.old ≤ length places.now) × (length own.now ≡ 128) × ((v : ℕ) → v < length columns.old → quad 0 places.now v < 128) }
    ensures { Tabled columns.old (λ v. get_or own.now (quad 0 places.now v) 0) (length columns.old) columns.new }
{
    for (v, column) in columns.iter_mut().enumerate() {
        *column = own[places[4 * v] as usize];
    }
}

// The columns of n vertices by their channels, and the columns of all blocks, by the tracks of each channel.
// lengths beside lists: `Spaceable` speaks of the room of the whole lists
pub(crate) fn columns_of(
    n: usize,
    channels: usize,
    places: &[u8],
    tracks: &[u16],
    column: &mut [u16],
) -> u16
    requires { Spaceable n channels places.now tracks.now column.old }
    ensures { Spaced n channels places.now tracks.now column.old column.new result }
{
    let mut own = [0; 128];
    let width = own_columns(&tracks[..channels], &mut own);
    vertex_columns(places, &own, &mut column[..n]);
    width
}
