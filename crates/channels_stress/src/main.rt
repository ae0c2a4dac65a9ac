// Plans, a thousand times each, an order in which every search moves every predecessor, 64 deep, and a table that is no graph's, 128
// deep, and writes the number of channels of each.
#![tactic(auto)]

use std::io;

// Has u lead to each v of `first` or more with u + v below 128.
fn lead(table: &mut [u64], u: usize, first: usize) {
    let row = u % 128;
    for v in first..128 - row {
        masks::insert(table, 2 * row, v);
    }
}

// The table in which each of the first vertices leads so.
fn slanted(rows: usize, first: usize) -> [u64; 256] {
    let mut table = [0; 256];
    for u in 0..rows {
        lead(&mut table, u, first);
    }
    table
}

// The number of channels, planned as often as asked.
fn counted(table: [u64; 256], often: usize) -> u64 {
    let mut places = [0u8; 512];
    let mut last: u64 = 0;
    for _ in 0..often {
        last = channels::plan(128, &table, &mut places).map_or(0, u64::from);
    }
    last
}

fn main(rt: HostRuntime) -> io::Result<()> {
    let leading = counted(slanted(64, 64), 1000);
    println!(rt; "{leading}")?;
    let full = counted(slanted(128, 0), 1000);
    println!(rt; "{full}")
}
