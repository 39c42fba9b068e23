// The line table of a network.
ghost use Rattle.std.specs.Prelude.{◌+◌, ◌<◌, ◌≤◌};

use crate::{MOST, Small};

// Entries for the bus count, the needs, the weights, the row starts, and as many neighbours of each bus as there are buses.
pub const ENTRIES: usize = 1 + MOST + MOST + (MOST + 1) + MOST * MOST;

// Lays the neighbours of a bus from a place on, and gives the place behind them.
fn lay_row(table: &mut [u16; ENTRIES], small: Small, bus: usize, start: usize) -> usize
    requires { (small.buses ≤ MOST) × (bus < MOST) × (start + MOST ≤ ENTRIES) }
    ensures { (start ≤ result) × (result ≤ start + MOST) }
{
    let mut place = start;
    for other in 0..small.buses {
        if small.neighbours[bus].has(other) {
            table[place] = other as u16;
            place += 1;
        }
    }
    place
}

// Lays the row starts, of which the first stays 0, and the rows.
fn lay_rows(table: &mut [u16; ENTRIES], small: Small)
    requires { small.buses ≤ MOST }
{
    let starts = 1 + 2 * small.buses;
    let links = starts + small.buses + 1;
    let mut place = links;
    for bus in 0..small.buses {
        place = lay_row(table, small, bus, place);
        table[starts + bus + 1] = (place - links) as u16;
    }
}

pub fn table(small: Small) -> [u16; ENTRIES]
    requires { small.buses ≤ MOST }
{
    let buses = small.buses;
    let mut table = [0u16; ENTRIES];
    table[0] = buses as u16;
    table[1..1 + buses].copy_from_slice(&small.needs[..buses]);
    table[1 + buses..1 + 2 * buses].copy_from_slice(&small.weights[..buses]);
    lay_rows(&mut table, small);
    table
}
