// The test of rows: whether n rows of neighbour numbers are as the rows of a line table must be, but for their mirrors.
ghost use Rattle.std.specs.Prelude.{◌≡◌, ◌&&◌, ◌≤◌, ◌<◌, length};
ghost use Rattle.lists.specs.Lists.{at};
ghost use Rattle.table_spec.specs.Holds.{never_fall, short_rows, valid_row, valid_rows, sound_rows, Spans};

use network::Network;
use network::rows::{entry, row_at};

// Whether none of n rows ends before it starts, or is too long.
fn spans(starts: &[u16], n: usize) -> bool
    requires { n < length starts.now }
    ensures { result ≡ (never_fall n starts.now && short_rows n starts.now) }
{
    (0..n).all(|bus| {
        let start = entry(starts, bus);
        let end = entry(starts, bus + 1);
        start <= end && end <= start + Network::LINES_AT_BUS
    })
}

// Whether this may be the row of a bus among n: its numbers are below n, never the bus, and ascend.
fn valid_row(row: &[u16], n: usize, bus: usize) -> bool
    ensures { result ≡ valid_row n bus row.now }
{
    let mut least = 0;
    for &neighbour in row {
        let neighbour = neighbour as usize;
        if neighbour >= n || neighbour == bus || neighbour < least {
            return false;
        }
        least = neighbour + 1;
    }
    true
}

// Whether each of n rows is valid.
fn valid_rows(starts: &[u16], numbers: &[u16], n: usize) -> bool
    requires { Spans n starts.now numbers.now }
    ensures { result ≡ valid_rows n starts.now numbers.now }
{
    (0..n).all(|bus| valid_row(row_at(starts, numbers, bus), n, bus))
}

// Whether n rows are as the rows of a line table must be, but for their mirrors.
pub fn sound_rows(starts: &[u16], numbers: &[u16], n: usize) -> bool
    requires { (n < length starts.now) × (at starts.now n ≤ length numbers.now) }
    ensures { result ≡ sound_rows n starts.now numbers.now }
{
    entry(starts, 0) == 0 && spans(starts, n) && valid_rows(starts, numbers, n)
}
