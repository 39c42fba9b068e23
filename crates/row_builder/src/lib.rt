// Row starts of a table from counts of neighbours, and rows that grow at their ends. Nothing here knows of a file.
#![tactic(auto)]

ghost use Rattle.std.specs.Prelude.{◌≡◌, ◌+◌, ◌≤◌, ◌<◌, ltb, length, set};
ghost use Rattle.lists.specs.Lists.{at, put};
ghost use Rattle.lists.specs.Below.{any_below, sum_below, map_below};
ghost use Rattle.table_spec.specs.Limits.{max_buses, max_degree};
ghost use Rattle.table_spec.specs.Holds.{needs_can_be_met};
ghost use Rattle.row_builder.specs.GrowingRows.{AllZero, RowStarts};

use network::{Network, can_be_met};

// A count of 0 for each bus.
pub fn zero_counts() -> [u16; Network::BUSES]
    ensures { AllZero result }
{
    [0; Network::BUSES]
}

// Adds 1 to the count of a bus.
pub fn increment(counts: &mut [u16; Network::BUSES], bus: usize)
    requires { (bus < max_buses) × (at counts.old bus < 65535) }
    ensures { counts.new ≡ set counts.old bus (at counts.old bus + 1) }
{
    counts[bus] += 1;
}

// Whether one of n buses has more neighbours than it may have lines.
pub fn degree_too_high(counts: &[u16; Network::BUSES], n: usize) -> bool
    requires { n ≤ max_buses }
    ensures { result ≡ any_below n (λ i. ltb max_degree (at counts.now i)) }
{
    counts[..n]
        .iter()
        .any(|&count| count as usize > Network::LINES_AT_BUS)
}

// Whether each bus can meet its need, having so many neighbours.
pub fn needs_can_be_met(needs: &[u8], counts: &[u16]) -> bool
    requires { length needs.now ≤ length counts.now }
    ensures { result ≡ needs_can_be_met (length needs.now) needs.now (at counts.now) }
{
    needs.iter().zip(counts).all(|(&need, &count)| can_be_met(need as usize, count as usize))
}

// Writes the row starts of n buses, which have so many neighbours, into the table from place `from` on. Each count becomes the start of its row.
// Gives how many numbers all rows have.
pub fn store_starts(
    counts: &mut [u16; Network::BUSES],
    n: usize,
    table: &mut [u16],
    from: usize,
) -> usize
    requires n_le_max_buses { (n ≤ max_buses) × (from + n + 1 ≤ length table.old) }
    requires counts_len { (length counts.old ≡ max_buses) × (sum_below n (at counts.old) < 65536) }
    ensures table_after { table.new ≡ put table.old from (map_below (n + 1) (λ i. sum_below i (at counts.old))) }
    ensures value { (result ≡ sum_below n (at counts.old)) × RowStarts n counts.old counts.new }
{
    let mut start = 0;
    for bus in 0..n {
        let count = counts[bus];
        counts[bus] = start;
        table[from + bus] = start;
        start += count;
    }
    table[from + n] = start;
    start as usize
}

// Writes x behind the numbers that the row of a bus has so far.
pub fn append(rows: &mut [u16], next: &mut [u16; Network::BUSES], bus: usize, x: u16)
    requires { (bus < max_buses) × (at next.old bus < length rows.old) × (at next.old bus < 65535) }
    ensures rows_after { rows.new ≡ set rows.old (at next.old bus) x }
    ensures next_after { next.new ≡ set next.old bus (at next.old bus + 1) }
{
    let place = next[bus];
    rows[place as usize] = x;
    next[bus] = place + 1;
}
