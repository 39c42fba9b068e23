// Line tables in lent slices: where a table has what. Row starts begin at `from`.
ghost use Rattle.std.specs.Prelude.{ℕ, List, ◌≡◌, ◌+◌, ◌≤◌, ◌<◌, length};
ghost use Rattle.table_spec.specs.Limits.{max_buses, max_weight, max_lines};
ghost use Rattle.table_spec.specs.Layout.{bus_count, needs, weights_from, starts_from, weights, need, weight, starts, neighbour_numbers, starts_at, row, row_start, lines, table_entries};
ghost use Rattle.table_spec.specs.Holds.{Complete, Scorable, Holds};

use super::HeldNetwork;
use super::rows::{entry, row_at};
use std::marker::Model;

// How many buses.
pub fn bus_count(table: &[u16]) -> usize
    requires { 1 ≤ length table.now }
    ensures { (result ≡ bus_count table.now) × (result < 65536) }
{
    entry(table, 0)
}

// The needs.
pub fn needs(table: &[u16]) -> &[u16]
    requires { 1 + bus_count table.now ≤ length table.now }
    ensures { result.now ≡ needs table.now }
{
    let n = bus_count(table);
    &table[1..1 + n]
}

// Where the weights of n buses begin.
pub fn weights_from(n: usize) -> usize
    requires { n < 65536 }
    ensures { result ≡ weights_from n }
{
    1 + n
}

// Where the row starts of n buses begin.
pub fn starts_from(n: usize) -> usize
    requires { n < 65536 }
    ensures { result ≡ starts_from n }
{
    1 + 2 * n
}

// The weights.
pub fn weights(table: &[u16]) -> &[u16]
    requires { starts_at table.now ≤ length table.now }
    ensures { result.now ≡ weights table.now }
{
    let n = bus_count(table);
    let from = weights_from(n);
    let end = starts_from(n);
    &table[from..end]
}

// Where a network's row starts begin.
pub fn starts_at(table: &[u16]) -> usize
    requires { 1 ≤ length table.now }
    ensures { (result ≡ starts_at table.now) × (result ≤ 131072) }
{
    starts_from(bus_count(table))
}

// The row starts.
pub fn starts(table: &[u16], from: usize) -> &[u16]
    requires { Complete from table.now }
    ensures { result.now ≡ starts from table.now }
{
    let n = bus_count(table);
    &table[from..from + n + 1]
}

// The neighbour numbers.
pub fn neighbour_numbers(table: &[u16], from: usize) -> &[u16]
    requires { Complete from table.now }
    ensures { result.now ≡ neighbour_numbers from table.now }
{
    let n = bus_count(table);
    let first = from + n + 1;
    let end = first + entry(table, from + n);
    &table[first..end]
}

// How many entries the table of n buses and m lines has.
pub fn entries(n: usize, m: usize) -> usize
    requires { (n ≤ max_buses) × (m ≤ max_lines) }
    ensures { result ≡ table_entries n m }
{
    3 * n + 2 + 2 * m
}

// A line table that can be scored, whichever way its lines run: a lent slice that begins with one.
#[derive(Drop)]
pub struct Table<'a> {
    slice: &'a [u16],
    needs: &'a [u16],
    weights: &'a [u16],
    starts: &'a [u16],
    numbers: &'a [u16],
}

impl<'a> Model for Table<'a> {
    ghost use Rattle.std.specs.Prelude.{ℕ, List};
    ghost use Rattle.network.specs.TableParts.{TableParts};

    ghost Value = { List ℕ };

    ghost view = { λ t. t.slice.now };

    ghost invariant = { λ t. TableParts t.slice.now t.needs.now t.weights.now t.starts.now t.numbers.now };
}

impl<'a> Table<'a> {
    pub fn new(slice: &'a [u16]) -> Table<'a>
        requires { Scorable slice.now }
        ensures { result ≡ slice.now }
    {
        let from = starts_at(slice);
        Table {
            slice,
            needs: needs(slice),
            weights: weights(slice),
            starts: starts(slice, from),
            numbers: neighbour_numbers(slice, from),
        }
    }

    // How many buses.
    pub fn buses(&self) -> usize
        ensures value { result ≡ bus_count self.now }
        ensures small { result ≤ max_buses }
        ensures scorable { Scorable self.now }
    {
        self.needs.len()
    }

    // The needs.
    pub fn needs(&self) -> &'a [u16]
        ensures value { result.now ≡ needs self.now }
        ensures long { length result.now ≡ bus_count self.now }
    {
        self.needs
    }

    // The weights.
    pub fn weights(&self) -> &'a [u16]
        ensures value { result.now ≡ weights self.now }
        ensures long { length result.now ≡ bus_count self.now }
        ensures scorable { Scorable self.now }
    {
        self.weights
    }

    // The neighbour numbers.
    pub fn numbers(&self) -> &'a [u16]
        ensures { result.now ≡ neighbour_numbers (starts_at self.now) self.now }
    {
        self.numbers
    }

    // The neighbours of a bus.
    pub fn neighbours(&self, bus: usize) -> &'a [u16]
        requires { bus < bus_count self.now }
        ensures value { result.now ≡ row self.now bus }
        ensures scorable { Scorable self.now }
    {
        row_at(self.starts, self.numbers, bus)
    }

    // The need of a bus.
    pub fn need(&self, bus: usize) -> usize
        requires { bus < bus_count self.now }
        ensures { result ≡ need self.now bus }
    {
        entry(self.needs, bus)
    }

    // The weight of a bus.
    pub fn weight(&self, bus: usize) -> u64
        requires { bus < bus_count self.now }
        ensures { (result ≡ weight self.now bus) × (result ≤ max_weight) }
    {
        entry(self.weights, bus) as u64
    }

    // Where the neighbours of a bus begin in the slice.
    pub fn row_start(&self, bus: usize) -> usize
        requires { bus < bus_count self.now }
        ensures { result ≡ row_start self.now bus }
    {
        let first = starts_at(self.slice) + self.starts.len();
        first + entry(self.starts, bus)
    }
}

// Of a slice, for callers who know what it holds and have made no `Table` or `HeldNetwork` of it.

// The neighbours of a bus.
pub fn neighbours(table: &[u16], bus: usize) -> &[u16]
    requires { Scorable table.now × (bus < bus_count table.now) }
    ensures { result.now ≡ row table.now bus }
{
    let table = Table::new(table);
    table.neighbours(bus)
}

// The need of a bus.
pub fn need(table: &[u16], bus: usize) -> usize
    requires { Scorable table.now × (bus < bus_count table.now) }
    ensures { result ≡ need table.now bus }
{
    let table = Table::new(table);
    table.need(bus)
}

// The weight of a bus.
pub fn weight(table: &[u16], bus: usize) -> u64
    requires { Scorable table.now × (bus < bus_count table.now) }
    ensures { (result ≡ weight table.now bus) × (result ≤ max_weight) }
{
    let table = Table::new(table);
    table.weight(bus)
}

// Where the neighbours of a bus begin in the table.
pub fn row_start(table: &[u16], bus: usize) -> usize
    requires { Scorable table.now × (bus < bus_count table.now) }
    ensures { result ≡ row_start table.now bus }
{
    let table = Table::new(table);
    table.row_start(bus)
}

// How many lines: half as many as neighbour numbers.
pub fn lines(table: &[u16]) -> usize
    requires { Holds table.now }
    ensures { result ≡ lines table.now }
{
    let network = HeldNetwork::new(table);
    network.lines()
}
