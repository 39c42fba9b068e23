// Networks: their limits, and what a line table has where. A network is a line table in a lent slice.
#![tactic(auto)]

ghost use Rattle.std.specs.Prelude.{ℕ, List, ◌≡◌, ◌≤◌};
ghost use Rattle.table_spec.specs.Limits.{max_buses, max_degree, max_need, max_weight, max_lines, max_entries, max_bytes};
ghost use Rattle.table_spec.specs.Layout.{lines};
ghost use Rattle.table_spec.specs.Holds.{within, can_be_met, Holds};

pub mod rows;
pub mod table;

pub use refusals::Refusal;
use std::marker::Model;
use table::Table;

// Whether x is from a to b.
pub fn within(a: usize, b: usize, x: usize) -> bool
    ensures { result ≡ within a b x }
{
    (a..=b).contains(&x)
}

// Whether a need can be met at a bus of this degree: it does not exceed the degree; a bus without lines may have need 1.
pub fn can_be_met(need: usize, degree: usize) -> bool
    ensures { result ≡ can_be_met need degree }
{
    need <= degree || degree == 0 && need == 1
}

// The counts of a network: n and m.
#[derive(Clone, Copy)]
pub struct Counts {
    pub buses: usize,
    pub lines: usize,
}

// The limits by name, for callers that cannot cite the constants of `Network`.
#[derive(Clone, Copy)]
pub struct Limits {
    pub buses: usize,
    pub degree: usize,
    pub need: usize,
    pub weight: usize,
    pub lines: usize,
    pub entries: usize,
    pub bytes: usize,
}

#[derive(Clone, Copy)]
pub struct Network;

impl Network {
    // Buses of a network.
    pub const BUSES: usize = 512;

    // Lines at a bus.
    pub const LINES_AT_BUS: usize = 23;

    // The highest need.
    pub const NEED: usize = 24;

    // The highest weight.
    pub const WEIGHT: usize = 1000;

    // Lines of a network: each stands at two buses.
    pub const LINES: usize = Network::BUSES * Network::LINES_AT_BUS / 2;

    // Entries of a line table.
    pub const ENTRIES: usize = 1 + 2 * Network::BUSES + (Network::BUSES + 1) + 2 * Network::LINES;

    // Bytes of a network file.
    pub const BYTES: usize = 2 + Network::BUSES + 2 + 4 * Network::LINES + 2 + 2 * Network::BUSES;

    pub fn limits() -> Limits
        ensures buses_value { (result.buses ≡ max_buses) × (result.degree ≡ max_degree) × (result.need ≡ max_need) × (result.weight ≡ max_weight) }
        ensures lines_value { (result.lines ≡ max_lines) × (result.entries ≡ max_entries) × (result.bytes ≡ max_bytes) }
    {
        Limits {
            buses: Network::BUSES,
            degree: Network::LINES_AT_BUS,
            need: Network::NEED,
            weight: Network::WEIGHT,
            lines: Network::LINES,
            entries: Network::ENTRIES,
            bytes: Network::BYTES,
        }
    }
}

// The network that a slice holds: a line table whose lines run both ways, and whose needs can be met.
#[derive(Drop)]
pub struct HeldNetwork<'a> {
    table: Table<'a>,
}

impl<'a> Model for HeldNetwork<'a> {
    ghost Value = { List ℕ };

    ghost view = { λ n. n.table };

    ghost invariant = { λ n. Holds n.table };
}

impl<'a> HeldNetwork<'a> {
    // The network that a slice holds.
    pub fn new(slice: &'a [u16]) -> HeldNetwork<'a>
        requires { Holds slice.now }
        ensures { result ≡ slice.now }
    {
        HeldNetwork {
            table: Table::new(slice),
        }
    }

    // Its table, for work that does not ask which way lines run.
    pub fn table(&self) -> &Table<'a>
        ensures value { result.now ≡ self.now }
        ensures network { Holds self.now }
    {
        &self.table
    }

    // How many lines.
    pub fn lines(&self) -> usize
        ensures value { result ≡ lines self.now }
        ensures small { result ≤ max_lines }
        ensures network { Holds self.now }
    {
        self.table.numbers().len() / 2
    }
}
