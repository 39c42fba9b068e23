// Networks of up to seven buses: which are compared, their line tables, and the average over all orders of fitting. This crate
// knows nothing of the scorer.
#![tactic(auto)]

ghost use Rattle.std.specs.Prelude.{◌<◌, ◌≤◌};

pub mod average;
pub mod choice;
pub mod table;

// Buses of the largest network.
pub const MOST: usize = 7;

// A set of buses: bus b is in it if the binary digit at place b is 1.
#[derive(Clone, Copy, Default)]
pub struct BusSet(pub u32);

impl BusSet {
    pub fn has(self, bus: usize) -> bool
        requires { bus < MOST }
    {
        self.0 & 1 << bus != 0
    }

    pub fn insert(&mut self, bus: usize)
        requires { bus < MOST }
    {
        self.0 |= 1 << bus;
    }

    // How many buses are in it.
    pub fn size(self) -> u32
        ensures { result ≤ 32 }
    {
        self.0.count_ones()
    }

    // How many buses are in both.
    pub fn shared(self, other: BusSet) -> u32 {
        (self.0 & other.0).count_ones()
    }
}

// A network: how many buses, the need and the weight of each, and the set of the neighbours of each.
#[derive(Clone, Copy)]
pub struct Small {
    pub buses: usize,
    pub needs: [u16; MOST],
    pub weights: [u16; MOST],
    pub neighbours: [BusSet; MOST],
}

// The neighbours of each bus, where each bus has the set of those of lower numbers that it is joined to. What the set has of
// higher numbers is not looked at.
pub fn neighbours(lower: &[BusSet; MOST], buses: usize) -> [BusSet; MOST]
    requires { buses ≤ MOST }
{
    let mut neighbours = [BusSet::default(); MOST];
    for bus in 0..buses {
        for other in 0..bus {
            if lower[bus].has(other) {
                neighbours[bus].insert(other);
                neighbours[other].insert(bus);
            }
        }
    }
    neighbours
}
