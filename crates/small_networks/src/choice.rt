// Which networks are compared: all small ones with need 1 and weight 1, and some with needs, lines and weights drawn by chance
// from a fixed seed.
ghost use Rattle.std.specs.Prelude.{◌≡◌, ◌<◌, ◌≤◌};

use crate::{BusSet, MOST, Small, neighbours};
use std::array;

// Sets of buses.
const SETS: u64 = 1 << MOST;

// The set that a number's last digits say.
fn set_of(digits: u64) -> BusSet {
    BusSet((digits % SETS) as u32)
}

// How many sets of lines there are between the buses, for up to five.
pub fn line_sets(buses: usize) -> u64 {
    match buses {
        0 | 1 => 1,
        2 => 2,
        3 => 8,
        4 => 64,
        _ => 1024,
    }
}

// The network of a number below that, with need 1 and weight 1 everywhere. Its binary digits say which lines there are: one
// digit for bus 1, two for bus 2, and so on, each for a bus of a lower number.
pub fn numbered(buses: usize, number: u64) -> Small
    requires { buses ≤ MOST }
    ensures { result.buses ≡ buses }
{
    let mut rest = number;
    let mut lower = [BusSet::default(); MOST];
    for (bus, set) in lower.iter_mut().enumerate() {
        *set = set_of(rest);
        rest >>= bus;
    }
    Small {
        buses,
        needs: [1; MOST],
        weights: [1; MOST],
        neighbours: neighbours(&lower, buses),
    }
}

// Where the draws start.
pub const SEED: u64 = 20_011;

// A linear congruential generator.
const FACTOR: u64 = 48_271;

const MODULUS: u64 = 2_147_483_647;

fn draw(state: u64) -> u64 {
    state % MODULUS * FACTOR % MODULUS
}

// A draw for each bus, the first from this state.
fn draw_all(mut state: u64) -> [u64; MOST] {
    let mut drawn = [0u64; MOST];
    for number in drawn.iter_mut() {
        state = draw(state);
        *number = state;
    }
    drawn
}

// What is drawn for one network: a need, a set of lines and a weight for each bus, and a number to go on from.
#[derive(Clone, Copy)]
pub struct Draws {
    pub needs: [u64; MOST],
    pub lines: [u64; MOST],
    pub weights: [u64; MOST],
    pub seed: u64,
}

impl Draws {
    // What is drawn from a number on.
    pub fn from_seed(seed: u64) -> Draws {
        let needs = draw_all(seed);
        let lines = draw_all(needs[MOST - 1]);
        let weights = draw_all(lines[MOST - 1]);
        Draws {
            needs,
            lines,
            weights,
            seed: draw(weights[MOST - 1]),
        }
    }
}

// How many of all lines a network has: few, so that many buses have none, about half of them, or most.
#[derive(Clone, Copy)]
enum Density {
    Few,
    Half,
    Most,
}

impl Density {
    fn of(drawn: u64) -> Density {
        match drawn % 3 {
            0 => Density::Few,
            1 => Density::Half,
            _ => Density::Most,
        }
    }

    // A set of about a quarter, half or three quarters of the buses: those at whose place both of two digits drawn are 1, one
    // is, or either of two.
    fn set(self, drawn: u64) -> BusSet {
        set_of(match self {
            Density::Few => drawn & drawn >> MOST,
            Density::Half => drawn,
            Density::Most => drawn | drawn >> MOST,
        })
    }
}

// Lines to buses of lower numbers. Bus 0 has none, so what is drawn for it says how many the others have.
fn lower(drawn: [u64; MOST]) -> [BusSet; MOST] {
    let density = Density::of(drawn[0]);
    drawn.map(|number| density.set(number))
}

// The highest need that can be met at a bus with these neighbours: as many as they are, but 1 where there are none.
fn highest(neighbours: BusSet) -> u32
    ensures { (1 ≤ result) × (result ≤ 32) }
{
    neighbours.size().max(1)
}

// Needs from 1 to the highest that can be met.
fn needs(drawn: [u64; MOST], neighbours: [BusSet; MOST]) -> [u16; MOST] {
    array::from_fn(|bus| (1 + drawn[bus] % u64::from(highest(neighbours[bus]))) as u16)
}

// The highest weight.
pub const WEIGHT: u16 = 1000;

// Weights from 1 to the highest.
fn weights(drawn: [u64; MOST]) -> [u16; MOST] {
    drawn.map(|number| (1 + number % u64::from(WEIGHT)) as u16)
}

pub fn chosen(buses: usize, draws: Draws) -> Small
    requires { buses ≤ MOST }
    ensures { result.buses ≡ buses }
{
    let neighbours = neighbours(&lower(draws.lines), buses);
    Small {
        buses,
        needs: needs(draws.needs, neighbours),
        weights: weights(draws.weights),
        neighbours,
    }
}

// The same network with a need that cannot be met: at one bus, one above the highest that can.
pub fn raised(mut small: Small, bus: usize) -> Small
    requires { bus < MOST }
    ensures { result.buses ≡ small.buses }
{
    small.needs[bus] = (highest(small.neighbours[bus]) + 1) as u16;
    small
}

// The same network with weight 1 everywhere.
pub fn unweighted(mut small: Small) -> Small
    ensures { result.buses ≡ small.buses }
{
    small.weights = [1; MOST];
    small
}

// The same network with another weight at one bus.
pub fn reweighted(mut small: Small, bus: usize, weight: u16) -> Small
    requires { bus < MOST }
    ensures { result.buses ≡ small.buses }
{
    small.weights[bus] = weight;
    small
}
