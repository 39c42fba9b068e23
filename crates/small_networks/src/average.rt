// The average over all orders of fitting, from what a seen bus is and nothing else.
//
// Orders of n buses are numbered from 0 on. An order is read off its number by dividing by n, what is left by n - 1, and so on
// to 1: each remainder says how many of the buses not yet fitted are passed over to find the next. Each row of such remainders
// is that of exactly one number of which nothing is left, as digits are, and each order has exactly one such row; so every
// order comes once.
ghost use Rattle.std.specs.Prelude.{◌<◌, ◌≤◌, length};

use crate::{BusSet, MOST, Small};

// Whether a bus is seen: it carries a recorder, or at least as many of its neighbours as its need do.
fn is_seen(small: Small, fitted: BusSet, bus: usize) -> bool
    requires { bus < MOST }
{
    fitted.has(bus) || small.neighbours[bus].shared(fitted) >= u32::from(small.needs[bus])
}

// The value of a set of recorders: the weights of the buses that are seen, added up.
fn value(small: Small, fitted: BusSet) -> u32
    requires { small.buses ≤ MOST }
{
    let mut sum = 0;
    for (bus, weight) in small.weights[..small.buses].iter().enumerate() {
        if is_seen(small, fitted, bus) {
            sum += u32::from(*weight);
        }
    }
    sum
}

// Weights added up.
fn total_weight(weights: &[u16]) -> u32
    requires { length weights.now ≤ MOST }
{
    weights.iter().map(|weight| u32::from(*weight)).sum()
}

// The lowest bus not yet fitted, after so many of them are passed over.
fn next(fitted: BusSet, passed: u32) -> usize
    ensures { result < MOST }
{
    (0..MOST)
        .filter(|bus| !fitted.has(*bus))
        .nth(passed as usize)
        .unwrap_or(0)
}

// Whether a number is that of an order: nothing is left of it, in whichever order it is divided.
fn has_order(buses: u32, number: u32) -> bool {
    (1..=buses).fold(number, |rest, left| rest / left) == 0
}

// Fits the buses in the order of a number, adds each bus's gain to its sum, and gives the sum of all gains. A gain is how much
// the value rises; were it to fall, the gain would wrap and be no small number.
fn fit(small: Small, number: u32, sums: &mut [u32; MOST]) -> u32
    requires { small.buses ≤ MOST }
{
    let mut fitted = BusSet::default();
    let mut before = value(small, fitted);
    let mut gains = 0u32;
    let mut rest = number;
    for left in (1..=small.buses as u32).rev() {
        let bus = next(fitted, rest % left);
        fitted.insert(bus);
        let after = value(small, fitted);
        let gain = after.wrapping_sub(before);
        sums[bus] = sums[bus].wrapping_add(gain);
        gains = gains.wrapping_add(gain);
        before = after;
        rest /= left;
    }
    gains
}

// What all orders give: how many were gone through, in how many the gains do not add up to the total weight, and the sum of
// each bus's gains.
#[derive(Clone, Copy)]
pub struct Gains {
    pub orders: u32,
    pub uneven: u32,
    pub sums: [u32; MOST],
}

// More orders than seven buses have, so that their end is reached before.
const LIMIT: u32 = 10_000;

// Goes through all orders: up to the first number that is that of none.
pub fn all_orders(small: Small) -> Gains
    requires { small.buses ≤ MOST }
{
    let buses = small.buses as u32;
    let orders = (0..LIMIT)
        .find(|number| !has_order(buses, *number))
        .unwrap_or(LIMIT);
    let total = total_weight(&small.weights[..small.buses]);
    let mut sums = [0u32; MOST];
    let mut uneven = 0;
    for number in 0..orders {
        if fit(small, number, &mut sums) != total {
            uneven += 1;
        }
    }
    Gains {
        orders,
        uneven,
        sums,
    }
}
