// The test of a line table: whether a slice holds a network. Row starts begin at `from`.
#![tactic(auto)]

ghost use Rattle.std.specs.Prelude.{true, false, MatchResult, ◌&&◌, ◌≡◌, ◌^◌, ◌≤◌, ◌<◌, length};
ghost use Rattle.refusals.specs.declared.Refusal.TheVariants.{NoNetwork};
ghost use Rattle.table_spec.specs.Layout.{row_size};
ghost use Rattle.table_spec.specs.Holds.{complete, needs_in_range, weights_in_range, two_way, needs_can_be_met, holds, Complete, Steps};

pub mod mirrors;
pub mod rows;

use mirrors::mirrored;
use network::rows::entry;
use network::table::{bus_count, needs, neighbour_numbers, starts, starts_at, weights};
use network::{HeldNetwork, Network, Refusal, can_be_met, within};
use rows::sound_rows;

// Whether the slice has all entries of its table, and no more buses than a network may have.
fn complete(table: &[u16], from: usize) -> bool
    requires { (1 ≤ length table.now) × (from < 2 ^ 32) }
    ensures { result ≡ complete from table.now }
{
    let n = bus_count(table);
    within(1, Network::BUSES, n)
        && from + n + 1 <= table.len()
        && from + n + 1 + entry(table, from + n) <= table.len()
}

// Whether the rows are sound, and every neighbour is mirrored.
fn two_way(table: &[u16], from: usize) -> bool
    requires { Complete from table.now }
    ensures { result ≡ two_way from table.now }
{
    let n = bus_count(table);
    let starts = starts(table, from);
    let numbers = neighbour_numbers(table, from);
    sound_rows(starts, numbers, n) && mirrored(starts, numbers, n)
}

// Whether every need and every weight is one that a bus may have, and each need can be met: the degree of a bus is how far its row start is from the next.
fn valid_buses(needs: &[u16], weights: &[u16], starts: &[u16]) -> bool
    requires { (length needs.now ≡ length weights.now) × (length needs.now < length starts.now) × Steps (length needs.now) starts.now }
    ensures { result ≡ (needs_in_range needs.now && weights_in_range weights.now && needs_can_be_met (length needs.now) needs.now (row_size starts.now)) }
{
    (0..needs.len()).all(|bus| {
        let need = entry(needs, bus);
        let degree = entry(starts, bus + 1) - entry(starts, bus);
        within(1, Network::NEED, need)
            && within(1, Network::WEIGHT, entry(weights, bus))
            && can_be_met(need, degree)
    })
}

// Whether the slice holds a network.
pub fn holds(table: &[u16]) -> bool
    ensures { result ≡ holds table.now }
{
    if table.is_empty() {
        return false;
    }
    let from = starts_at(table);
    complete(table, from)
        && two_way(table, from)
        && valid_buses(needs(table), weights(table), starts(table, from))
}

// The network that a slice holds, or that it holds none.
pub fn network<'a>(slice: &'a [u16]) -> Result<HeldNetwork<'a>, Refusal>
    ensures { MatchResult result (λ network. (holds slice.now ≡ true) × (network ≡ slice.now)) (λ cause. (holds slice.now ≡ false) × (cause ≡ NoNetwork)) }
{
    if holds(slice) {
        Ok(HeldNetwork::new(slice))
    } else {
        Err(Refusal::NoNetwork)
    }
}
