// Shares of the buses of a network: of all of them, or of one.
#![tactic(auto)]

ghost use Rattle.std.specs.Prelude.{◌≡◌, ◌*◌, ◌≤◌, ◌<◌, length};
ghost use Rattle.lists.specs.Lists.{Tabled, put};
ghost use Rattle.lists.specs.Below.{map_below, range};
ghost use Rattle.refusals.specs.Outcomes.{outcome_of};
ghost use Rattle.table_spec.specs.Limits.{max_weight};
ghost use Rattle.table_spec.specs.Layout.{bus_count, need, degree};
ghost use Rattle.table_spec.specs.Holds.{Scorable, Holds};
ghost use Rattle.game.specs.Game.{neighbour_term, numerator as formula};
ghost use Rattle.share_spec.specs.Network.{denominator};
ghost use Rattle.share_spec.specs.TableNetwork.{game_of, Over};
ghost use Rattle.share_spec.specs.Formula.{numerator_over, numerator};
ghost use Rattle.share_spec.specs.TermsGiven.{term_to};
ghost use Rattle.two_way.specs.TwoWay.{network_of};
ghost use Rattle.share_terms.specs.Unit.{unit};
ghost use Rattle.share_terms.specs.Added.{Added};
ghost use Rattle.share_spec.specs.ShareOutcomes.{shares_outcome, numerators_after, AllFair, share_outcome, OneFair};
ghost use Rattle.scorer.specs.ShareAnswers.{outcome_of_share};
ghost use Rattle.scorer.specs.ScorerWork.{degrees, Room};

pub use network::Refusal;
use network::table::Table;
use network::{HeldNetwork, Network};
pub use share_terms::{denominator, denominator_of};
use share_terms::{add_terms, clear, term, unit};
use std::array;
use table_check::network;

// A numerator, and the number that it is over.
#[derive(Clone, Copy)]
pub struct BusShare {
    pub numerator: u64,
    pub over: u64,
}

// How many degrees a bus may have.
const DEGREES: usize = Network::LINES_AT_BUS + 1;

// The unit of each degree, so that no bus needs a division.
fn units(over: u64) -> [u64; DEGREES]
    ensures { Tabled degrees (unit over) result }
{
    array::from_fn(|degree| unit(over, degree))
}

// Adds the terms of a bus.
fn add_bus(table: &Table, over: u64, units: &[u64; DEGREES], bus: usize, numerators: &mut [u64])
    requires bus { (bus < bus_count table.now) × Over table.now over }
    requires tabled { Tabled degrees (unit over) units.now × Room (bus_count table.now) (max_weight * over) numerators.old }
    ensures { Added (term_to (game_of table.now) over bus) numerators.old numerators.new }
{
    let row = table.neighbours(bus);
    let weight = table.weight(bus);
    let need = table.need(bus);
    add_terms(over, weight, need, row, units[row.len()], bus, numerators);
}

// Stores the numerators of all buses, whichever way the table's lines run, over any L that makes their terms whole.
pub fn score_table_over(table: &Table, over: u64, numerators: &mut [u64])
    requires { (bus_count table.now ≤ length numerators.old) × Over table.now over }
    ensures { numerators.new ≡ put numerators.old 0 (map_below (bus_count table.now) (λ v. formula (game_of table.now) (range (bus_count table.now)) v over)) }
{
    let n = table.buses();
    let units = units(over);
    clear(numerators, n);
    for bus in 0..n {
        add_bus(table, over, &units, bus, numerators);
    }
}

// The same, of a slice that can be scored.
pub fn score_over(table: &[u16], over: u64, numerators: &mut [u64])
    requires { Scorable table.now × (bus_count table.now ≤ length numerators.old) × Over table.now over }
    ensures { numerators.new ≡ put numerators.old 0 (map_below (bus_count table.now) (λ v. formula (game_of table.now) (range (bus_count table.now)) v over)) }
{
    score_table_over(&Table::new(table), over, numerators);
}

// Stores the numerators of all buses of a network over its own L, which it gives.
pub fn score_network(network: &HeldNetwork, numerators: &mut [u64]) -> u64
    requires { bus_count network.now ≤ length numerators.old }
    ensures value { result ≡ denominator (network_of network.now) }
    ensures numerators_after { numerators.new ≡ put numerators.old 0 (map_below (bus_count network.now) (numerator_over (network_of network.now) (denominator (network_of network.now)))) }
{
    let table = network.table();
    let over = denominator_of(table);
    score_table_over(table, over, numerators);
    over
}

// The same, of a slice that holds a network.
pub fn score(table: &[u16], numerators: &mut [u64]) -> u64
    requires { Holds table.now × (bus_count table.now ≤ length numerators.old) }
    ensures value { result ≡ denominator (network_of table.now) }
    ensures numerators_after { numerators.new ≡ put numerators.old 0 (map_below (bus_count table.now) (numerator_over (network_of table.now) (denominator (network_of table.now)))) }
{
    score_network(&HeldNetwork::new(table), numerators)
}

// What a bus of weight 1 would give to each neighbour.
fn given(table: &Table, over: u64, bus: usize) -> u64
    requires { (bus < bus_count table.now) × Over table.now over }
    ensures { result ≡ neighbour_term (need table.now bus) (degree table.now bus) over }
{
    let degree = table.neighbours(bus).len();
    term(table.need(bus), degree, unit(over, degree))
}

// The numerator of one bus: its own term, which is what its neighbours leave of L, and what they give it, each times the weight of the bus that it concerns.
fn numerator(table: &Table, over: u64, bus: usize) -> u64
    requires { (bus < bus_count table.now) × Over table.now over }
    ensures { result ≡ numerator_over (network_of table.now) over bus }
{
    let row = table.neighbours(bus);
    let mut sum = table.weight(bus) * (over - (row.len() as u64) * given(table, over, bus));
    for &neighbour in row {
        let neighbour = neighbour as usize;
        sum += table.weight(neighbour) * given(table, over, neighbour);
    }
    sum
}

// The numerator of one bus over the network's own L, and that L.
pub fn share_in(network: &HeldNetwork, bus: usize) -> BusShare
    requires { bus < bus_count network.now }
    ensures { (result.numerator ≡ numerator (network_of network.now) bus) × (result.over ≡ denominator (network_of network.now)) }
{
    let table = network.table();
    let over = denominator_of(table);
    BusShare {
        numerator: numerator(table, over, bus),
        over,
    }
}

// The same, of a slice that holds a network.
pub fn share_of(table: &[u16], bus: usize) -> BusShare
    requires { Holds table.now × (bus < bus_count table.now) }
    ensures { (result.numerator ≡ numerator (network_of table.now) bus) × (result.over ≡ denominator (network_of table.now)) }
{
    share_in(&HeldNetwork::new(table), bus)
}

// The shares of all buses: the numerators are stored, and what they are over is given.
pub fn shares(table: &[u16], numerators: &mut [u64]) -> Result<u64, Refusal>
    ensures answer { outcome_of result ≡ shares_outcome (network_of table.now) (length numerators.old) }
    ensures stored { numerators.new ≡ numerators_after (network_of table.now) numerators.old }
    ensures fair { AllFair (network_of table.now) (length numerators.old) (outcome_of result) numerators.new }
{
    let network = network(table)?;
    if numerators.len() < network.table().buses() {
        return Err(Refusal::NumeratorsTooShort);
    }
    Ok(score_network(&network, numerators))
}

// The share of one bus: its numerator, and what it is over.
pub fn share(table: &[u16], bus: usize) -> Result<BusShare, Refusal>
    ensures answer { outcome_of_share result ≡ share_outcome (network_of table.now) bus }
    ensures fair { OneFair (network_of table.now) bus (outcome_of_share result) }
{
    let network = network(table)?;
    if network.table().buses() <= bus {
        return Err(Refusal::NoSuchBus);
    }
    Ok(share_in(&network, bus))
}
