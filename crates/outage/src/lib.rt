// The outage study: what the loss of a line does to the numerator of every bus.
#![tactic(auto)]

ghost use Rattle.std.specs.Prelude.{[], ◌∷◌, ◌++◌, ◌≡◌, ℕ, ◌*◌, ◌^◌, ◌≤◌, ◌<◌, length, drop};
ghost use Rattle.lists.specs.Lists.{without, at, Ascending, WrittenAt};
ghost use Rattle.signed.specs.Signed.{difference, signed_below};
ghost use Rattle.refusals.specs.Outcomes.{outcome_of};
ghost use Rattle.table_spec.specs.Limits.{max_weight};
ghost use Rattle.table_spec.specs.Layout.{bus_count, row, need, weight, lines};
ghost use Rattle.table_spec.specs.Holds.{Holds};
ghost use Rattle.table_spec.specs.Lines.{lower_end, upper_end};
ghost use Rattle.share_spec.specs.TableNetwork.{Over};
ghost use Rattle.share_spec.specs.TermsGiven.{terms_from};
ghost use Rattle.share_terms.specs.Added.{Added};
ghost use Rattle.share_terms.specs.Unit.{Divided};
ghost use Rattle.two_way.specs.TwoWay.{network_of};
ghost use Rattle.outage_spec.specs.Outage.{without_line, change_over};
ghost use Rattle.outage_spec.specs.StudyOutcome.{study_outcome, changes_after, AllStudied};
ghost use Rattle.outage.specs.StudyWork.{Above, Room};

pub use network::Refusal;
use network::rows::entry;
use network::{HeldNetwork, Network};
pub use share_terms::{denominator, denominator_of};
use share_terms::{add_terms, unit};
use signed::less;
use table_check::network;

// The two ends of a line.
#[derive(Clone, Copy)]
struct Ends {
    lower: usize,
    upper: usize,
}

// Where the buses above this one begin in a row. A row ascends, so they are searched by halves, with five looks at most: std's `partition_point` takes six
// where a row has more than 16 buses (docs/DECISIONS.md).
fn first_above(row: &[u16], bus: usize) -> usize
    requires { Ascending row.now }
    ensures { Above row.now bus result }
{
    let mut low = 0;
    let mut high = row.len();
    while low < high {
        let middle = low + (high - low) / 2;
        if entry(row, middle) <= bus {
            low = middle + 1;
        } else {
            high = middle;
        }
    }
    low
}

// The ends of a line. Lines are counted at their lower ends: a bus has as many there as its row has buses above it.
fn ends_of(network: &HeldNetwork, line: usize) -> Ends
    requires { line < lines network.now }
    ensures { (result.lower ≡ lower_end network.now line) × (result.upper ≡ upper_end network.now line) }
{
    let table = network.table();
    let mut rest = line;
    for bus in 0..table.buses() {
        let row = table.neighbours(bus);
        let first = first_above(row, bus);
        let above = row.len() - first;
        if rest < above {
            return Ends {
                lower: bus,
                upper: entry(row, first + rest),
            };
        }
        rest -= above;
    }
    // The buses have all lines between them.
    unreachable!()
}

// Copies a row without one bus, and gives how many are left.
fn leave_out(row: &[u16], bus: usize, left: &mut [u16]) -> usize
    requires { length row.now ≤ length left.old }
    ensures { WrittenAt (without (bus ∷ []) row.now) 0 left.old result left.new }
{
    let mut many = 0;
    for &neighbour in row {
        if neighbour as usize != bus {
            left[many] = neighbour;
            many += 1;
        }
    }
    many
}

// Adds the terms of one end of a line: those with the line to the sums before its loss, those without it to the sums after it.
fn add_end(
    network: &HeldNetwork,
    over: u64,
    end: usize,
    other: usize,
    before: &mut [u64],
    after: &mut [u64],
)
    requires end { (end < bus_count network.now) × Over network.now over }
    requires divided { Divided (length (without (other ∷ []) (row network.now end))) over }
    requires room_before { Room (max_weight * over) before.old × (bus_count network.now ≤ length before.old) }
    requires room_after { Room (max_weight * over) after.old × (bus_count network.now ≤ length after.old) }
    ensures added_before { Added (terms_from (weight network.now end) (need network.now end) (row network.now end) over end) before.old before.new }
    ensures added_after { Added (terms_from (weight network.now end) (need network.now end) (without (other ∷ []) (row network.now end)) over end) after.old after.new }
{
    let table = network.table();
    let row = table.neighbours(end);
    let weight = table.weight(end);
    let need = table.need(end);
    add_terms(over, weight, need, row, unit(over, row.len()), end, before);
    let mut left = [0u16; Network::LINES_AT_BUS];
    let many = leave_out(row, other, &mut left);
    add_terms(
        over,
        weight,
        need,
        &left[..many],
        unit(over, many),
        end,
        after,
    );
}

// Stores the sum of each of n buses after the loss less its sum before it.
fn store(before: &[u64], after: &[u64], n: usize, changes: &mut [i64])
    requires inside { (n ≤ length before.now) × (n ≤ length after.now) × (n ≤ length changes.old) }
    requires small { (v : ℕ) → (at before.now v < 2 ^ 63) × (at after.now v < 2 ^ 63) }
    ensures { changes.new ≡ signed_below n (λ v. difference (at after.now v) (at before.now v)) ++ drop n changes.old }
{
    for bus in 0..n {
        changes[bus] = less(after[bus], before[bus]);
    }
}

// Stores the changes of all buses when a line goes out, over any L that makes their terms whole with the line and without it. Of all terms only those of
// the line's ends move. For callers who study many lines of a network: neither the table nor its L is looked at again.
pub fn study_network_over(network: &HeldNetwork, line: usize, over: u64, changes: &mut [i64])
    requires line { (line < lines network.now) × (bus_count network.now ≤ length changes.old) }
    requires whole { Over network.now over × Over (without_line network.now line) over }
    ensures { changes.new ≡ signed_below (bus_count network.now) (change_over (network_of network.now) (network_of (without_line network.now line)) over) ++ drop (bus_count network.now) changes.old }
{
    let table = network.table();
    let Ends { lower, upper } = ends_of(network, line);
    let mut before = [0u64; Network::BUSES];
    let mut after = [0u64; Network::BUSES];
    add_end(network, over, lower, upper, &mut before, &mut after);
    add_end(network, over, upper, lower, &mut before, &mut after);
    store(&before, &after, table.buses(), changes);
}

// The same, of a slice that holds a network.
pub fn study_over(table: &[u16], line: usize, over: u64, changes: &mut [i64])
    requires holds { Holds table.now × (line < lines table.now) × (bus_count table.now ≤ length changes.old) }
    requires whole { Over table.now over × Over (without_line table.now line) over }
    ensures { changes.new ≡ signed_below (bus_count table.now) (change_over (network_of table.now) (network_of (without_line table.now line)) over) ++ drop (bus_count table.now) changes.old }
{
    study_network_over(&HeldNetwork::new(table), line, over, changes);
}

// The study of a network.
pub fn study_network(
    network: &HeldNetwork,
    line: usize,
    changes: &mut [i64],
) -> Result<u64, Refusal>
    ensures answer { outcome_of result ≡ study_outcome network.now line (length changes.old) }
    ensures stored { changes.new ≡ changes_after network.now line changes.old }
{
    let table = network.table();
    if network.lines() <= line {
        return Err(Refusal::NoSuchLine);
    }
    if changes.len() < table.buses() {
        return Err(Refusal::NumeratorsTooShort);
    }
    let over = denominator_of(table);
    study_network_over(network, line, over, changes);
    Ok(over)
}

// The same, of a slice that holds a network.
pub fn study(table: &[u16], line: usize, changes: &mut [i64]) -> Result<u64, Refusal>
    requires { Holds table.now }
    ensures answer { outcome_of result ≡ study_outcome table.now line (length changes.old) }
    ensures stored { changes.new ≡ changes_after table.now line changes.old }
{
    study_network(&HeldNetwork::new(table), line, changes)
}

// The changes of all buses when a line goes out: they are stored, and what they are over is given.
pub fn changes(table: &[u16], line: usize, changes: &mut [i64]) -> Result<u64, Refusal>
    ensures answer { outcome_of result ≡ study_outcome table.now line (length changes.old) }
    ensures stored { changes.new ≡ changes_after table.now line changes.old }
    ensures fair { AllStudied table.now line (length changes.old) (outcome_of result) changes.new }
{
    study_network(&network(table)?, line, changes)
}
