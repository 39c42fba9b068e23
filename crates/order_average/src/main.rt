// Compares the shares of networks up to seven buses with an average over all orders of fitting that is written separately:
// `small_networks::average` goes through the orders and adds the weights of seen buses, and knows nothing of the scorer. So
// that the comparison is seen to fail where it should, it is also made of shares by two formulas that are wrong. And each
// network is seen to be refused once a need of it cannot be met, or a weight is out of range.
#![tactic(auto)]

ghost use Rattle.std.specs.Prelude.{◌<◌, ◌≤◌};

use refusals::Refusal;
use scorer::BusShare;
use small_networks::average::{Gains, all_orders};
use small_networks::choice::Draws;
use small_networks::table::{ENTRIES, table};
use small_networks::{MOST, Small, choice};
use std::fmt;

// What is counted.
#[derive(Clone, Copy, Default)]
struct Counts {
    networks: u64,
    // Orders gone through, and those whose gains do not add up to the total weight.
    orders: u64,
    uneven: u64,
    // Buses by how their need stands to their degree.
    needs: Needs,
    // Shares that are not the average, and shares by each wrong formula that are not.
    different: u64,
    wrong: u64,
    own_weight: u64,
    // Networks with a need that cannot be met, and those of them that are not refused.
    unmet: u64,
    unmet_taken: u64,
    // Networks with a weight out of range, and those of them that are not refused.
    out_of_range: u64,
    out_of_range_taken: u64,
}

// Buses whose need is above their degree, as it is without lines, equal to it, 1 and below it, or between 1 and it.
#[derive(Clone, Copy, Default)]
struct Needs {
    above: u64,
    equal: u64,
    one: u64,
    between: u64,
}

// Adds to a count. None comes near where a sum would not fit.
fn count(counted: &mut u64, more: u32) {
    *counted = counted.saturating_add(u64::from(more));
}

impl Needs {
    // Counts a bus of this need and degree.
    fn count(&mut self, need: u32, degree: u32) {
        let counted = if need > degree {
            &mut self.above
        } else if need == degree {
            &mut self.equal
        } else if need == 1 {
            &mut self.one
        } else {
            &mut self.between
        };
        count(counted, 1);
    }
}

// A line that is printed: what was counted, and how often.
#[derive(Clone, Copy)]
struct Line(&'static str, u64);

impl fmt::Display for Line {
    fn fmt<W: fmt::Write>(&self, f: &mut fmt::Formatter<W>) -> fmt::Result {
        write!(f, "{} {}", self.0, self.1)
    }
}

impl Counts {
    fn lines(&self) -> [Line; 14] {
        [
            Line("networks", self.networks),
            Line("orders gone through", self.orders),
            Line(
                "orders whose gains do not add up to the total weight",
                self.uneven,
            ),
            Line("buses with a need above the degree", self.needs.above),
            Line("buses with a need equal to it", self.needs.equal),
            Line("buses with need 1 below it", self.needs.one),
            Line("buses with a need between", self.needs.between),
            Line("shares that are not the average", self.different),
            Line("shares by the formula of need 1 that are not", self.wrong),
            Line("shares by own weights alone that are not", self.own_weight),
            Line(
                "networks with a need raised until it cannot be met",
                self.unmet,
            ),
            Line("of these not refused", self.unmet_taken),
            Line("networks with a weight made 0 or 1001", self.out_of_range),
            Line("of these not refused", self.out_of_range_taken),
        ]
    }

    // Prints a line for each count. One that cannot be printed keeps none behind it from being tried.
    fn print(&self, rt: &impl Print) {
        for line in self.lines() {
            let _ = println!(rt; "{line}");
        }
    }
}

// The average of a bus's gains: their sum, over so many orders.
#[derive(Clone, Copy)]
struct Average {
    sum: u32,
    orders: u32,
}

// Whether a share is the average, in whole numbers.
fn is_average(share: BusShare, average: Average) -> bool {
    u128::from(share.numerator) * u128::from(average.orders)
        == u128::from(share.over) * u128::from(average.sum)
}

// What Shares gives the buses of a network.
#[derive(Clone, Copy, Default)]
struct Shares {
    numerators: [u64; MOST],
    over: u64,
}

impl Shares {
    fn of_bus(self, bus: usize) -> BusShare
        requires { bus < MOST }
    {
        BusShare {
            numerator: self.numerators[bus],
            over: self.over,
        }
    }
}

fn shares_of(table: &[u16; ENTRIES]) -> Result<Shares, Refusal> {
    let mut numerators = [0u64; MOST];
    let over = scorer::shares(table, &mut numerators)?;
    Ok(Shares { numerators, over })
}

// Whether Share gives a bus the same as Shares did.
fn is_share(table: &[u16; ENTRIES], bus: usize, share: BusShare) -> bool {
    scorer::share(table, bus).is_ok_and(|one| one.numerator == share.numerator
        && one.over == share.over)
}

// A share by the first game's formula, 1/(d + 1) for the bus and each neighbour, each times its weight: wrong where needs are
// not 1.
fn wrong_share(small: Small, bus: usize, over: u64) -> BusShare
    requires { (small.buses ≤ MOST) × (bus < MOST) }
{
    let mut numerator = 0u64;
    for other in 0..small.buses {
        if other == bus || small.neighbours[bus].has(other) {
            let part = over / u64::from(small.neighbours[other].size() + 1);
            let weighted = part.saturating_mul(u64::from(small.weights[other]));
            numerator = numerator.saturating_add(weighted);
        }
    }
    BusShare { numerator, over }
}

// Compares what a bus is given with the average of its gains.
fn compare_bus(
    counts: &mut Counts,
    small: Small,
    bus: usize,
    table: &[u16; ENTRIES],
    share: BusShare,
    average: Average,
)
    requires { (small.buses ≤ MOST) × (bus < MOST) }
{
    let degree = small.neighbours[bus].size();
    counts.needs.count(u32::from(small.needs[bus]), degree);
    if !is_average(share, average) || !is_share(table, bus, share) {
        count(&mut counts.different, 1);
    }
    if !is_average(wrong_share(small, bus, share.over), average) {
        count(&mut counts.wrong, 1);
    }
}

// The average of the gains of a bus.
fn average_of(gains: Gains, bus: usize) -> Average
    requires { bus < MOST }
{
    Average {
        sum: gains.sums[bus],
        orders: gains.orders,
    }
}

// Compares the shares of a network, of which all orders were gone through. Where Shares refuses it, so does Share, and each
// of its buses counts as different.
fn compare_shares(counts: &mut Counts, small: Small, gains: Gains)
    requires { small.buses ≤ MOST }
{
    let table = table(small);
    let shares = shares_of(&table).unwrap_or_default();
    for bus in 0..small.buses {
        let average = average_of(gains, bus);
        compare_bus(counts, small, bus, &table, shares.of_bus(bus), average);
    }
}

// Compares the averages with the shares without weights, each times its bus's own weight: wrong where neighbours have other
// weights, since the term for a neighbour takes the neighbour's.
fn compare_own_weights(counts: &mut Counts, small: Small, gains: Gains)
    requires { small.buses ≤ MOST }
{
    let shares = shares_of(&table(choice::unweighted(small))).unwrap_or_default();
    for bus in 0..small.buses {
        let share = shares.of_bus(bus);
        let weighted = share
            .numerator
            .saturating_mul(u64::from(small.weights[bus]));
        let own = BusShare {
            numerator: weighted,
            ..share
        };
        if !is_average(own, average_of(gains, bus)) {
            count(&mut counts.own_weight, 1);
        }
    }
}

// Whether Shares finds no network in the table, number 11.
fn is_refused(small: Small) -> bool
    requires { small.buses ≤ MOST }
{
    match shares_of(&table(small)) {
        Ok(_) => false,
        Err(cause) => cause.number() == 11,
    }
}

// Raises the need of each bus in turn until it cannot be met.
fn raise_needs(counts: &mut Counts, small: Small)
    requires { small.buses ≤ MOST }
{
    for bus in 0..small.buses {
        count(&mut counts.unmet, 1);
        if !is_refused(choice::raised(small, bus)) {
            count(&mut counts.unmet_taken, 1);
        }
    }
}

// Gives a bus a weight that none may have.
fn take_out_of_range(counts: &mut Counts, small: Small, bus: usize, weight: u16)
    requires { (small.buses ≤ MOST) × (bus < MOST) }
{
    count(&mut counts.out_of_range, 1);
    if !is_refused(choice::reweighted(small, bus, weight)) {
        count(&mut counts.out_of_range_taken, 1);
    }
}

// Gives each bus in turn weight 0, and one above the highest.
fn change_weights(counts: &mut Counts, small: Small)
    requires { small.buses ≤ MOST }
{
    for bus in 0..small.buses {
        take_out_of_range(counts, small, bus, 0);
        take_out_of_range(counts, small, bus, choice::WEIGHT + 1);
    }
}

fn compare(counts: &mut Counts, small: Small)
    requires { small.buses ≤ MOST }
{
    let gains = all_orders(small);
    count(&mut counts.networks, 1);
    count(&mut counts.orders, gains.orders);
    count(&mut counts.uneven, gains.uneven);
    compare_shares(counts, small, gains);
    compare_own_weights(counts, small, gains);
    raise_needs(counts, small);
    change_weights(counts, small);
}

// The most buses of which all networks are compared.
const NUMBERED: usize = 5;

// Compares all networks of so few buses with need 1 and weight 1 everywhere.
fn compare_all() -> Counts {
    let mut counts = Counts::default();
    for buses in 1..=NUMBERED {
        for number in 0..choice::line_sets(buses) {
            compare(&mut counts, choice::numbered(buses, number));
        }
    }
    counts
}

// Networks that are drawn: as many of each number of buses.
const CHOSEN: usize = 120 * MOST;

fn compare_chosen() -> Counts {
    let mut counts = Counts::default();
    let mut seed = choice::SEED;
    for k in 0..CHOSEN {
        let draws = Draws::from_seed(seed);
        compare(&mut counts, choice::chosen(1 + k % MOST, draws));
        seed = draws.seed;
    }
    counts
}

// Whether it could all be printed is seen where the output is compared.
fn main(rt: HostRuntime) {
    let all = compare_all();
    let _ = println!(rt; "All networks of 1 to 5 buses with need 1 and weight 1");
    all.print(&rt);
    let chosen = compare_chosen();
    let _ = println!(rt; "\nNetworks of 1 to 7 buses with lines, needs and weights drawn");
    chosen.print(&rt);
}
