// What shares are made of: the common denominator L, what each bus gives to each of its neighbours, and how that is added up.
#![tactic(auto)]

ghost use Rattle.std.specs.Prelude.{◌≡◌, ℕ, suc, ◌+◌, ◌*◌, ◌^◌, ◌≤◌, ◌<◌, length, replicate};
ghost use Rattle.lists.specs.Lists.{count, ◌∈◌, at, put};
ghost use Rattle.lists.specs.Below.{map_below};
ghost use Rattle.fraction.specs.Divisors.{lcm_all};
ghost use Rattle.table_spec.specs.Limits.{max_degree, max_weight};
ghost use Rattle.table_spec.specs.Holds.{Scorable};
ghost use Rattle.game.specs.Game.{neighbour_term};
ghost use Rattle.share_spec.specs.TableNetwork.{largest_degree, divisors_of, max_denominator};
ghost use Rattle.share_spec.specs.TermsGiven.{terms_from};
ghost use Rattle.share_terms.specs.Unit.{unit, Divided};
ghost use Rattle.share_terms.specs.TermCases.{term_case};
ghost use Rattle.share_terms.specs.Added.{Added};

use fraction::lcm;
use network::table::Table;

fn largest_degree(table: &Table) -> usize
    ensures value { result ≡ largest_degree table.now }
    ensures small { result ≤ max_degree }
{
    (0..table.buses())
        .map(|bus| table.neighbours(bus).len())
        .max()
        .unwrap_or(0)
}

// The least common multiple of 1 to m. The upper half is enough, since each number up to m / 2 divides its double.
fn multiple_up_to(m: usize) -> u64
    requires { m ≤ 1 + max_degree }
    ensures { result ≡ lcm_all (map_below m suc) }
{
    let mut multiple = 1;
    for k in m / 2..m {
        multiple = lcm((k + 1) as u64, multiple);
    }
    multiple
}

// L: what all shares of a network are over.
pub fn denominator_of(table: &Table) -> u64
    ensures { result ≡ lcm_all (divisors_of table.now) }
{
    multiple_up_to(1 + largest_degree(table))
}

// The same, of a slice that can be scored.
pub fn denominator(table: &[u16]) -> u64
    requires { Scorable table.now }
    ensures { result ≡ lcm_all (divisors_of table.now) }
{
    denominator_of(&Table::new(table))
}

// L over d (d + 1), which the terms of a bus of degree d are multiples of. A bus of degree 0 has no neighbour to give to.
pub fn unit(over: u64, degree: usize) -> u64
    requires { degree ≤ max_degree }
    ensures { result ≡ unit over degree }
{
    if degree == 0 {
        return 0;
    }
    over / ((degree * (degree + 1)) as u64)
}

// Which case a bus is in by its need and its degree, the earlier where two apply: 1 is need above degree, 2 need equal to degree, 3 need 1, and 4 need between them.
// The cases have numbers, and no enum, since the scope asks for numbered cases by name (docs/DECISIONS.md).
fn term_case(need: usize, degree: usize) -> usize
    ensures { result ≡ term_case need degree }
{
    if need > degree {
        return 1;
    }
    if need == degree {
        return 2;
    }
    if need == 1 {
        return 3;
    }
    4
}

// What a bus gives to each neighbour, by its need, its degree d and its unit: its term over L, which is d (d + 1) units.
pub fn term(need: usize, degree: usize, unit: u64) -> u64
    requires { (1 ≤ need) × (degree ≤ max_degree) × (unit * (degree * (degree + 1)) ≤ max_denominator) }
    ensures { result ≡ neighbour_term need degree (unit * (degree * (degree + 1))) }
{
    match term_case(need, degree) {
        // need above degree: 0
        1 => 0,
        // need equal to degree: 1 / (d (d + 1))
        2 => unit,
        // need 1: 1 / (d + 1)
        3 => (degree as u64) * unit,
        // need between them: (d + 1 - need) / (d (d + 1))
        _ => ((degree + 1 - need) as u64) * unit,
    }
}

// Stores zeros in the first n entries.
pub fn clear(numerators: &mut [u64], n: usize)
    requires { n ≤ length numerators.old }
    ensures { numerators.new ≡ put numerators.old 0 (replicate n 0) }
{
    numerators[..n].fill(0);
}

// Adds a term to the entry of each bus in a row.
pub fn give(row: &[u16], term: u64, numerators: &mut [u64])
    requires { (bus : ℕ) → bus ∈ row.now → (bus < length numerators.old) × (at numerators.old bus + term * count bus row.now < 2 ^ 64) }
    ensures { Added (λ bus. term * count bus row.now) numerators.old numerators.new }
{
    for &bus in row {
        numerators[bus as usize] += term;
    }
}

// Adds the terms of a bus by its weight, its need, its row and the unit of its degree: to its own entry what is left of L, and to the entry of each bus in
// its row what it gives, all times its weight.
pub fn add_terms(
    over: u64,
    weight: u64,
    need: usize,
    row: &[u16],
    one: u64,
    bus: usize,
    numerators: &mut [u64],
)
    requires weight_le_max_weight { (weight ≤ max_weight) × (1 ≤ need) × (length row.now ≤ max_degree) × Divided (length row.now) over × (one ≡ unit over (length row.now)) }
    requires bus_in_bounds { (bus < length numerators.old) × (at numerators.old bus + max_weight * over < 2 ^ 64) }
    requires by_index { (v : ℕ) → v ∈ row.now → (v < length numerators.old) × (at numerators.old v + max_weight * over < 2 ^ 64) }
    ensures { Added (terms_from weight need row.now over bus) numerators.old numerators.new }
{
    let term = term(need, row.len(), one);
    numerators[bus] += weight * (over - (row.len() as u64) * term);
    give(row, weight * term, numerators);
}
