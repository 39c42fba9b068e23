// Fractions of whole numbers: greatest common divisors, pairs in lowest terms, least common multiples.
#![tactic(auto)]

ghost use Rattle.std.specs.Prelude.{◌≡◌, ◌+◌, ◌-◌, ◌^◌, ◌<◌, min};
ghost use Rattle.fraction.specs.Divisors.{IsGcd, IsLcm, lcm_of};
ghost use Rattle.fraction.specs.Cancel.{outcome_of_cancelled, cancelled, cancel_outcome, CancelRule};
ghost use Rattle.fraction.specs.Odd.{OddPart};

use refusals::Refusal;

// A fraction in lowest terms.
#[derive(Clone, Copy)]
pub struct Lowest {
    pub top: u64,
    pub bottom: u64,
}

// x divided by 2 until it is odd.
fn odd_part(x: u64) -> u64
    requires { 0 < x }
    ensures { OddPart x result }
{
    x >> x.trailing_zeros()
}

// The greatest common divisor by the binary rule: that of the odd parts, times the twos that x and y share.
// What divides two odd numbers is odd and divides their gap, so the gap's odd part may stand in for the larger.
pub fn gcd(x: u64, y: u64) -> u64
    ensures { IsGcd x y result }
{
    if x == 0 {
        return y;
    }
    if y == 0 {
        return x;
    }
    let twos = x.trailing_zeros().min(y.trailing_zeros());
    let mut a = odd_part(x);
    let mut b = odd_part(y);
    loop {
        if a == b {
            break a << twos;
        }
        let rest = odd_part(a.abs_diff(b));
        a = a.min(b);
        b = rest;
    }
}

// The fraction with its numbers divided by what they share.
pub fn reduce(numerator: u64, denominator: u64) -> Lowest
    requires { 0 < denominator }
    ensures { (result.top, result.bottom) ≡ cancelled numerator denominator }
{
    let g = gcd(numerator, denominator);
    Lowest {
        top: numerator / g,
        bottom: denominator / g,
    }
}

// The fraction in lowest terms, or why there is none.
pub fn cancel(numerator: u64, denominator: u64) -> Result<Lowest, Refusal>
    ensures answer { outcome_of_cancelled result ≡ cancel_outcome numerator denominator }
    ensures rule { CancelRule numerator denominator (outcome_of_cancelled result) }
{
    if denominator == 0 {
        return Err(Refusal::NoDenominator);
    }
    Ok(reduce(numerator, denominator))
}

// The least common multiple, where it fits; no step exceeds it. A step of Euclid's rule makes a small number quick to fold into a large one.
// Most such pairs share no factor, and then nothing is divided.
pub fn lcm(a: u64, b: u64) -> u64
    requires { lcm_of a b < 2 ^ 64 }
    ensures answer { result ≡ lcm_of a b }
    ensures rule { IsLcm a b result }
{
    if a == 0 {
        return 0;
    }
    let g = gcd(a, b % a);
    if g == 1 {
        return a * b;
    }
    a / g * b
}
