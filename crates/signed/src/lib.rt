// Signed numbers: the difference of two numbers.
#![tactic(auto)]

ghost use Rattle.std.specs.Prelude.{◌≡◌, ◌^◌, ◌<◌};
ghost use Rattle.signed.specs.Signed.{difference};

// a less b.
pub fn less(a: u64, b: u64) -> i64
    requires { (a < 2 ^ 63) × (b < 2 ^ 63) }
    ensures { result ≡ difference a b }
{
    (a as i64) - (b as i64)
}
