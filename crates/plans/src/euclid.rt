// Euclid's rule, and the common multiple that stands on it.
ghost use Rattle.std.specs.Prelude.{◌≤◌};
ghost use Rattle.ticks.specs.Ticks.{most_round};
ghost use Rattle.plans.specs.Euclid.{GreatestDivisor, LeastMultiple};

// The greatest common divisor of two numbers is that of the smaller and the remainder.
#[tactic(auto, using(crate::proofs::Divides::divisor_rest))]
pub fn divisor(a: u64, b: u64) -> u64
    ensures { GreatestDivisor a b result }
{
    if b == 0 { a } else { divisor(b, a % b) }
}

// The least number that both go into.
#[tactic(auto, using(crate::proofs::Divides::divisor_some, crate::proofs::Divides::multiple_least))]
pub fn multiple(a: u64, b: u64) -> u64
    requires { (1 ≤ a) × (a ≤ most_round) × (1 ≤ b) × (b ≤ most_round) }
    ensures { LeastMultiple a b result }
{
    a / divisor(a, b) * b
}
