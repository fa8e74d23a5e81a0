//! Divisors that are never 0: the lowest bit is set.

ghost use Rattle.std.specs.Prelude.{◌≡◌, ◌+◌, ◌≤◌, bit_or};

/// `n | 1`.
#[tactic(auto, using(crate::proofs::LowestBit::odd_above, crate::proofs::LowestBit::odd_below))]
pub fn odd(n: u64) -> u64
    ensures value { result ≡ bit_or n 1 }
    ensures at_least_one { 1 ≤ result }
    ensures at_least { n ≤ result }
    ensures at_most { result ≤ n + 1 }
{
    n | 1
}

/// `n | 1`, in 128 bits.
#[tactic(auto, using(crate::proofs::LowestBit::odd_above, crate::proofs::LowestBit::odd_below))]
pub fn odd_wide(n: u128) -> u128
    ensures value { result ≡ bit_or n 1 }
    ensures at_least_one { 1 ≤ result }
    ensures at_least { n ≤ result }
    ensures at_most { result ≤ n + 1 }
{
    n | 1
}
