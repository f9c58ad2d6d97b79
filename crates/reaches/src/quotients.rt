//! Products and quotients of sizes.
ghost use Rattle.std.specs.Prelude.{◌≡◌, ◌+◌, ◌*◌, ◌<◌, ◌≤◌, ◌≤ℤ◌, ℤ, pos};
ghost use Rattle.fixed_num.specs.Rounding.{rnd as rounded};

use fixed_num::rnd;

/// The quotient of two sizes, rounded to the nearest.
#[tactic(auto, unfolding(fixed_num::specs::Rounding::rnd))]
pub(crate) fn quotient(n: u128, d: u128) -> u128
    requires some { 0 < d }
    requires n_in { n ≤ 160_000_000_000_000_000_000_000_000_000_000_000_000 }
    requires d_in { d ≤ 160_000_000_000_000_000_000_000_000_000_000_000_000 }
    ensures value { pos result ≡ rounded (pos n) (pos d) }
    ensures high { 2 * result * d ≤ 2 * n + d }
    ensures low { 2 * n ≤ 2 * result * d + d }
{
    rnd(n as i128, d as i128) as u128
}

/// The size of a positive number.
pub(crate) fn size(x: i64) -> u64
    requires { pos 0 ≤ℤ x }
    ensures { pos result ≡ x }
{
    x as u64
}

/// The product of two sizes.
pub(crate) fn product(a: u64, b: u64) -> u128
    requires a_in { a ≤ 10_000_000_000_000_000_000 }
    requires b_in { b ≤ 10_000_000_000_000_000_000 }
    ensures value { result ≡ a * b }
    ensures most { result ≤ 100_000_000_000_000_000_000_000_000_000_000_000_000 }
    ensures some { 0 < a → 0 < b → 0 < result }
{
    a as u128 * b as u128
}
