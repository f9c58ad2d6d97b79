//! The mean of heads by weights.
ghost use Rattle.std.specs.Prelude.{◌≡◌, ◌<◌, ◌≤◌, ◌*◌, ◌/◌, ◌+ℤ◌, ◌-ℤ◌, ◌≤ℤ◌, pos, unsigned_abs};
ghost use Rattle.fixed_num.specs.Rounding.{rnd as rounded};
ghost use Rattle.junctions.specs.Means.{twice_down};

use fixed_num::Guess;

/// A sum of heads times weights by the sum of the weights, rounded to the nearest, a half away from
/// zero.
pub(crate) fn mean(heads: i128, weights: i128, guess: Guess) -> i64
    requires low { pos 1 ≤ℤ weights }
    requires high { weights ≤ℤ pos 1_600_000_000_000_000_000 }
    requires heads_in { unsigned_abs heads ≤ 10_010_000_000_000_000 * unsigned_abs weights }
    ensures value { result ≡ rounded heads weights }
    ensures size { unsigned_abs result ≤ 10_010_000_000_000_000 }
{
    mean_by(heads, weights as u64, guess)
}

// A multiple of the weight is added to the heads, so that both signs are divided alike.
fn mean_by(heads: i128, weight: u64, guess: Guess) -> i64
    requires low { 1 ≤ weight }
    requires high { weight ≤ 1_600_000_000_000_000_000 }
    requires heads_in { unsigned_abs heads ≤ 10_010_000_000_000_000 * weight }
    ensures value { result ≡ rounded heads (pos weight) }
    ensures size { unsigned_abs result ≤ 10_010_000_000_000_000 }
{
    lowered(quotient(raised(heads, weight), weight, guess))
}

// The heads twice, raised by so many weights that they are not below 0.
fn raised(heads: i128, weight: u64) -> u128
    requires low { 1 ≤ weight }
    requires high { weight ≤ 1_600_000_000_000_000_000 }
    requires heads_in { unsigned_abs heads ≤ 10_010_000_000_000_000 * weight }
    ensures value { pos result ≡ twice_down heads +ℤ pos (weight * 36_028_797_018_963_969) }
    ensures size { result < 36_028_797_018_963_968 * (2 * weight) }
{
    (twice(heads) + weight as i128 * 36_028_797_018_963_969) as u128
}

// Twice a number, less one below 0, where a half is rounded down.
fn twice(x: i128) -> i128
    requires { unsigned_abs x ≤ 17_000_000_000_000_000_000_000_000_000_000_000 }
    ensures { result ≡ twice_down x }
{
    if x < 0 { 2 * x - 1 } else { 2 * x }
}

// By twice the weight.
fn quotient(n: u128, weight: u64, guess: Guess) -> u64
    requires some { 1 ≤ weight }
    requires few { weight ≤ 1_600_000_000_000_000_000 }
    requires size { n < 36_028_797_018_963_968 * (2 * weight) }
    ensures value { result ≡ n / (2 * weight) }
    ensures size { result < 36_028_797_018_963_968 }
{
    guess.quotient(n, 2 * weight)
}

// What was added is taken back.
fn lowered(x: u64) -> i64
    requires { x < 36_028_797_018_963_968 }
    ensures { result ≡ pos x -ℤ pos 18_014_398_509_481_984 }
{
    x as i64 - 18_014_398_509_481_984
}
