//! Heads and flows by an impedance.
ghost use Rattle.std.specs.Prelude.{◌≡◌, ◌^◌, ◌≤◌, ◌≤ℤ◌, pos, unsigned_abs};
ghost use Rattle.fixed_num.specs.Rounding.{rnd as rounded, half_up};
ghost use Rattle.charline.specs.Characteristics.{
  IsImpedance,
  impedance_head as head_of,
  driven_flow as flow_of,
};

use fixed_num::rnd;

/// The flow (1e-9 m3/s) that a difference of heads (1e-6 m) drives through an impedance
/// (1e-6 s/m2).
#[tactic(auto, unfolding(crate::specs::Characteristics::driven_flow))]
pub fn driven_flow(head: i64, b: i64) -> i64
    requires head_in { unsigned_abs head ≤ 20_000_000_000_000 }
    requires low { pos 100_000 ≤ℤ b }
    requires high { b ≤ℤ pos 20_000_000_000_000 }
    ensures value { result ≡ flow_of head b }
    ensures size { unsigned_abs result ≤ 200_000_000_000_000_000 }
{
    rnd(head as i128 * 1_000_000_000, b as i128) as i64
}

/// The head (1e-6 m) that a flow (1e-9 m3/s) stands for at an impedance (1e-6 s/m2).
#[tactic(auto, unfolding(crate::specs::Characteristics::impedance_head))]
pub fn impedance_head(b: i64, q: i64) -> i64
    requires impedance { IsImpedance b }
    requires flow_in { unsigned_abs q ≤ 1_000_000_000_000 }
    ensures value { result ≡ head_of b q }
    ensures size { unsigned_abs result ≤ 10_000_000_000_000_000 }
{
    // Typical products fit 64 bits, where a constant divisor costs no division.
    match b.checked_mul(q) {
        Some(product) => billionth(product),
        None => wide_impedance_head(b, q),
    }
}

#[tactic(auto, unfolding(crate::specs::Characteristics::impedance_head))]
fn wide_impedance_head(b: i64, q: i64) -> i64
    requires impedance { IsImpedance b }
    requires flow_in { unsigned_abs q ≤ 1_000_000_000_000 }
    ensures value { result ≡ head_of b q }
    ensures size { unsigned_abs result ≤ 10_000_000_000_000_000 }
{
    rnd(b as i128 * q as i128, 1_000_000_000) as i64
}

#[tactic(auto, unfolding(fixed_num::specs::Rounding::rnd))]
fn billionth(n: i64) -> i64
    ensures value { result ≡ rounded n (pos 1_000_000_000) }
    ensures size { unsigned_abs result ≤ 10_000_000_000 }
{
    let size = billionth_of_size(n.unsigned_abs()) as i64;
    if n < 0 { -size } else { size }
}

fn billionth_of_size(n: u64) -> u64
    requires { n ≤ 2 ^ 63 }
    ensures value { result ≡ half_up n 1_000_000_000 }
    ensures size { result ≤ 10_000_000_000 }
{
    let whole = n / 1_000_000_000;
    if n % 1_000_000_000 >= 500_000_000 {
        whole + 1
    } else {
        whole
    }
}

/// Half of a sum of heads, rounded.
#[tactic(auto, unfolding(fixed_num::specs::Rounding::rnd))]
pub(crate) fn half(n: i64) -> i64
    requires { unsigned_abs n ≤ 20_000_000_000_000 }
    ensures value { result ≡ rounded n (pos 2) }
    ensures size { unsigned_abs result ≤ 10_000_000_000_000 }
{
    let size = half_of_size(n.unsigned_abs()) as i64;
    if n < 0 { -size } else { size }
}

fn half_of_size(n: u64) -> u64
    requires { n ≤ 20_000_000_000_000 }
    ensures value { result ≡ half_up n 2 }
    ensures size { result ≤ 10_000_000_000_000 }
{
    (n + 1) / 2
}
