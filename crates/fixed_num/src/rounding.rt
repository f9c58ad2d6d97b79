//! Rounding of quotients to the nearest whole number.
ghost use Rattle.std.specs.Prelude.{◌≡◌, ◌+◌, ◌*◌, ◌<◌, ◌≤◌, ℤ, pos, ◌<ℤ◌, unsigned_abs};
ghost use Rattle.fixed_num.specs.Rounding.{half_up, rnd as rounded, IsNearest};

/// The quotient `n / d`, rounded to the nearest integer, a half away from zero.
pub fn rnd(n: i128, d: i128) -> i128
    requires positive { pos 0 <ℤ d }
    requires n_size { unsigned_abs n ≤ 160_000_000_000_000_000_000_000_000_000_000_000_000 }
    requires d_size { unsigned_abs d ≤ 160_000_000_000_000_000_000_000_000_000_000_000_000 }
    ensures value { result ≡ rounded n d }
    ensures nearest { IsNearest n d result }
    ensures only { (x : ℤ) → IsNearest n d x → x ≡ result }
    ensures size { 2 * unsigned_abs result * unsigned_abs d ≤ 2 * unsigned_abs n + unsigned_abs d }
{
    quotient(n, d)
}

#[tactic(auto, unfolding(crate::specs::Rounding::rnd))]
fn quotient(n: i128, d: i128) -> i128
    requires positive { pos 0 <ℤ d }
    requires n_size { unsigned_abs n ≤ 160_000_000_000_000_000_000_000_000_000_000_000_000 }
    requires d_size { unsigned_abs d ≤ 160_000_000_000_000_000_000_000_000_000_000_000_000 }
    ensures { result ≡ rounded n d }
{
    let size = half_up_any(n.unsigned_abs(), d.unsigned_abs()) as i128;
    if n < 0 { -size } else { size }
}

// Takes the fast path where both operands fit 64 bits.
fn half_up_any(n: u128, d: u128) -> u128
    requires { 0 < d }
    ensures { result ≡ half_up n d }
{
    if n < 1 << 64 && d < 1 << 64 {
        half_up_u64(n as u64, d as u64) as u128
    } else {
        half_up_u128(n, d)
    }
}

fn half_up_u64(n: u64, d: u64) -> u64
    requires { 0 < d }
    ensures { result ≡ half_up n d }
{
    let quotient = n / d;
    let rest = n % d;
    if rest >= d - rest {
        quotient + 1
    } else {
        quotient
    }
}

// 2 * n + d is never computed, since it may not fit.
fn half_up_u128(n: u128, d: u128) -> u128
    requires { 0 < d }
    ensures { result ≡ half_up n d }
{
    let quotient = n / d;
    let rest = n % d;
    if d - rest <= rest {
        quotient + 1
    } else {
        quotient
    }
}
