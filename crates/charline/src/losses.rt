//! The head that friction takes along a reach, taken explicitly.
ghost use Rattle.std.specs.Prelude.{◌≡◌, ◌+◌, ◌*◌, ◌<◌, ◌≤◌, ◌^◌, pos, unsigned_abs};
ghost use Rattle.fixed_num.specs.Rounding.{rnd as rounded, half_up};
ghost use Rattle.charline.specs.Characteristics.{IsResistance, friction_head as head_of};

/// The head (1e-6 m) that friction `r` (1e-12 s2/m5) takes along one reach from a flow `q` (1e-9 m3/s),
/// with the sign of the flow.
#[tactic(auto, unfolding(crate::specs::Characteristics::friction_head))]
pub(crate) fn friction_head(r: i128, q: i64) -> i128
    requires resistance { IsResistance r }
    requires flow_in { unsigned_abs q ≤ 1_000_000_000_000 }
    ensures value { result ≡ head_of r q }
    ensures size { unsigned_abs result ≤ 1_000_000_000_000_000_000_000 }
{
    let size = loss(r as u128, q.unsigned_abs()) as i128;
    if q < 0 { -size } else { size }
}

// The size of the loss: at a unit of flow, and then at this flow.
fn loss(r: u128, q: u64) -> u128
    requires r_in { r ≤ 100_000_000_000_000_000_000 }
    requires q_in { q ≤ 1_000_000_000_000 }
    ensures value { result ≡ half_up (half_up (r * q) 1_000_000_000_000 * q) 1_000_000_000_000 }
    ensures size { result ≤ 100_000_000_000_000_000_010 }
{
    share(slope(r, q), q)
}

// The loss at a unit of flow. Where friction fits 64 bits its millions and the rest are taken apart,
// so that both products mostly fit as well and only constants divide.
fn slope(r: u128, q: u64) -> u128
    requires r_in { r ≤ 100_000_000_000_000_000_000 }
    requires q_in { q ≤ 1_000_000_000_000 }
    ensures value { result ≡ half_up (r * q) 1_000_000_000_000 }
    ensures size { result ≤ 100_000_000_000_000_000_001 }
{
    if r < 1 << 64 {
        narrow_slope(r as u64, q)
    } else {
        share(r, q)
    }
}

fn narrow_slope(r: u64, q: u64) -> u128
    requires q_in { q ≤ 1_000_000_000_000 }
    ensures value { result ≡ half_up (r * q) 1_000_000_000_000 }
    ensures size { result ≤ 18_446_744_073_709_551_616 }
{
    match (r / 1_000_000).checked_mul(q) {
        Some(most) if most <= 18_000_000_000_000_000_000 => joined(
            most,
            (r % 1_000_000) * q,
        ) as u128,
        _ => share(r as u128, q),
    }
}

fn joined(most: u64, rest: u64) -> u64
    requires most_in { most ≤ 18_000_000_000_000_000_000 }
    requires rest_in { rest ≤ 1_000_000_000_000_000_000 }
    ensures value { result ≡ half_up (most * 1_000_000 + rest) 1_000_000_000_000 }
    ensures size { result ≤ 18_446_744_073_709_551_615 }
{
    (most + rest / 1_000_000 + 500_000) / 1_000_000
}

// The product of a number and a flow in 1e-12 of it.
fn share(x: u128, q: u64) -> u128
    requires x_in { x ≤ 100_000_000_000_000_000_001 }
    requires q_in { q ≤ 1_000_000_000_000 }
    ensures value { result ≡ half_up (x * q) 1_000_000_000_000 }
    ensures size { result ≤ x + 1 }
{
    if x < 1 << 64 {
        narrow_share(x as u64, q)
    } else {
        wide_share(x, q)
    }
}

fn narrow_share(x: u64, q: u64) -> u128
    requires q_in { q ≤ 1_000_000_000_000 }
    ensures value { result ≡ half_up (x * q) 1_000_000_000_000 }
{
    match x.checked_mul(q) {
        Some(product) => trillionths(product) as u128,
        None => wide_share(x as u128, q),
    }
}

fn trillionths(n: u64) -> u64
    ensures value { result ≡ half_up n 1_000_000_000_000 }
{
    let whole = n / 1_000_000_000_000;
    if n % 1_000_000_000_000 >= 500_000_000_000 {
        whole + 1
    } else {
        whole
    }
}

fn wide_share(x: u128, q: u64) -> u128
    requires x_in { x ≤ 100_000_000_000_000_000_001 }
    requires q_in { q ≤ 1_000_000_000_000 }
    ensures value { result ≡ half_up (x * q) 1_000_000_000_000 }
{
    (x * q as u128 + 500_000_000_000) / 1_000_000_000_000
}
