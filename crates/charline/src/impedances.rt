//! The impedance of a reach whose friction is taken linearly.
ghost use Rattle.std.specs.Prelude.{◌≡◌, ◌+◌, ◌*◌, ◌≤◌, ◌≤ℤ◌, pos, unsigned_abs};
ghost use Rattle.fixed_num.specs.Rounding.{half_up};
ghost use Rattle.charline.specs.Characteristics.{
  IsImpedance,
  IsResistance,
  friction_impedance as impedance_of,
};

/// The impedance (1e-6 s/m2) of a reach of impedance `b` with its friction `r` (1e-12 s2/m5) at a flow
/// `q` (1e-9 m3/s), whichever way it goes.
#[tactic(auto, unfolding(crate::specs::Characteristics::friction_impedance))]
pub(crate) fn friction_impedance(b: i64, r: i128, q: i64) -> i64
    requires impedance { IsImpedance b }
    requires resistance { IsResistance r }
    requires flow_in { unsigned_abs q ≤ 1_000_000_000_000 }
    ensures value { result ≡ impedance_of b r q }
    ensures low { pos 100_000 ≤ℤ result }
{
    b + share(r as u128, q.unsigned_abs()) as i64
}

// Where friction fits 64 bits its millions and the rest are taken apart, so that both products mostly
// fit as well and only constants divide.
fn share(r: u128, q: u64) -> u64
    requires r_in { r ≤ 100_000_000_000_000_000_000 }
    requires q_in { q ≤ 1_000_000_000_000 }
    ensures value { result ≡ half_up (r * q) 1_000_000_000_000_000 }
    ensures size { result ≤ 100_000_000_000_000_001 }
{
    if r < 1 << 64 {
        narrow_share(r as u64, q)
    } else {
        wide_share(r, q)
    }
}

fn narrow_share(r: u64, q: u64) -> u64
    requires q_in { q ≤ 1_000_000_000_000 }
    ensures value { result ≡ half_up (r * q) 1_000_000_000_000_000 }
    ensures size { result ≤ 100_000_000_000_000_001 }
{
    match (r / 1_000_000).checked_mul(q) {
        Some(most) if most <= 18_000_000_000_000_000_000 => joined(most, (r % 1_000_000) * q),
        _ => wide_share(r as u128, q),
    }
}

fn joined(most: u64, rest: u64) -> u64
    requires most_in { most ≤ 18_000_000_000_000_000_000 }
    requires rest_in { rest ≤ 1_000_000_000_000_000_000 }
    ensures value { result ≡ half_up (most * 1_000_000 + rest) 1_000_000_000_000_000 }
    ensures size { result ≤ 18_446_744_074 }
{
    (most + rest / 1_000_000 + 500_000_000) / 1_000_000_000
}

fn wide_share(r: u128, q: u64) -> u64
    requires r_in { r ≤ 100_000_000_000_000_000_000 }
    requires q_in { q ≤ 1_000_000_000_000 }
    ensures value { result ≡ half_up (r * q) 1_000_000_000_000_000 }
    ensures size { result ≤ 100_000_000_000_000_001 }
{
    ((r * q as u128 + 500_000_000_000_000) / 1_000_000_000_000_000) as u64
}
