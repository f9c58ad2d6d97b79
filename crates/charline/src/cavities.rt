//! The discrete vapour cavity.
ghost use Rattle.std.specs.Prelude.{◌≡◌, ◌≤◌, ℤ, pos, ◌+ℤ◌, ◌-ℤ◌, ◌*ℤ◌, ◌≤ℤ◌, unsigned_abs};
ghost use Rattle.fixed_num.specs.Rounding.{rnd as rounded};
ghost use Rattle.charline.specs.Cavity.{IsRule, cavity_volume as volume_of};

use case_model::CavityRule;
use fixed_num::rnd;

/// The volume (1e-9 m3) that a cavity has one time step later, by its volume and its growth
/// (1e-9 m3/s) before and its growth now. It may be negative: the cavity has then collapsed.
/// Wylie and Streeter, Fluid Transients in Systems, column separation.
#[tactic(auto, unfolding(crate::specs::Cavity::cavity_volume))]
pub fn cavity_volume(rule: &CavityRule, old_v: i64, old_g: i64, g: i64) -> i128
    requires rule { IsRule rule.now }
    ensures value { result ≡ volume_of rule.now old_v old_g g }
{
    let growth = weighted(rule.psi, g, old_g);
    grown(old_v, volume_gained(rule.dt, growth))
}

// Ten times the mean growth over the step.
fn weighted(psi: i64, now: i64, before: i64) -> i128
    requires least { pos 5 ≤ℤ psi }
    requires most { psi ≤ℤ pos 10 }
    ensures value { result ≡ ((psi *ℤ now) +ℤ ((pos 10 -ℤ psi) *ℤ before)) }
    ensures size { unsigned_abs result ≤ 200_000_000_000_000_000_000 }
{
    product(psi, now) + product(10 - psi, before)
}

fn product(x: i64, y: i64) -> i128
    requires x_in { unsigned_abs x ≤ 10 }
    ensures value { result ≡ x *ℤ y }
    ensures size { unsigned_abs result ≤ 100_000_000_000_000_000_000 }
{
    x as i128 * y as i128
}

fn volume_gained(dt: i64, growth: i128) -> i128
    requires least { pos 1 ≤ℤ dt }
    requires most { dt ≤ℤ pos 1_000_000 }
    requires growth_in { unsigned_abs growth ≤ 200_000_000_000_000_000_000 }
    ensures value { result ≡ rounded (dt *ℤ growth) (pos 10_000_000) }
    ensures size { unsigned_abs result ≤ 20_000_000_000_000_000_001 }
{
    rnd(dt as i128 * growth, 10_000_000)
}

fn grown(volume: i64, gained: i128) -> i128
    requires gained_in { unsigned_abs gained ≤ 20_000_000_000_000_000_001 }
    ensures value { result ≡ volume +ℤ gained }
{
    volume as i128 + gained
}
