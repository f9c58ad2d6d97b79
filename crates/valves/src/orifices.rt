//! The flow through a valve.
ghost use Rattle.std.specs.Prelude.{
  ◌≡◌,
  ◌<◌,
  ◌≤◌,
  ◌*◌,
  ◌+◌,
  pos,
  ◌+ℤ◌,
  ◌-ℤ◌,
  ◌*ℤ◌,
  ◌≤ℤ◌,
  unsigned_abs,
};
ghost use Rattle.fixed_num.specs.Rounding.{rnd as rounded};
ghost use Rattle.case_model.specs.Limits.{IsWithin, IsValve};
ghost use Rattle.case_model.specs.Refusals.{is_over as is_over_of};
ghost use Rattle.fixed_num.specs.Roots.{root as root_of};
ghost use Rattle.valves.specs.Orifices.{
  IsOrifice,
  open_flow as open_of,
  square_flow as square_of,
  half_flow as half_of,
  along as along_of,
  orifice_flow as orifice_of,
  line_flow as line_of,
};

use crate::discharges::Valve;
use fixed_num::{rnd, root};

/// Whether b*q0^2 is over 2*h0*10^24 at a valve on pipes of this impedance, all together.
#[tactic(auto, unfolding(case_model::specs::Refusals::is_over))]
pub(crate) fn is_over(valve: &Valve, b: i64) -> bool
    requires valve_in { IsValve valve.now.q0 valve.now.h0 }
    requires impedance { IsWithin (pos 100_000) (pos 20_000_000_000_000) b }
    ensures { result ≡ is_over_of valve.now.q0 valve.now.h0 b }
{
    lost(lost(b as i128, valve.q0), valve.q0) > valve.h0 as i128 * 2_000_000_000_000_000_000_000_000
}

fn lost(x: i128, q0: i64) -> i128
    requires x_in { unsigned_abs x ≤ 20_000_000_000_000_000_000_000_000 }
    requires q0_in { IsWithin (pos 0) (pos 1_000_000_000_000) q0 }
    ensures value { result ≡ x *ℤ q0 }
    ensures size { unsigned_abs result ≤ 1_000_000_000_000 * unsigned_abs x }
{
    x * q0 as i128
}

#[tactic(auto, unfolding(crate::specs::Orifices::open_flow))]
pub(crate) fn open_flow(q0: i64, opening: i64) -> i64
    requires flow { IsWithin (pos 0) (pos 1_000_000_000_000) q0 }
    requires opening { IsWithin (pos 0) (pos 1_000_000) opening }
    ensures value { result ≡ open_of q0 opening }
    ensures within { IsWithin (pos 0) q0 result }
    ensures most { IsWithin (pos 0) (pos 1_000_000_000_000) result }
{
    rnd(q0 as i128 * opening as i128, 1_000_000) as i64
}

fn square(w: i64) -> i128
    requires { unsigned_abs w ≤ 1_000_000_000_000_000 }
    ensures value { result ≡ w *ℤ w }
    ensures size { unsigned_abs result ≡ unsigned_abs w * unsigned_abs w }
    ensures sign { pos 0 ≤ℤ result }
{
    w as i128 * w as i128
}

#[tactic(auto, unfolding(crate::specs::Orifices::square_flow))]
pub(crate) fn square_flow(w: i64, h0: i64) -> i128
    requires flow { IsWithin (pos 0) (pos 1_000_000_000_000) w }
    requires loss { IsWithin (pos 10_000) (pos 100_000_000_000) h0 }
    ensures value { result ≡ square_of w h0 }
    ensures low { pos 0 ≤ℤ result }
    ensures size { unsigned_abs result ≤ 100_000_000_000_000_000_001 }
{
    share(square(w), h0)
}

fn share(n: i128, h0: i64) -> i128
    requires low { pos 0 ≤ℤ n }
    requires n_in { unsigned_abs n ≤ 1_000_000_000_000_000_000_000_000 }
    requires loss { IsWithin (pos 10_000) (pos 100_000_000_000) h0 }
    ensures value { result ≡ rounded n h0 }
    ensures low { pos 0 ≤ℤ result }
    ensures size { unsigned_abs result ≤ 100_000_000_000_000_000_001 }
{
    rnd(n, h0 as i128)
}

#[tactic(auto, unfolding(crate::specs::Orifices::half_flow))]
pub(crate) fn half_flow(b: i64, q0: i64, w: i64, h0: i64) -> i64
    requires orifice { IsOrifice b q0 h0 }
    requires flow { IsWithin (pos 0) q0 w }
    ensures value { result ≡ half_of b w h0 }
    ensures size { unsigned_abs result ≤ 1_000_000_000_000_001 }
{
    half_of_square(b, q0, w, square(w), h0)
}

fn half_of_square(b: i64, q0: i64, w: i64, square: i128, h0: i64) -> i64
    requires orifice { IsOrifice b q0 h0 }
    requires flow { IsWithin (pos 0) q0 w }
    requires squared { square ≡ w *ℤ w }
    requires square_in { unsigned_abs square ≤ 1_000_000_000_000_000_000_000_000 }
    ensures value { result ≡ rounded (b *ℤ square) (pos 2_000_000_000 *ℤ h0) }
    ensures size { unsigned_abs result ≤ 1_000_000_000_000_001 }
{
    rnd(b as i128 * square, 2_000_000_000 * h0 as i128) as i64
}

#[tactic(auto, unfolding(crate::specs::Orifices::line_flow))]
pub(crate) fn line_flow(half: i64, square: i128, e: i64) -> i64
    requires half_in { unsigned_abs half ≤ 1_000_000_000_000_001 }
    requires low { pos 0 ≤ℤ square }
    requires square_in { unsigned_abs square ≤ 100_000_000_000_000_000_001 }
    requires e_in { unsigned_abs e ≤ 20_000_000_000_000 }
    ensures value { result ≡ line_of half square e }
    ensures size { unsigned_abs result ≤ 200_000_000_000_000_000 }
{
    along(e, root_of_sum(squared(half), under(square, e)) - half)
}

#[tactic(auto, unfolding(crate::specs::Orifices::orifice_flow))]
pub(crate) fn orifice_flow(square: i128, e: i64) -> i64
    requires low { pos 0 ≤ℤ square }
    requires square_in { unsigned_abs square ≤ 100_000_000_000_000_000_001 }
    requires e_in { unsigned_abs e ≤ 20_000_000_000_000 }
    ensures value { result ≡ orifice_of square e }
    ensures size { unsigned_abs result ≤ 200_000_000_000_000_000 }
{
    along(e, whole_root(under(square, e)))
}

fn squared(half: i64) -> i128
    requires { unsigned_abs half ≤ 1_000_000_000_000_001 }
    ensures value { result ≡ half *ℤ half }
    ensures low { pos 0 ≤ℤ result }
    ensures size { unsigned_abs result ≤ 2_000_000_000_000_000_000_000_000_000_000 }
{
    half as i128 * half as i128
}

fn under(square: i128, e: i64) -> i128
    requires low { pos 0 ≤ℤ square }
    requires square_in { unsigned_abs square ≤ 100_000_000_000_000_000_001 }
    requires e_in { unsigned_abs e ≤ 20_000_000_000_000 }
    ensures value { result ≡ square *ℤ pos (unsigned_abs e) }
    ensures low { pos 0 ≤ℤ result }
    ensures size { unsigned_abs result ≤ 3_000_000_000_000_000_000_000_000_000_000_000 }
{
    square * e.unsigned_abs() as i128
}

fn root_of_sum(x: i128, y: i128) -> i64
    requires x_low { pos 0 ≤ℤ x }
    requires x_in { unsigned_abs x ≤ 2_000_000_000_000_000_000_000_000_000_000 }
    requires y_low { pos 0 ≤ℤ y }
    requires y_in { unsigned_abs y ≤ 3_000_000_000_000_000_000_000_000_000_000_000 }
    ensures value { result ≡ root_of (x +ℤ y) }
    ensures size { unsigned_abs result ≤ 100_000_000_000_000_000 }
{
    whole_root(x + y)
}

fn along(e: i64, q: i64) -> i64
    requires { unsigned_abs q ≤ 200_000_000_000_000_000 }
    ensures value { result ≡ along_of e q }
    ensures size { unsigned_abs result ≤ 200_000_000_000_000_000 }
{
    if e > 0 {
        q
    } else if e < 0 {
        -q
    } else {
        0
    }
}

// The greatest whole number whose square is at most `n`.
fn whole_root(n: i128) -> i64
    requires low { pos 0 ≤ℤ n }
    requires n_in { unsigned_abs n ≤ 10_000_000_000_000_000_000_000_000_000_000_000 }
    ensures value { result ≡ root_of n }
    ensures size { unsigned_abs result ≤ 100_000_000_000_000_000 }
{
    root(n) as i64
}
