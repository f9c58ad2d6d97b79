//! What goes through a pump.
ghost use Rattle.std.specs.Prelude.{
  ◌≡◌,
  ◌+◌,
  ◌<◌,
  ◌≤◌,
  ℤ,
  pos,
  ◌+ℤ◌,
  ◌-ℤ◌,
  ◌≤ℤ◌,
  unsigned_abs,
  length,
  All,
};
ghost use Rattle.std.specs.Int.{int_max};
ghost use Rattle.case_model.specs.Limits.{IsWithin, IsEntry, IsInOrder};
ghost use Rattle.case_model.specs.declared.cases.TableKind.TheVariants.{Curve};
ghost use Rattle.charline.specs.Characteristics.{IsArrival};
ghost use Rattle.pumps.specs.Pumps.{free_flow as free_of, crossing_at as crossing_on};
ghost use Rattle.pumps.specs.Pumps.{crossing as crossing_of, point_at as point_of, pump_through};

use crate::crossings::crossing;
use crate::curves::{point_at, segment};
use case_model::{Arrival, Through};
use charline::driven_flow;
use valves::through;

/// What goes through a pump with a curve of flows (1e-9 m3/s) and rises (1e-6 m) at a speed ratio
/// (1e-6), from pipe `one` to pipe `two`, and never back. Bad where the flow or a head is out of range.
/// Wylie and Streeter, Fluid Transients in Systems, centrifugal pumps.
#[tactic(auto, unfolding(crate::specs::Pumps::pump_through))]
pub fn pump_flow(curve: &[(i64, i64)], speed: i64, one: &Arrival, two: &Arrival) -> Through
    requires some_points { 2 ≤ length curve.now }
    requires few_points { length curve.now ≤ 32 }
    requires points_in { All (IsEntry Curve) curve.now }
    requires order { IsInOrder Curve curve.now }
    requires speed_in { IsWithin (pos 0) (pos 2_000_000) speed }
    requires one_in { IsArrival one.now }
    requires two_in { IsArrival two.now }
    ensures { result ≡ pump_through curve.now speed one.now two.now }
{
    let flow = free_flow(one.c - two.c, one.b + two.b, speed, curve);
    through(one, two, flow.max(0))
}

fn free_flow(e: i64, b: i64, speed: i64, curve: &[(i64, i64)]) -> i128
    requires e_in { unsigned_abs e ≤ 20_000_000_000_000 }
    requires least_b { pos 200_000 ≤ℤ b }
    requires most_b { b ≤ℤ pos 20_000_000_000_000 }
    requires speed_in { IsWithin (pos 0) (pos 2_000_000) speed }
    requires some_points { 2 ≤ length curve.now }
    requires points_in { All (IsEntry Curve) curve.now }
    requires order { IsInOrder Curve curve.now }
    ensures { result ≡ free_of e b speed curve.now }
{
    if speed < 10_000 {
        return driven_flow(e, b) as i128;
    }
    let at = segment(e, b, speed, curve);
    crossing_at(e, b, speed, curve, at)
}

fn crossing_at(e: i64, b: i64, speed: i64, curve: &[(i64, i64)], at: usize) -> i128
    requires e_in { unsigned_abs e ≤ 20_000_000_000_000 }
    requires b_in { IsWithin (pos 200_000) (pos 20_000_000_000_000) b }
    requires speed_in { IsWithin (pos 10_000) (pos 2_000_000) speed }
    requires points_in { All (IsEntry Curve) curve.now }
    requires order { IsInOrder Curve curve.now }
    requires inside { at + 1 < length curve.now }
    ensures { result ≡ crossing_on e b speed curve.now at }
{
    on_segment(e, b, speed, curve[at], curve[at + 1])
}

fn on_segment(e: i64, b: i64, speed: i64, from: (i64, i64), to: (i64, i64)) -> i128
    requires e_in { unsigned_abs e ≤ 20_000_000_000_000 }
    requires b_in { IsWithin (pos 200_000) (pos 20_000_000_000_000) b }
    requires speed_in { IsWithin (pos 10_000) (pos 2_000_000) speed }
    requires from_in { IsEntry Curve from }
    requires to_in { IsEntry Curve to }
    requires rising { (from.0 +ℤ pos 1_000) ≤ℤ to.0 }
    requires falling { to.1 ≤ℤ from.1 }
    ensures { result ≡ crossing_of e b (point_of speed from) (point_of speed to) }
{
    crossing(e, b, point_at(speed, from), point_at(speed, to))
}
