//! The points of a curve at a speed, and the segment that a pump works on.
ghost use Rattle.std.specs.Prelude.{
  ◌≡◌,
  ◌+◌,
  ◌<◌,
  ◌≤◌,
  ℤ,
  pos,
  ◌+ℤ◌,
  ◌-ℤ◌,
  ◌*ℤ◌,
  ◌≤ℤ◌,
  unsigned_abs,
  length,
  All,
};
ghost use Rattle.std.specs.List.{position_or_len};
ghost use Rattle.fixed_num.specs.Rounding.{rnd as rounded};
ghost use Rattle.case_model.specs.Limits.{IsWithin, IsEntry};
ghost use Rattle.case_model.specs.declared.cases.TableKind.TheVariants.{Curve};
ghost use Rattle.pumps.specs.Pumps.{
  scaled as scaled_by,
  point_at as point_of,
  net_head as net_of,
  is_spent as spent,
  segment as segment_of,
};

use fixed_num::rnd;

#[tactic(auto, unfolding(crate::specs::Pumps::scaled))]
fn scaled(speed: i64, x: i64) -> i64
    requires speed_in { IsWithin (pos 0) (pos 2_000_000) speed }
    requires x_in { IsWithin (pos 0) (pos 1_000_000_000_000) x }
    ensures value { result ≡ scaled_by speed x }
    ensures within { IsWithin (pos 0) (pos 2 *ℤ x) result }
{
    rnd(speed as i128 * x as i128, 1_000_000) as i64
}

#[tactic(auto, unfolding(crate::specs::Pumps::point_at))]
pub(crate) fn point_at(speed: i64, point: (i64, i64)) -> (i64, i64)
    requires speed_in { IsWithin (pos 0) (pos 2_000_000) speed }
    requires flow_in { IsWithin (pos 0) (pos 1_000_000_000_000) point.0 }
    requires rise_in { IsWithin (pos 0) (pos 100_000_000_000) point.1 }
    ensures value { result ≡ point_of speed point }
    ensures flow { IsWithin (pos 0) (pos 2_000_000_000_000) result.0 }
    ensures rise { IsWithin (pos 0) (pos 400_000_000_000) result.1 }
{
    (
        scaled(speed, point.0),
        scaled(speed, scaled(speed, point.1)),
    )
}

#[tactic(auto, unfolding(crate::specs::Pumps::net_head))]
fn net_head(e: i64, b: i64, point: (i64, i64)) -> i64
    requires e_in { unsigned_abs e ≤ 20_000_000_000_000 }
    requires b_in { IsWithin (pos 200_000) (pos 20_000_000_000_000) b }
    requires flow_in { IsWithin (pos 0) (pos 2_000_000_000_000) point.0 }
    requires rise_in { IsWithin (pos 0) (pos 400_000_000_000) point.1 }
    ensures { result ≡ net_of e b point }
{
    e + point.1 - lost(b, point.0)
}

fn lost(b: i64, flow: i64) -> i64
    requires b_in { IsWithin (pos 200_000) (pos 20_000_000_000_000) b }
    requires flow_in { IsWithin (pos 0) (pos 2_000_000_000_000) flow }
    ensures value { result ≡ rounded (b *ℤ flow) (pos 1_000_000_000) }
    ensures size { unsigned_abs result ≤ 40_000_000_000_000_001 }
{
    rnd(b as i128 * flow as i128, 1_000_000_000) as i64
}

fn is_spent(e: i64, b: i64, speed: i64, point: (i64, i64)) -> bool
    requires e_in { unsigned_abs e ≤ 20_000_000_000_000 }
    requires b_in { IsWithin (pos 200_000) (pos 20_000_000_000_000) b }
    requires speed_in { IsWithin (pos 0) (pos 2_000_000) speed }
    requires point_in { IsEntry Curve point }
    ensures { result ≡ spent e b speed point }
{
    net_head(e, b, point_at(speed, point)) <= 0
}

fn first_spent(e: i64, b: i64, speed: i64, points: &[(i64, i64)]) -> usize
    requires e_in { unsigned_abs e ≤ 20_000_000_000_000 }
    requires b_in { IsWithin (pos 200_000) (pos 20_000_000_000_000) b }
    requires speed_in { IsWithin (pos 0) (pos 2_000_000) speed }
    requires points_in { All (IsEntry Curve) points.now }
    ensures { result ≡ position_or_len (spent e b speed) points.now }
{
    for (i, point) in points.iter().enumerate() {
        if is_spent(e, b, speed, *point) {
            return i;
        }
    }
    points.len()
}

/// The number of the segment of a curve that a pump works on.
#[tactic(auto, unfolding(crate::specs::Pumps::segment))]
pub(crate) fn segment(e: i64, b: i64, speed: i64, curve: &[(i64, i64)]) -> usize
    requires e_in { unsigned_abs e ≤ 20_000_000_000_000 }
    requires b_in { IsWithin (pos 200_000) (pos 20_000_000_000_000) b }
    requires speed_in { IsWithin (pos 0) (pos 2_000_000) speed }
    requires some { 2 ≤ length curve.now }
    requires points_in { All (IsEntry Curve) curve.now }
    ensures value { result ≡ segment_of e b speed curve.now }
    ensures inside { result + 1 < length curve.now }
{
    first_spent(e, b, speed, &curve[1..]).min(curve.len() - 2)
}
