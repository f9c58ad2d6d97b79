//! The flow at which a segment of a curve leaves nothing.
ghost use Rattle.std.specs.Prelude.{◌≡◌, ◌≤◌, ℤ, pos, ◌+ℤ◌, ◌-ℤ◌, ◌*ℤ◌, ◌≤ℤ◌, unsigned_abs};
ghost use Rattle.fixed_num.specs.Rounding.{rnd as rounded};
ghost use Rattle.case_model.specs.Limits.{IsWithin};
ghost use Rattle.pumps.specs.Pumps.{crossing as crossing_of};

use fixed_num::rnd;

/// The flow at which nothing is left of a difference of heads and the rise on the line from one point to
/// another, behind an impedance.
#[tactic(auto, unfolding(crate::specs::Pumps::crossing))]
pub(crate) fn crossing(e: i64, b: i64, from: (i64, i64), to: (i64, i64)) -> i128
    requires e_in { unsigned_abs e ≤ 20_000_000_000_000 }
    requires b_in { IsWithin (pos 200_000) (pos 20_000_000_000_000) b }
    requires from_flow { IsWithin (pos 0) (pos 2_000_000_000_000) from.0 }
    requires from_rise { IsWithin (pos 0) (pos 400_000_000_000) from.1 }
    requires to_flow { IsWithin (pos 0) (pos 2_000_000_000_000) to.0 }
    requires to_rise { IsWithin (pos 0) (pos 400_000_000_000) to.1 }
    requires rising { (from.0 +ℤ pos 1) ≤ℤ to.0 }
    requires falling { to.1 ≤ℤ from.1 }
    ensures { result ≡ crossing_of e b from to }
{
    line_flow(e + from.1, to.0 - from.0, from.1 - to.1, from.0, b)
}

// Over a width of flow the rise falls from that of the flow `from`, where the head is left.
fn line_flow(head: i64, width: i64, fall: i64, from: i64, b: i64) -> i128
    requires head_in { unsigned_abs head ≤ 30_000_000_000_000 }
    requires width_in { IsWithin (pos 1) (pos 2_000_000_000_000) width }
    requires fall_in { IsWithin (pos 0) (pos 400_000_000_000) fall }
    requires from_in { IsWithin (pos 0) (pos 2_000_000_000_000) from }
    requires b_in { IsWithin (pos 200_000) (pos 20_000_000_000_000) b }
    ensures { result
        ≡ rounded (((head *ℤ width) +ℤ (fall *ℤ from)) *ℤ pos 1_000_000_000)
        ((fall *ℤ pos 1_000_000_000) +ℤ (b *ℤ width)) }
{
    rnd(
        driving(product(head, width), product(fall, from)),
        slope(fall, resistance(b, width)),
    )
}

fn product(x: i64, y: i64) -> i128
    requires x_in { unsigned_abs x ≤ 30_000_000_000_000 }
    requires y_in { IsWithin (pos 0) (pos 2_000_000_000_000) y }
    ensures value { result ≡ x *ℤ y }
    ensures size { unsigned_abs result ≤ 60_000_000_000_000_000_000_000_000 }
{
    x as i128 * y as i128
}

fn resistance(b: i64, width: i64) -> i128
    requires b_in { IsWithin (pos 200_000) (pos 20_000_000_000_000) b }
    requires width_in { IsWithin (pos 1) (pos 2_000_000_000_000) width }
    ensures value { result ≡ b *ℤ width }
    ensures low { pos 1 ≤ℤ result }
    ensures size { unsigned_abs result ≤ 60_000_000_000_000_000_000_000_000 }
{
    b as i128 * width as i128
}

fn driving(driven: i128, fallen: i128) -> i128
    requires driven_in { unsigned_abs driven ≤ 60_000_000_000_000_000_000_000_000 }
    requires fallen_in { unsigned_abs fallen ≤ 60_000_000_000_000_000_000_000_000 }
    ensures value { result ≡ (driven +ℤ fallen) *ℤ pos 1_000_000_000 }
    ensures size { unsigned_abs result ≤ 120_000_000_000_000_000_000_000_000_000_000_000 }
{
    (driven + fallen) * 1_000_000_000
}

fn slope(fall: i64, resistance: i128) -> i128
    requires fall_in { IsWithin (pos 0) (pos 400_000_000_000) fall }
    requires some { pos 1 ≤ℤ resistance }
    requires resistance_in { unsigned_abs resistance ≤ 60_000_000_000_000_000_000_000_000 }
    ensures value { result ≡ (fall *ℤ pos 1_000_000_000) +ℤ resistance }
    ensures low { pos 1 ≤ℤ result }
    ensures size { unsigned_abs result ≤ 70_000_000_000_000_000_000_000_000 }
{
    fall as i128 * 1_000_000_000 + resistance
}
