//! The range rule of points and states.
ghost use Rattle.std.specs.Prelude.{◌≡◌, ℤ};
ghost use Rattle.case_model.specs.declared.points.Point.TheVariants.{Good as GoodPoint};
ghost use Rattle.case_model.specs.declared.points.Point.TheVariants.{Bad as BadPoint};
ghost use Rattle.case_model.specs.declared.states.NodeState.TheVariants.{Good as GoodState};
ghost use Rattle.case_model.specs.declared.states.NodeState.TheVariants.{Bad as BadState};
ghost use Rattle.case_model.specs.Range.{InRange, InStateRange, IsPoint, IsState};
ghost use Rattle.case_model.specs.Range.{point_of as point_from, state_of as state_from};

use crate::{NodeState, Point};

/// The point with these numbers (head in 1e-6 m, flows in 1e-9 m3/s, volume in 1e-9 m3), or Bad
/// where one of them is out of range.
#[tactic(auto, unfolding(crate::specs::Range::point_of))]
pub fn point_of(h: i128, qu: i128, qd: i128, v: i128) -> Point
    ensures value { result ≡ point_from h qu qd v }
    ensures range { IsPoint result }
{
    if h.unsigned_abs() <= 100_000_000_000
        && qu.unsigned_abs() <= 1_000_000_000_000
        && qd.unsigned_abs() <= 1_000_000_000_000
        && v >= 0
        && v.unsigned_abs() <= 1_000_000_000_000_000
    {
        return Point::Good {
            h: h as i64,
            qu: qu as i64,
            qd: qd as i64,
            v: v as i64,
        };
    }
    Point::Bad
}

/// The state with these numbers (head in 1e-6 m, volume in 1e-9 m3, growth in 1e-9 m3/s), or Bad
/// where one of them is out of range.
#[tactic(auto, unfolding(crate::specs::Range::state_of))]
pub fn state_of(h: i128, v: i128, g: i128) -> NodeState
    ensures value { result ≡ state_from h v g }
    ensures range { IsState result }
{
    if v >= 0
        && h.unsigned_abs() <= 100_000_000_000
        && v.unsigned_abs() <= 1_000_000_000_000_000
        && g.unsigned_abs() <= 10_000_000_000_000_000
    {
        return NodeState::Good {
            h: h as i64,
            v: v as i64,
            g: g as i64,
        };
    }
    NodeState::Bad
}

/// The law of the range rule: a point or a state of numbers is Good exactly where they are in
/// range, and has these numbers.
pub fn good_is_in_range()
    ensures point { (h qu qd v : ℤ) → InRange h qu qd v →
        point_from h qu qd v ≡ GoodPoint h qu qd v }
    ensures no_point { (h qu qd v : ℤ) → (InRange h qu qd v → ⊥) → point_from h qu qd v ≡ BadPoint }
    ensures state { (h v g : ℤ) → InStateRange h v g → state_from h v g ≡ GoodState h v g }
    ensures no_state { (h v g : ℤ) → (InStateRange h v g → ⊥) → state_from h v g ≡ BadState }
{}
