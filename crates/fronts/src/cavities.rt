//! Cavities of places, kept apart from heads and flows.
ghost use Rattle.std.specs.Prelude.{◌≤◌, unsigned_abs};

use case_model::{Point, Spot};

/// What a place has beside its head and its downstream flow: a cavity, none, or that its point is
/// Bad.
#[derive(Clone, Copy, Debug)]
pub(crate) struct Cavity {
    /// Volume, in 1e-9 m3, from 0 to 10^15. It is -1 where there is no cavity, and -2 where the
    /// point is Bad, so that a place takes two numbers.
    pub(crate) v: i64,
    /// Flow on the upstream side, in 1e-9 m3/s, of a size up to 10^12.
    pub(crate) up: i64,
    ghost volume: { unsigned_abs v ≤ 1_000_000_000_000_000 },
    ghost flow: { unsigned_abs up ≤ 1_000_000_000_000 },
}

impl Cavity {
    ghost use Rattle.std.specs.Prelude.{◌≡◌, true};
    ghost use Rattle.case_model.specs.declared.points.Point.{Point as AnyPoint};
    ghost use Rattle.case_model.specs.Range.{IsPoint};
    ghost use Rattle.case_model.specs.Runs.{calm_point};
    ghost use Rattle.fronts.specs.Cavities.{no_cavity, volume_and_flow, with_cavity};

    /// No cavity.
    pub(crate) fn none() -> Cavity
        ensures { volume_and_flow result ≡ no_cavity }
    {
        Cavity { v: -1, up: 0 }
    }

    /// Whether there is no cavity, and the point isn't Bad.
    #[tactic(auto, unfolding(crate::specs::Cavities::with_cavity))]
    pub(crate) fn is_none(&self) -> bool
        ensures { result ≡ true → (point : AnyPoint) →
            with_cavity point (volume_and_flow self.now) ≡ point }
    {
        -1 <= self.v && self.v < 0
    }

    /// The point of a place with this head and downstream flow.
    #[tactic(auto, unfolding(crate::specs::Cavities::with_cavity))]
    pub(crate) fn with(&self, spot: &Spot) -> Point
        ensures point { result ≡ with_cavity (calm_point spot.now) (volume_and_flow self.now) }
        ensures in_range { IsPoint result }
    {
        if self.v >= 0 {
            return Point::Good {
                h: spot.h,
                qu: self.up,
                qd: spot.q,
                v: self.v,
            };
        }
        if self.v >= -1 {
            return spot.point();
        }
        Point::Bad
    }
}
