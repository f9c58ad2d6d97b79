//! Points, as what a stretch keeps of them, and lists of cavities.
ghost use Rattle.std.specs.Prelude.{◌≡◌, ℕ, true};
ghost use Rattle.case_model.specs.declared.points.Point.{Point as AnyPoint};
ghost use Rattle.case_model.specs.Range.{IsPoint};
ghost use Rattle.case_model.specs.Runs.{calm_point};
ghost use Rattle.fronts.specs.Cavities.{cavity_at, no_cavity, volume_and_flow, with_cavity};

use crate::cavities::Cavity;
use case_model::{Point, Spot};

/// A point, as what is kept of it.
#[derive(Clone, Copy)]
pub(crate) struct Parts {
    pub(crate) spot: Spot,
    pub(crate) cavity: Cavity,
}

/// What is kept of a point. Of a Bad one the spot tells nothing.
#[tactic(auto, unfolding(crate::specs::Cavities::with_cavity))]
pub(crate) fn apart(point: &Point) -> Parts
    requires { IsPoint point.now }
    ensures { with_cavity (calm_point result.spot) (volume_and_flow result.cavity) ≡ point.now }
{
    match point {
        Point::Good { h, qu, qd, v } => Parts {
            spot: Spot { h: *h, q: *qd },
            cavity: Cavity { v: *v, up: *qu },
        },
        Point::Bad => Parts {
            spot: Spot { h: 0, q: 0 },
            cavity: Cavity { v: -2, up: 0 },
        },
    }
}

/// Writes that there is no cavity over all of these.
pub(crate) fn clear(cavities: &mut [Cavity])
    ensures { (k : ℕ) → cavity_at cavities.new k ≡ no_cavity }
{
    for cavity in cavities.iter_mut() {
        *cavity = Cavity::none();
    }
}

/// Whether none of these is a cavity, and none tells of a Bad point.
#[inline(never)]
pub(crate) fn are_none(cavities: &[Cavity]) -> bool
    ensures { result ≡ true → (k : ℕ) (point : AnyPoint) →
        with_cavity point (cavity_at cavities.now k) ≡ point }
{
    for cavity in cavities {
        if !cavity.is_none() {
            return false;
        }
    }
    true
}
