//! What a place has at a step where it has no cavity.
ghost use Rattle.std.specs.Prelude.{◌≤◌, unsigned_abs};

use crate::Point;

/// The point of a place without a cavity: its flow is the same on both sides, and its numbers are in
/// range.
#[derive(Clone, Copy, Debug)]
pub struct Spot {
    /// Head, in 1e-6 m, of a size up to 10^11.
    pub h: i64,
    /// Flow, in 1e-9 m3/s, of a size up to 10^12.
    pub q: i64,
    ghost head: { unsigned_abs h ≤ 100_000_000_000 },
    ghost flow: { unsigned_abs q ≤ 1_000_000_000_000 },
}

impl Spot {
    ghost use Rattle.std.specs.Prelude.{◌≡◌, IfSome};
    ghost use Rattle.case_model.specs.Range.{IsPoint};
    ghost use Rattle.case_model.specs.Runs.{calm_point};

    /// The spot of a point that has no cavity and the same flow on both sides; None of others.
    pub fn of(point: &Point) -> Option<Spot>
        requires { IsPoint point.now }
        ensures { IfSome result (λ spot. calm_point spot ≡ point.now) }
    {
        match point {
            Point::Good { h, qu, qd, v } if *v == 0 && *qu == *qd => Some(Spot { h: *h, q: *qu }),
            _ => None,
        }
    }

    /// Its point.
    pub fn point(&self) -> Point
        ensures point { result ≡ calm_point self.now }
        ensures in_range { IsPoint result }
    {
        Point::Good {
            h: self.h,
            qu: self.q,
            qd: self.q,
            v: 0,
        }
    }
}
