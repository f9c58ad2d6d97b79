//! What is kept of a place at one step.
ghost use Rattle.std.specs.Prelude.{◌≡◌, Some};
ghost use Rattle.case_model.specs.Runs.{calm_point};
ghost use Rattle.case_model.specs.Samples.{point_sample};
ghost use Rattle.envelope.specs.Lines.{told};

use case_model::Spot;

/// What is kept of a place at one step. Of a node the upstream flow is 0 and the downstream one its
/// growth.
#[derive(Clone, Copy, Debug, PartialEq, Eq)]
pub struct Sample {
    /// Head, in 1e-6 m.
    pub h: i64,
    /// Flow on the upstream side, in 1e-9 m3/s.
    pub qu: i64,
    /// Flow on the downstream side, in 1e-9 m3/s.
    pub qd: i64,
    /// Volume of the cavity or of the gas, in 1e-9 m3.
    pub v: i64,
}

impl Sample {
    /// The sample of a place without a cavity.
    pub(crate) fn of_spot(spot: &Spot) -> Sample
        ensures { told (Some result) ≡ point_sample (calm_point spot.now) }
    {
        Sample {
            h: spot.h,
            qu: spot.q,
            qd: spot.q,
            v: 0,
        }
    }
}
