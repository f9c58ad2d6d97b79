//! The quantities that a case text gives in numbers: their units and limits.
ghost use Rattle.std.specs.Prelude.{◌≡◌, ◌≤◌};
ghost use Rattle.case_lines.specs.Quantities.{limits};

/// What a number of the case text is.
#[derive(Clone, Copy, Debug, PartialEq, Eq)]
pub enum Quantity {
    /// Time step, in 1e-6 s.
    TimeStep,
    /// Count of steps.
    StepCount,
    /// Vapour head above elevation, in 1e-6 m.
    VapourHead,
    /// Weight of the new growth of a cavity, in tenths.
    GrowthWeight,
    /// Greatest adjustment of a wave speed, in 1e-3 of it.
    SpeedTolerance,
    /// Count of steps from sample to sample.
    SampleStep,
    /// Time in a table, in 1e-6 s.
    Time,
    /// Head, in 1e-6 m.
    Head,
    /// Demand, or flow at step 0 or in a table, in 1e-9 m3/s.
    Flow,
    /// Opening of a valve, in 1e-6.
    Opening,
    /// Speed ratio of a pump, in 1e-6.
    SpeedRatio,
    /// Flow in the curve of a pump, in 1e-9 m3/s.
    CurveFlow,
    /// Rise of head in the curve of a pump, in 1e-6 m.
    CurveRise,
    /// Gas volume, in 1e-9 m3.
    Volume,
    /// Elevation, in 1e-6 m.
    Elevation,
    /// Flow of a valve when open, in 1e-9 m3/s.
    ValveFlow,
    /// Head loss of a valve at that flow, in 1e-6 m.
    ValveLoss,
    /// Area of the surface of a tank, in 1e-6 m2.
    Area,
    /// Length of a pipe, in 1e-3 m.
    Length,
    /// Diameter of a pipe, in 1e-3 m.
    Diameter,
    /// Wave speed of a pipe, in 1e-3 m/s.
    WaveSpeed,
    /// Friction factor of a pipe, in 1e-6.
    FrictionFactor,
    /// Place of a probe in its pipe.
    PipePlace,
}

/// The unit and the limits of a quantity.
#[derive(Clone, Copy, Debug, PartialEq, Eq)]
pub struct NumberLimits {
    /// Digits after the point: the unit is 10 to the power of minus this.
    pub places: u32,
    /// The least number, in that unit.
    pub least: i64,
    /// The greatest number, in that unit.
    pub most: i64,
}

/// The unit and the limits of a quantity.
pub fn limits(quantity: Quantity) -> NumberLimits
    ensures value { result ≡ limits quantity }
    ensures few { result.places ≤ 9 }
{
    match quantity {
        Quantity::TimeStep => limited(6, 1, 1_000_000),
        Quantity::StepCount => limited(0, 1, 100_000_000),
        Quantity::VapourHead => limited(6, -100_000_000, 0),
        Quantity::GrowthWeight => limited(1, 5, 10),
        Quantity::SpeedTolerance => limited(3, 0, 500),
        Quantity::SampleStep => limited(0, 1, 100_000_000),
        Quantity::Time => limited(6, 0, 1_000_000_000_000),
        Quantity::Head => limited(6, -100_000_000_000, 100_000_000_000),
        Quantity::Flow => limited(9, -1_000_000_000_000, 1_000_000_000_000),
        Quantity::Opening => limited(6, 0, 1_000_000),
        Quantity::SpeedRatio => limited(6, 0, 2_000_000),
        Quantity::CurveFlow => limited(9, 0, 1_000_000_000_000),
        Quantity::CurveRise => limited(6, 0, 100_000_000_000),
        Quantity::Volume => limited(9, 0, 1_000_000_000_000_000),
        Quantity::Elevation => limited(6, -10_000_000_000, 10_000_000_000),
        Quantity::ValveFlow => limited(9, 0, 1_000_000_000_000),
        Quantity::ValveLoss => limited(6, 10_000, 100_000_000_000),
        Quantity::Area => limited(6, 1, 1_000_000_000),
        Quantity::Length => limited(3, 1, 1_000_000_000),
        Quantity::Diameter => limited(3, 20, 10_000),
        Quantity::WaveSpeed => limited(3, 10_000, 2_000_000),
        Quantity::FrictionFactor => limited(6, 0, 500_000),
        Quantity::PipePlace => limited(0, 0, 65_536),
    }
}

fn limited(places: u32, least: i64, most: i64) -> NumberLimits
    ensures { result ≡ record { places = places; least = least; most = most } }
{
    NumberLimits {
        places,
        least,
        most,
    }
}
