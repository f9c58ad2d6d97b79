//! The two points of a place, as one stretch reads them and another keeps them.
use case_model::{Point, Spot};

/// The points of a place at a step and at the next one: as spots where neither has a cavity.
#[derive(Clone, Copy)]
pub enum Pair {
    /// Two points without a cavity.
    Calm {
        /// That of the step.
        first: Spot,
        /// That of the next step.
        second: Spot,
    },
    /// Any two points.
    Other {
        /// That of the step.
        first: Point,
        /// That of the next step.
        second: Point,
    },
}
