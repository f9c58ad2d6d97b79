//! Stretches of the places of a pipe, whose fronts (how far each place is computed) are given by
//! closed formulas: the points that they keep, the stencil that raises a band of places by one
//! step, and how points are noted.
#![tactic(auto)]

mod cavities;
mod ends;
mod noting;
mod pairs;
mod parts;
mod ranges;
mod rows;
mod stencil;
mod stretches;

pub use pairs::Pair;
pub use stretches::Stretch;
