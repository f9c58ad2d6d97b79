//! Folds: greatest and least heads and greatest volumes of places, samples of probes, and the first
//! Bad point.
#![tactic(auto)]

mod cells;
mod extremes;
mod faults;
mod folds;
mod lines;
mod peaks;
mod probes;
mod rows;
mod samples;

pub use extremes::Extreme;
pub use folds::Fold;
pub use rows::{extremes_are_exact, folds_tell_rows, numbers_tell_places, stands_for_equal_maps};
pub use samples::Sample;
