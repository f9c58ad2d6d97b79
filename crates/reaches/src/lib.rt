//! Courant division: the mesh of a case, or its refusal.
#![tactic(auto)]

mod division;
mod elevations;
mod ends;
mod formulas;
mod meshing;
mod nodes;
mod pipes;
mod probes;
mod quotients;
mod refusal;
mod tested;
mod valves;
mod vessels;

pub use division::divide;
pub use elevations::{elevation, elevation_between, node_elevation};
pub use formulas::coefficients;
