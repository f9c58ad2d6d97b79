//! Nodes that store water: surge tanks and air vessels.
//!
//! After Wylie and Streeter, Fluid Transients in Systems: surge tanks, air chambers.
#![tactic(auto)]

mod gases;
mod tanks;

pub use gases::vessel;
pub use tanks::tank;
