//! Valves: at the end of a pipe, with the discrete vapour cavity, and in a line between two pipes.
//!
//! After Wylie and Streeter, Fluid Transients in Systems: boundary conditions, column separation.
#![tactic(auto)]

mod devices;
mod discharges;
mod orifices;

pub use devices::{inline, through};
pub use discharges::{Valve, discharge};
