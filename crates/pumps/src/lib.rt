//! Pumps between two pipes, by curves of flow and rise at a speed over time.
//!
//! After Wylie and Streeter, Fluid Transients in Systems: centrifugal pumps, similarity of speeds.
#![tactic(auto)]

mod crossings;
mod curves;
mod flows;

pub use flows::pump_flow;
