//! Nodes with one head: reservoirs and junctions, with the discrete vapour cavity at a junction, and
//! the sums over the ends of a node.
//!
//! After Wylie and Streeter, Fluid Transients in Systems: boundary conditions, column separation.
#![tactic(auto)]

mod laws;
mod levels;
mod means;
mod sums;

pub use laws::{junction, level, reservoir};
pub use levels::{bad_state, filled, state_at, state_with_flows};
pub use sums::{weighted, weighted_sums, write_inflows};
