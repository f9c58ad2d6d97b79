//! The hydraulic law of a case, over its mesh: the interior law with cavities, every kind of node, and
//! what stands at step 0, in whole numbers.
//!
//! After Wylie and Streeter, Fluid Transients in Systems: method of characteristics, boundary
//! conditions, column separation.
#![tactic(auto)]

mod arrivals;
mod calm_nodes;
mod causes;
mod ends;
mod interior;
mod node_laws;
mod physics;
mod pipes;
mod prepared;
mod runs;
mod starts;
mod values;
mod valve_ends;
mod vapour;

pub use causes::{bad_ends_have_causes, bad_nodes_have_causes, bad_places_have_causes};
pub use physics::Physics;
pub use prepared::{PreparedPipe, prepare};
