//! Characteristics along a pipe with friction, the discrete vapour cavity, and the interior law.
#![tactic(auto)]

mod arrivals;
mod cavities;
mod equal;
mod impedances;
mod interior;
mod losses;
mod places;
mod quotients;
mod runs;

pub use arrivals::{arrive_minus, arrive_plus};
pub use cavities::cavity_volume;
pub use equal::equal_impedances;
pub use interior::{Reach, explicit_point, inner_point, linear_point};
pub use quotients::{driven_flow, impedance_head};
pub use runs::{Both, Prepared};
