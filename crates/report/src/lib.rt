//! The texts that the program prints: the report of a run, the mesh, and the texts of one line.
#![tactic(auto)]

mod divisions;
mod fields;
mod laws;
mod lines;
mod mesh_writing;
mod messages;
mod peaks;
mod places;
mod sizing;
mod writing;

pub use laws::{peak_is_of_pipes, report_is_of_its_numbers};
pub use mesh_writing::write_mesh;
pub use messages::{write_accepted, write_range, write_refusal, write_usage};
pub use sizing::sizes;
pub use writing::{write_peak, write_report};
