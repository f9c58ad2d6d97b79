//! The written text of a case.
#![tactic(auto)]

mod fields;
mod lines;
mod nodes;
mod writing;

pub use writing::{write_case, write_upgraded};
