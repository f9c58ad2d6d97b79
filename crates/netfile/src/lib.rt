//! The case text: its meaning, a case and its mesh or the first refusal, its reader, and its
//! writer.
#![tactic(auto)]

mod building;
mod indices;
mod nodes;
mod pipes;
mod probes;
mod reading;
mod refusals;
mod singles;
mod tables;

pub use case_writing::{write_case, write_upgraded};
pub use reading::{MOST_BYTES, read_case};
pub use refusals::{refusals_are_first, verdict_is_first};
