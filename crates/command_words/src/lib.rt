//! The words of the command line: which job they name, or that they are refused.
#![tactic(auto)]

mod job;
mod line;
mod reading;

pub use job::{Command, Job, WordsFault};
pub use reading::read_words;
