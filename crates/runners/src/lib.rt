//! Runners: a strand with its end of its own history and of those of its neighbours, which is
//! advanced by whoever holds it, as far as blocks and slots allow.
#![tactic(auto)]

mod advances;
mod advancing;
mod blocks;
mod finding;
mod looks;
mod neighbours;
mod runners;
mod tags;
mod working;

pub use advances::Advance;
pub use runners::Runner;
pub use tags::RunTag;
