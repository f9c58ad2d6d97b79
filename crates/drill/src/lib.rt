//! The text of a drill: a network that is made from a number.
#![tactic(auto)]

mod fields;
mod lines;
mod network;

pub use network::drill_text;
