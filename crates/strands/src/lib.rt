//! The strands of a layout: how each computes its regions of space and time from the blocks of
//! its neighbours.
#![tactic(auto)]

mod besides;
mod blocks;
mod handed;
mod hubs;
mod ranges;
mod seams;
mod sections;
mod spokes;
mod starts;
mod stations;
mod tents;

pub use besides::load_beside;
pub use blocks::load_side;
pub use handed::{Block, SectionBlock, StationBlock};
pub use hubs::Hub;
pub use seams::Seam;
pub use sections::{advance, advance_region, advance_start};
pub use stations::{advance_run, advance_seam};
pub use tents::Section;
