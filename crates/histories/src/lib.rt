//! The bounded histories of a layout: one of each strand, whose blocks are the words that the
//! strand hands to its neighbours, and a reader of it for each of them.
#![tactic(auto)]

mod blocks;
mod ends;
mod laws;
mod opening;

pub use blocks::BlockOf;
pub use ends::Ends;
pub use laws::{blocks_are_their_words, strands_have_blocks};
pub use opening::open_histories;
