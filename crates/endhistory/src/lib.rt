//! Bounded histories: one writer, one or more readers and a stated number of
//! slots over atomic words, each slot holding one block of words. There is no
//! lock and no waiting, and what a reader fetches is exactly the block that
//! its number names.
#![tactic(auto)]

mod answers;
mod blocks;
mod dealing;
mod history;
mod laws;
mod runs;
mod steps;
mod views;

pub use answers::{Look, Vacancy};
pub use blocks::{BlockTag, CountTag};
pub use history::{History, MOST_READERS, MOST_SLOTS, Reader, Writer};
pub use laws::{
    each_step_keeps_the_rule, fills_over_passed_blocks, seen_blocks_are_stored,
    stores_over_passed_blocks,
};
pub use steps::Rule;
pub use views::{Reading, Role, Sizes, View, Writing};
