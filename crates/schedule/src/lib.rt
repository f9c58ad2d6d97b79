//! The schedule of regions as a pure machine: which region of which strand may be entered or left,
//! and which comes next.
#![tactic(auto)]

mod counts;
mod events;
mod laws;
mod links;
mod nets;
mod order;
mod plan;

pub use events::Event;
pub use laws::{
    lawful_stays_lawful, layouts_make_nets, least_is_ready, lists_are_joined, lists_keep_counts,
    lists_keep_order, lists_keep_slots, never_stuck,
};
pub use links::Link;
pub use plan::{MOST_SLOTS, Plan};
