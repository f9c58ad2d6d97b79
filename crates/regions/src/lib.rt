//! How a mesh is cut into strands (nodes, seams, sections), and space and time into their regions.
#![tactic(auto)]

mod blocks;
mod cuts;
mod laws;
mod layouts;
mod numbers;
mod parts;
mod regions;
mod shapes;
mod sides;

pub use laws::{
    accepted_meshes_are_sound, blocks_are_in_order, cuts_follow_the_window, layouts_are_sound,
    needs_are_enough, reads_are_all, regions_are_a_partition, sides_are_mutual, strands_touch,
};
pub use layouts::layout;
pub use shapes::{Layout, Shape, Spot, WIDEST_WINDOW};
