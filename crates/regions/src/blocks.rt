//! The points of the blocks that strands hand to their neighbours.
ghost use Rattle.std.specs.Prelude.{◌≡◌, ◌<◌, length};
ghost use Rattle.regions.specs.Blocks.{block_point_of, section_point as section_is};
ghost use Rattle.regions.specs.Blocks.{station_point as station_is};

use crate::{Layout, Shape};

impl Layout {
    /// Point `index` of a strand's blocks for one of its sides: its distance from the station
    /// there, and its count of steps after the start of the block's window. All sides have the same
    /// order.
    #[tactic(auto, unfolding(crate::specs::Blocks::block_point_of))]
    pub fn block_point(&self, strand: u32, _side: u32, index: u64) -> (u64, u64)
        requires inside { strand < length self.now.shapes }
        requires index { index < self.now.window }
        ensures { result ≡ block_point_of self.now strand index }
    {
        match self.shape_at(strand) {
            Shape::OfNode { .. } => station_point(self.window, index),
            Shape::OfSeam { .. } => station_point(self.window, index),
            Shape::OfSection { .. } => section_point(self.window, index),
        }
    }
}

// Two points at each distance from 1 on, the earlier first.
fn section_point(window: u64, index: u64) -> (u64, u64)
    requires { index < window }
    ensures { result ≡ section_is index }
{
    (index / 2 + 1, index.div_ceil(2))
}

// Two points at each distance from 0 on, the earlier first; the last is always the later one of its
// distance.
fn station_point(window: u64, index: u64) -> (u64, u64)
    requires { index < window }
    ensures { result ≡ station_is window index }
{
    let distance = index / 2;
    let last = window - distance;
    if index + 1 == window || index % 2 == 1 {
        (distance, last)
    } else {
        (distance, last - 1)
    }
}
