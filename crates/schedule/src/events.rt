//! What happens to regions.
/// What happens to a region of a strand.
#[derive(Clone, Copy, Debug, PartialEq, Eq)]
pub enum Event {
    /// The strand begins the region.
    Enter {
        /// The number of the strand.
        strand: u32,
        /// The number of the region.
        region: u64,
    },
    /// The strand has done the region: the block that it writes is published, and those that it
    /// needs are passed.
    Leave {
        /// The number of the strand.
        strand: u32,
        /// The number of the region.
        region: u64,
    },
}
