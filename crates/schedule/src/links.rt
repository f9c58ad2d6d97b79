//! The neighbours of strands.
/// A neighbour of a strand.
#[derive(Clone, Copy, Debug, PartialEq, Eq)]
pub struct Link {
    /// The number of the neighbour.
    pub strand: u32,
    /// The index of the strand among the neighbour's sides.
    pub back: u32,
}
