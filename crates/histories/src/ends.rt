//! The histories of a layout with their ends.
use endhistory::{History, Reader, Writer};

/// The histories of a layout with their writers and readers.
#[derive(Drop)]
pub struct Ends {
    /// The history of each strand, in order of strands.
    pub histories: Vec<History>,
    /// Its writer.
    pub writers: Vec<Writer>,
    /// The readers of each strand, one for each of its sides: that of side j reads the history of
    /// the neighbour there.
    pub readers: Vec<Vec<Reader>>,
}
