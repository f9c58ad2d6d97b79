//! Blocks that strands at rest lend.
use strands::{SectionBlock, StationBlock};

/// The block of a strand for one of its sides, by the strand's kind, read where its points stand.
#[derive(Drop)]
pub(crate) enum Lent<'a> {
    BySection(SectionBlock<'a>),
    ByStation(StationBlock<'a>),
}
