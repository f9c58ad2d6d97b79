//! What the history of a strand is to hold.
use case_model::{Law, Mesh};
use endhistory::BlockTag;
use regions::Layout;

/// The tag of a strand's history: its blocks over the rows of a law, as words, one for each window
/// of the layout.
#[derive(Drop)]
pub struct BlockOf<'a, L> {
    /// The law, which fits the mesh.
    pub law: &'a L,
    /// The layout of the mesh.
    pub layout: &'a Layout,
    /// The mesh.
    pub mesh: &'a Mesh,
    /// The strand's number.
    pub strand: u32,
}

impl<'a, L: Law> BlockTag for BlockOf<'a, L> {
    ghost use Rattle.histories.specs.Blocks.{blocks_of_strand};

    ghost blocks = { λ t. blocks_of_strand (L.meaning t.law.now) t.layout.now t.strand };
}
