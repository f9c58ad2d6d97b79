//! What all runners of a run have in common.
use case_model::{Case, Mesh};
use endhistory::History;
use regions::Layout;
use schedule::Plan;

/// What the runners of a run are good for: the law whose rows they compute, the case, a layout of
/// its mesh with the neighbours of its strands, and the histories of all strands.
#[derive(Drop)]
pub struct RunTag<'a, 'h, L> {
    /// The law, which fits the mesh.
    pub law: &'a L,
    /// The case.
    pub case: &'a Case,
    /// A layout of its mesh.
    pub layout: &'a Layout,
    /// Its mesh.
    pub mesh: &'a Mesh,
    /// The neighbours of the layout's strands.
    pub plan: &'a Plan,
    /// The history of each strand, in order.
    pub histories: &'h [History],
}
