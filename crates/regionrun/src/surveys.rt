//! What strands are made of.
use case_model::{Case, Mesh};
use regions::Layout;

/// What strands are made of: a case, its mesh, a layout of it, and the place numbers of the case's
/// probes.
#[derive(Drop, Clone, Copy)]
pub struct Survey<'a> {
    /// The case.
    pub case: &'a Case,
    /// Its mesh.
    pub mesh: &'a Mesh,
    /// A layout of the mesh.
    pub layout: &'a Layout,
    /// The place numbers of the case's probes, in file order.
    pub probes: &'a [u64],
}
