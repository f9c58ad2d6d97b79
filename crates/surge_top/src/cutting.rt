//! What `mesh` does with an accepted case: it cuts the mesh into strands and regions.
ghost use Rattle.std.specs.Prelude.{◌≤◌};
ghost use Rattle.case_model.specs.Accepted.{IsAccepted};
ghost use Rattle.surge_top.specs.Answer.{cut as cut_of};
ghost use Rattle.surge_top.specs.Outcome.{HasAnswered};

use crate::status::Status;
use crate::top::ended;
use case_model::{Case, Mesh};
use regions::{WIDEST_WINDOW, layout};
use report::write_mesh;
use std::alloc::{AllocError, Global};
use surge_io::Sink;

/// Writes how the mesh of an accepted case is cut, with windows of at most `wish` steps.
pub(crate) fn cut<K: Sink>(
    alloc: Global,
    case: &Case,
    mesh: &Mesh,
    wish: u64,
    out: &mut K,
) -> Status
    requires accepted { IsAccepted case.now mesh.now }
    requires some { 1 ≤ wish }
    requires few { wish ≤ WIDEST_WINDOW }
    ensures { HasAnswered K.held K.faults result out.old out.new (cut_of case.now mesh.now wish) }
{
    match layout(alloc, case, mesh, wish) {
        Ok(layout) => ended(write_mesh(case, mesh, &layout, out), Status::Done),
        Err(AllocError) => Status::Memory,
    }
}
