//! The pipes of a case in reaches.
ghost use Rattle.std.specs.Prelude.{◌≡◌, ◌+◌, ◌<◌, ℕ, true, IfOk, length, map};
ghost use Rattle.std.specs.List.{range_with_len};
ghost use Rattle.case_model.specs.Limits.{IsRead};
ghost use Rattle.case_model.specs.Division.{divides, place_base, pipe_mesh};
ghost use Rattle.reaches.specs.Decided.{AreDecided};

use crate::pipes::{Decided, Division};
use case_model::PipeMesh;
use std::alloc::{AllocError, Global};

/// The pipes of a case in reaches, and the count of all places. Takes memory for them.
pub(crate) fn pipe_meshes(
    alloc: Global,
    decided: &Decided,
) -> Result<(Vec<PipeMesh>, u64), AllocError>
    requires read { IsRead decided.now.case.now }
    requires decided { AreDecided decided.now.case.now decided.now.pipes.now }
    requires divided { (p : ℕ) → p < length decided.now.case.now.pipes →
        divides decided.now.case.now p ≡ true }
    ensures pipes { IfOk result (λ m. m.0.items
        ≡ map (pipe_mesh decided.now.case.now)
        (range_with_len 0 (length decided.now.case.now.pipes))) }
    ensures places { IfOk result (λ m. m.1
        ≡ place_base decided.now.case.now (length decided.now.case.now.pipes)) }
{
    let count = decided.case.pipes.as_slice().len();
    let mut meshes = Vec::with_capacity(alloc, count)?;
    let mut base = decided.case.nodes.as_slice().len() as u64;
    for pipe in 0..count {
        if let Some(division) = decided.division(pipe as u32) {
            meshes.push(mesh_from(&division, base))?;
            base += division.reaches as u64 + 1;
        }
    }
    Ok((meshes, base))
}

// A pipe in reaches, with the number of its first place.
fn mesh_from(division: &Division, base: u64) -> PipeMesh
    ensures reaches { result.reaches ≡ division.now.reaches }
    ensures b { result.b ≡ division.now.b }
    ensures r { result.r ≡ division.now.r }
    ensures base { result.base ≡ base }
{
    PipeMesh {
        reaches: division.reaches,
        b: division.b,
        r: division.r,
        base,
    }
}
