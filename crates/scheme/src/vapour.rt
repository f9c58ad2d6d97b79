//! Vapour heads of places and of nodes.
ghost use Rattle.std.specs.Prelude.{◌≡◌, ◌≤◌, ◌<◌, ℕ, ◌+ℤ◌, ◌≤ℤ◌, pos, neg_ℤ, unsigned_abs, length};
ghost use Rattle.std.specs.Int.{int_max};
ghost use Rattle.case_model.specs.Division.{vapour_head as place_vapour_head};
ghost use Rattle.case_model.specs.Division.{node_vapour_head as head_of_node};
ghost use Rattle.case_model.specs.Limits.{IsRead, IsWithin};
ghost use Rattle.case_model.specs.Mesh.{reaches as reaches_of};
ghost use Rattle.case_model.specs.Parts.{pipe_at, node_at};
ghost use Rattle.scheme.specs.Computable.{IsComputable};

use case_model::{Case, Mesh};
use reaches::{elevation, node_elevation};

/// The vapour head (1e-6 m) of a place of a pipe.
pub(crate) fn vapour_head(case: &Case, mesh: &Mesh, pipe: u32, place: u32) -> i64
    requires fit { IsComputable case.now mesh.now }
    requires on_mesh { pipe < length mesh.now.pipes }
    requires on_pipe { place ≤ reaches_of mesh.now pipe }
    ensures value { result ≡ place_vapour_head case.now mesh.now pipe place }
    ensures size { unsigned_abs result ≤ 100_000_000_000 }
{
    raised(elevation(case, mesh, pipe, place), case.vapour)
}

/// A head (1e-6 m) that the vapour head of no inner place of a pipe is over: that of its higher end.
pub(crate) fn highest_vapour_head(case: &Case, mesh: &Mesh, pipe: u32) -> i64
    requires fit { IsComputable case.now mesh.now }
    requires on_mesh { pipe < length mesh.now.pipes }
    ensures highest { (i : ℕ) → i < reaches_of mesh.now pipe →
        place_vapour_head case.now mesh.now pipe i ≤ℤ result }
    ensures size { unsigned_abs result ≤ 100_000_000_000 }
{
    raised(higher_end(case, mesh, pipe), case.vapour)
}

// The elevation of the higher end of a pipe.
fn higher_end(case: &Case, mesh: &Mesh, pipe: u32) -> i64
    requires fit { IsComputable case.now mesh.now }
    requires on_mesh { pipe < length mesh.now.pipes }
    ensures value { let line = pipe_at case.now pipe in result
        ≡ int_max (node_at case.now line.first).elevation (node_at case.now line.last).elevation }
    ensures size { unsigned_abs result ≤ 30_000_000_000 }
{
    let line = &case.pipes.as_slice()[pipe as usize];
    node_elevation(case, line.first).max(node_elevation(case, line.last))
}

/// The vapour head (1e-6 m) of a node.
pub(crate) fn node_vapour_head(case: &Case, node: u32) -> i64
    requires { IsRead case.now }
    ensures value { result ≡ head_of_node case.now node }
    ensures size { unsigned_abs result ≤ 100_000_000_000 }
{
    raised(node_elevation(case, node), case.vapour)
}

fn raised(elevation: i64, vapour: i64) -> i64
    requires elevation_in { unsigned_abs elevation ≤ 30_000_000_000 }
    requires vapour_in { IsWithin (neg_ℤ (pos 100_000_000)) (pos 0) vapour }
    ensures value { result ≡ elevation +ℤ vapour }
    ensures size { unsigned_abs result ≤ 100_000_000_000 }
{
    elevation + vapour
}
