//! Elevations of nodes and of places of pipes.
ghost use Rattle.std.specs.Prelude.{◌≡◌, ◌+◌, ◌<◌, ◌≤◌, ◌≤ℤ◌, ◌-ℤ◌, ◌*ℤ◌, ℤ, pos, unsigned_abs};
ghost use Rattle.std.specs.Prelude.{length};
ghost use Rattle.fixed_num.specs.Rounding.{rnd as rounded};
ghost use Rattle.case_model.specs.Mesh.{reaches as reaches_of};
ghost use Rattle.case_model.specs.Limits.{IsRead};
ghost use Rattle.case_model.specs.Parts.{node_at};
ghost use Rattle.case_model.specs.Formulas.{elevation_between as between};
ghost use Rattle.case_model.specs.Division.{elevation as elevation_of};

use case_model::{Case, Mesh};
use fixed_num::rnd;

/// The elevation (1e-6 m) of a place of a pipe: the part of the rise between the pipe's nodes that
/// its reaches up to the place have of all.
pub fn elevation(case: &Case, mesh: &Mesh, pipe: u32, place: u32) -> i64
    requires read { IsRead case.now }
    requires same { length mesh.now.pipes ≡ length case.now.pipes }
    requires on_mesh { pipe < length mesh.now.pipes }
    requires some { 1 ≤ reaches_of mesh.now pipe }
    requires on_pipe { place ≤ reaches_of mesh.now pipe }
    ensures value { result ≡ elevation_of case.now mesh.now pipe place }
    ensures size { unsigned_abs result ≤ 30_000_000_000 }
{
    let line = &case.pipes.as_slice()[pipe as usize];
    let first = node_elevation(case, line.first);
    let last = node_elevation(case, line.last);
    let reaches = mesh.pipes.as_slice()[pipe as usize].reaches;
    elevation_between(first, last, place, reaches)
}

/// The elevation (1e-6 m) of a node, 0 for one that the case does not have.
pub fn node_elevation(case: &Case, node: u32) -> i64
    requires { IsRead case.now }
    ensures value { result ≡ (node_at case.now node).elevation }
    ensures size { unsigned_abs result ≤ 10_000_000_000 }
{
    match case.nodes.as_slice().get(node as usize) {
        Some(node) => node.elevation,
        None => 0,
    }
}

/// What stands at a place of so many reaches between the elevations or heads (1e-6 m) at both ends; a
/// level pipe needs no quotient.
#[tactic(auto, unfolding(case_model::specs::Formulas::elevation_between))]
pub fn elevation_between(first: i64, last: i64, place: u32, reaches: u32) -> i64
    requires first_in { unsigned_abs first ≤ 100_000_000_000 }
    requires last_in { unsigned_abs last ≤ 100_000_000_000 }
    requires some { 1 ≤ reaches }
    requires on_pipe { place ≤ reaches }
    ensures value { result ≡ between first last place reaches }
    ensures size { unsigned_abs result ≤ unsigned_abs first + unsigned_abs (last -ℤ first) }
{
    if first == last {
        return first;
    }
    first + share(last - first, place as i64, reaches as i64)
}

// The part of a difference that a place has of all reaches: the operands of the quotient mostly fit 64
// bits, where it is one.
fn share(difference: i64, place: i64, reaches: i64) -> i64
    requires difference_in { unsigned_abs difference ≤ 200_000_000_000 }
    requires some { pos 1 ≤ℤ reaches }
    requires few { reaches ≤ℤ pos 4_294_967_295 }
    requires on_pipe { unsigned_abs place ≤ unsigned_abs reaches }
    ensures value { result ≡ rounded (difference *ℤ place) reaches }
    ensures size { unsigned_abs result ≤ unsigned_abs difference }
{
    rnd(difference as i128 * place as i128, reaches as i128) as i64
}
