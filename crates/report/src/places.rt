//! Places by their numbers, and the numbers that a fold keeps of a place.
ghost use Rattle.std.specs.Prelude.{◌≡◌, ◌<◌, ◌≤◌, ◌+◌, length};
ghost use Rattle.case_model.specs.Accepted.{IsAcceptedMesh};
ghost use Rattle.case_model.specs.Mesh.{reaches};
ghost use Rattle.case_model.specs.PlaceNumbers.{IsOn, place_among, place_at};
ghost use Rattle.report.specs.Reportable.{IsOver, extremes_of};

use case_model::{Mesh, PipeMesh, ProbeAt, accepted_cases_are_kept, place_number};
use envelope::{Extreme, Fold, numbers_tell_places};

// The place of a number.
#[tactic(auto, unfolding(case_model::specs::PlaceNumbers::place_at))]
fn numbered_place(mesh: &Mesh, number: u64) -> ProbeAt
    requires nodes { length mesh.now.ends ≤ 4_096 }
    requires pipes { length mesh.now.pipes ≤ 4_096 }
    requires few { number ≤ 400_000 }
    ensures { result ≡ place_at mesh.now number }
{
    let count = mesh.ends.as_slice().len() as u64;
    if number < count {
        ProbeAt::OnNode {
            node: number as u32,
        }
    } else {
        place_among(mesh.pipes.as_slice(), number - count)
    }
}

// The place of a number among those of the pipes.
fn place_among(pipes: &[PipeMesh], number: u64) -> ProbeAt
    requires pipes { length pipes.now ≤ 4_096 }
    requires few { number ≤ 400_000 }
    ensures { result ≡ place_among 0 pipes.now number }
{
    let mut rest = number;
    for (p, pipe) in pipes.iter().enumerate() {
        let reaches = pipe.reaches as u64;
        if rest <= reaches {
            return on_pipe(p, rest);
        }
        rest -= reaches + 1;
    }
    on_pipe(pipes.len(), rest)
}

fn on_pipe(pipe: usize, place: u64) -> ProbeAt
    requires pipe { pipe ≤ 4_096 }
    requires place { place ≤ 400_000 }
    ensures { result ≡ ProbeAt.OnPipe pipe place }
{
    ProbeAt::OnPipe {
        pipe: pipe as u32,
        place: place as u32,
    }
}

// The place of a number, which is one of the mesh.
pub(crate) fn place_at(mesh: &Mesh, number: u64) -> ProbeAt
    requires accepted { IsAcceptedMesh mesh.now }
    requires there { number < mesh.now.places }
    ensures place { result ≡ place_at mesh.now number }
    ensures on { IsOn mesh.now result }
{
    accepted_cases_are_kept();
    numbers_tell_places();
    numbered_place(mesh, number)
}

// How many places a pipe has.
pub(crate) fn places_on(mesh: &Mesh, pipe: u32) -> u64
    requires { pipe < length mesh.now.pipes }
    ensures count { result ≡ reaches mesh.now pipe + 1 }
    ensures few { result ≤ 4_294_967_296 }
{
    mesh.pipes.as_slice()[pipe as usize].reaches as u64 + 1
}

// The extreme that a fold keeps of a place.
pub(crate) fn extreme_of(mesh: &Mesh, fold: &Fold, at: ProbeAt) -> Extreme
    requires over { IsOver mesh.now fold.now }
    requires on { IsOn mesh.now at }
    ensures { result ≡ extremes_of mesh.now fold.now at }
{
    numbers_tell_places();
    fold.extreme(place_number(mesh, at))
}
