//! The places of pipes with the greatest and with the least head.
ghost use Rattle.std.specs.Prelude.{◌≡◌, ◌≤◌, ◌<◌, length};
ghost use Rattle.std.specs.List.{fold as folded};
ghost use Rattle.case_model.specs.Mesh.{reaches};
ghost use Rattle.case_model.specs.PlaceNumbers.{IsOn};
ghost use Rattle.report.specs.Bounds.{better, passing};
ghost use Rattle.report.specs.Peaks.{first_unpassed, is_above, is_below};
ghost use Rattle.report.specs.Places.{IsOnPipe, pipe_places, places_of_pipe};
ghost use Rattle.report.specs.Reportable.{IsOver, extremes_of};

use crate::places::{extreme_of, places_on};
use case_model::{Mesh, ProbeAt};
use envelope::{Extreme, Fold};

// Which head is looked for.
#[derive(Clone, Copy)]
pub(crate) enum Bound {
    Greatest,
    Least,
}

// The place of a pipe with the greatest or the least head: the first that no other passes.
pub(crate) fn peak_place(bound: Bound, mesh: &Mesh, fold: &Fold) -> ProbeAt
    requires over { IsOver mesh.now fold.now }
    requires some { 0 < length mesh.now.pipes }
    requires few { length mesh.now.pipes ≤ 4_096 }
    ensures place { result
        ≡ first_unpassed (passing bound) (extremes_of mesh.now fold.now) (pipe_places mesh.now) }
    ensures there { IsOnPipe mesh.now result }
{
    let mut best = ProbeAt::OnPipe { pipe: 0, place: 0 };
    for p in 0..mesh.pipes.as_slice().len() {
        best = best_with_pipe(bound, mesh, fold, p as u32, best);
    }
    best
}

// The better of a place and those of one pipe.
fn best_with_pipe(bound: Bound, mesh: &Mesh, fold: &Fold, pipe: u32, best: ProbeAt) -> ProbeAt
    requires over { IsOver mesh.now fold.now }
    requires pipe { pipe < length mesh.now.pipes }
    requires there { IsOnPipe mesh.now best }
    ensures place { result
        ≡ folded (better bound (extremes_of mesh.now fold.now)) best
        (places_of_pipe mesh.now pipe) }
    ensures there { IsOnPipe mesh.now result }
{
    let mut best = best;
    for i in 0..places_on(mesh, pipe) {
        let place = i as u32;
        best = better(bound, mesh, fold, best, ProbeAt::OnPipe { pipe, place });
    }
    best
}

// The second place where it passes the first, else the first.
fn better(bound: Bound, mesh: &Mesh, fold: &Fold, best: ProbeAt, at: ProbeAt) -> ProbeAt
    requires over { IsOver mesh.now fold.now }
    requires best { IsOnPipe mesh.now best }
    requires at { IsOnPipe mesh.now at }
    ensures place { result ≡ better bound (extremes_of mesh.now fold.now) best at }
    ensures there { IsOnPipe mesh.now result }
{
    let passed = passes(
        bound,
        &extreme_of(mesh, fold, at),
        &extreme_of(mesh, fold, best),
    );
    if passed { at } else { best }
}

#[tactic(auto, unfolding(crate::specs::Peaks::is_above, crate::specs::Peaks::is_below))]
fn passes(bound: Bound, a: &Extreme, b: &Extreme) -> bool
    ensures { result ≡ passing bound a.now b.now }
{
    match bound {
        Bound::Greatest => a.max > b.max || (a.max >= b.max && a.max_step < b.max_step),
        Bound::Least => a.min < b.min || (a.min <= b.min && a.min_step < b.min_step),
    }
}
