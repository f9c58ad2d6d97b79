//! What the engine knows of hydraulics: a law, as a trait.
ghost use Rattle.std.specs.Prelude.{◌≡◌, ℕ, ◌+◌, ◌^◌, ◌<◌, ◌≤◌, length, All};
ghost use Rattle.case_model.specs.Meaning.{Meaning, IsMeaning};
ghost use Rattle.case_model.specs.Mesh.{reaches, ends_of};
ghost use Rattle.case_model.specs.Range.{IsPoint, IsState};
ghost use Rattle.case_model.specs.Runs.{IsCalmRun};

use crate::{NodeState, Point, Spot};

/// What the region engine knows of hydraulics: the mesh that the law fits and, from the points of
/// one step, those of the next. Bad points are values here.
pub trait Law: Sync {
    ghost meaning: { Self → Meaning };

    /// The point of an inner place of a pipe, of the points of its neighbours and its own one step
    /// earlier.
    fn inner(&self, pipe: u32, place: u32, left: &Point, own: &Point, right: &Point) -> Point
        requires on_mesh { pipe < length (meaning self.now).mesh.pipes }
        requires after_first { 0 < place }
        requires before_last { place < reaches (meaning self.now).mesh pipe }
        requires left_in { IsPoint left.now }
        requires own_in { IsPoint own.now }
        requires right_in { IsPoint right.now }
        ensures { result ≡ (meaning self.now).inner pipe place left.now own.now right.now };

    /// The points of a run of inner places of a pipe, from place `first` on, of the points one step
    /// earlier, which have no cavity: `before` has the point beside the first place, those of the
    /// run, and the point beside the last. It goes on from place to place while what is made has no
    /// cavity and is in range, and may end sooner; it gives the count of places that it made.
    fn calm_run(&self, pipe: u32, first: u32, before: &[Spot], now: &mut [Spot]) -> usize
        requires on_mesh { pipe < length (meaning self.now).mesh.pipes }
        requires after_first { 0 < first }
        requires before_last { first + length now.old ≤ reaches (meaning self.now).mesh pipe }
        requires fits { first + length now.old < 2 ^ 32 }
        requires each { length before.now ≡ length now.old + 2 }
        ensures most { result ≤ length now.old }
        ensures run { IsCalmRun (meaning self.now) pipe first before.now result now.old now.new }
    {
        for k in 0..now.len() {
            let left = before[k].point();
            let own = before[k + 1].point();
            let right = before[k + 2].point();
            let next = self.inner(pipe, first + k as u32, &left, &own, &right);
            match Spot::of(&next) {
                Some(spot) => now[k] = spot,
                None => return k,
            }
        }
        now.len()
    }

    /// The state of a node at `step`, of its own state and the points beside it on its pipes
    /// (`near`) one step earlier. `ends` receives the point of each end.
    fn node(
        &self,
        node: u32,
        step: u64,
        own: &NodeState,
        near: &[Point],
        ends: &mut [Point],
    ) -> NodeState
        requires on_mesh { node < length (meaning self.now).mesh.ends }
        requires near_each { length near.now ≡ length (ends_of (meaning self.now).mesh node) }
        requires ends_each { length ends.old ≡ length (ends_of (meaning self.now).mesh node) }
        requires own_in { IsState own.now }
        requires near_in { All IsPoint near.now }
        ensures state { result ≡ (meaning self.now).node node step own.now near.now }
        ensures points { ends.new ≡ (meaning self.now).ends node step own.now near.now };

    /// The point of a place at step 0.
    fn start_point(&self, pipe: u32, place: u32) -> Point
        requires on_mesh { pipe < length (meaning self.now).mesh.pipes }
        requires on_pipe { place ≤ reaches (meaning self.now).mesh pipe }
        ensures { result ≡ (meaning self.now).start_point pipe place };

    /// The state of a node at step 0.
    fn start_node(&self, node: u32) -> NodeState
        requires on_mesh { node < length (meaning self.now).mesh.ends }
        ensures { result ≡ (meaning self.now).start_node node };

    ghost in_range: { (law : Self) → IsMeaning (meaning law) };
}
