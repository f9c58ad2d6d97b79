//! The strand of a node: its state, and a spoke for each pipe end at it.
ghost use Rattle.std.specs.Prelude.{◌≡◌, ℕ, ◌+◌, ◌*◌, ◌^◌, ◌<◌, ◌≤◌, length, IfOk};
ghost use Rattle.std.specs.Prelude.{All, false, slice_index_or, true};
ghost use Rattle.case_model.specs.Meaning.{Meaning};
ghost use Rattle.case_model.specs.Mesh.{IsNumbered, ends_of};
ghost use Rattle.case_model.specs.Range.{IsPoint};
ghost use Rattle.case_model.specs.Rows.{node_ends, row};
ghost use Rattle.case_model.specs.declared.points.Point.{Point as PointSeen};
ghost use Rattle.envelope.specs.Cells.{is_within};
ghost use Rattle.envelope.specs.Folds.{IsSameFold, Stands, spans_of};
ghost use Rattle.fronts.specs.Fronts.{spot};
ghost use Rattle.fronts.specs.Stretches.{count_of};
ghost use Rattle.strands.specs.Beside.{station_tells};
ghost use Rattle.strands.specs.Hubs.{AreNewSpokes, AreSized, EachSpoke, HasInner, HasOuter};
ghost use Rattle.strands.specs.Hubs.{IsForWindow, IsHubAfter, IsHubAt, IsHubNode, IsHubStepped};
ghost use Rattle.strands.specs.Hubs.{IsLoaded, IsNewHub, IsSideLoaded, NotesHub, spokes_of};
ghost use Rattle.strands.specs.Hubs.{start_marks};
ghost use Rattle.strands.specs.Marks.{Marks, is_only, marked, or_marked};
ghost use Rattle.strands.specs.Spokes.{IsBeside, IsSpokeAfter, IsSpokeAt, IsSpokeLater};
ghost use Rattle.strands.specs.Spokes.{NotesSpoke, end_place, ends_marks, spokes_marks};
ghost use Rattle.strands.specs.Stations.{half};
ghost use Rattle.strands.specs.declared.spokes.Spoke.{Spoke as SpokeSeen};

use crate::handed::{Block, StationBlock};
use crate::ranges::keeps_range;
use crate::spokes::{Spoke, WindowStep};
use case_model::{Law, MOST_ENDS, Mesh, NodeState, Point};
use envelope::{Fold, numbers_tell_places, stands_for_equal_maps};
use std::alloc::{AllocError, Global};

/// A node and the stretches of its pipes beside it. Of each window it takes the blocks of the
/// sections at its sides in, is computed, and hands its own blocks on.
#[derive(Drop, Debug)]
pub struct Hub {
    pub(crate) node: u32,
    pub(crate) state: NodeState,
    pub(crate) spokes: Vec<Spoke>,
}

impl Hub {
    /// The hub of a node for windows of so many steps, with what it has at step 0. The error is
    /// want of memory.
    pub fn make<L: Law>(
        alloc: Global,
        law: &L,
        mesh: &Mesh,
        window: usize,
        node: u32,
    ) -> Result<Hub, AllocError>
        requires mesh { mesh.now ≡ (L.meaning law.now).mesh }
        requires numbered { IsNumbered mesh.now }
        requires node { IsHubNode mesh.now window node }
        requires some { 1 ≤ window }
        requires few { mesh.now.places < 2 ^ 32 }
        ensures { IfOk result (IsNewHub (L.meaning law.now) window node) }
    {
        let spokes = make_spokes(alloc, law, mesh, window, node)?;
        Ok(Hub {
            node,
            state: law.start_node(node),
            spokes,
        })
    }

    /// Notes the node's state and the points of its ends at step 0.
    pub fn note_start(&self, fold: &mut Fold)
        requires noted { NotesHub self.now fold.old }
        requires sized { AreSized (spokes_of self.now) }
        ensures same { IsSameFold fold.old fold.new }
        ensures stands { (law : Meaning) (w : ℕ) (marks : Marks) → IsHubAt law w 0 self.now →
            Stands fold.old (marked law marks) →
            Stands fold.new (marked law (or_marked marks (start_marks w self.now))) }
    {
        note_ends(fold, &self.spokes);
        self.note_state(fold, 0);
    }

    /// Takes the block of the section at one side in, over the window of so many steps after
    /// `start`. Where it is loaded already, nothing changes.
    #[inline(never)]
    pub fn load<B: Block>(&mut self, side: usize, window: usize, start: u64, block: &B)
        requires there { side < length (spokes_of self.old) }
        requires each { B.size block.now ≡ window }
        requires size { IsForWindow window self.old }
        requires room { start + window < 2 ^ 64 }
        ensures loaded { IsSideLoaded side self.old self.new }
        ensures at { (law : Meaning) → IsHubAt law window start self.old →
            HasOuter law window start side self.old (B.tells block.now) →
            IsHubAt law window start self.new }
    {
        self.spokes[side].load(window, start, block);
    }

    /// Computes the window of so many steps after `start`, of which the blocks of all sides are
    /// loaded, and notes it.
    #[inline(never)]
    pub fn compute<L: Law>(&mut self, law: &L, window: usize, start: u64, fold: &mut Fold)
        requires some { 1 ≤ window }
        requires at { IsHubAt (L.meaning law.now) window start self.old }
        requires loaded { IsLoaded true self.old }
        requires noted { NotesHub self.old fold.old }
        requires room { start + window < 2 ^ 64 }
        ensures done { IsHubStepped (L.meaning law.now) window start 0 window self.old self.new
            fold.old fold.new }
        ensures bare { IsLoaded false self.new }
        ensures next { IsHubAt (L.meaning law.now) window (start + window) self.new }
    {
        let count = self.spokes.len();
        let mut near_room = [Point::Bad; MOST_ENDS];
        let mut end_room = [Point::Bad; MOST_ENDS];
        let near = &mut near_room[..count];
        let ends = &mut end_room[..count];
        for done in 0..window {
            let at = WindowStep {
                window,
                start,
                done,
            };
            self.step(law, fold, at, near, ends);
        }
    }

    /// The block of one side for the section there, over the window of so many steps after
    /// `start`, which was computed; it is read where its points stand.
    pub fn block(&self, side: usize, window: usize, start: u64) -> StationBlock
        requires there { side < length (spokes_of self.now) }
        requires size { IsForWindow window self.now }
        requires room { start + window < 2 ^ 64 }
        ensures points { (law : Meaning) → IsHubAfter law window start window self.now →
            HasInner law window start side self.now (station_tells result) }
        ensures size { result.window ≡ window }
    {
        self.spokes[side].block(window, start)
    }

    // One step of a window. `near` and `ends` are written over.
    fn step<L: Law>(
        &mut self,
        law: &L,
        fold: &mut Fold,
        at: WindowStep,
        near: &mut [Point],
        ends: &mut [Point],
    )
        requires inside { at.done < at.window }
        requires room { at.start + at.window < 2 ^ 64 }
        requires computed { IsHubAfter (L.meaning law.now) at.window at.start at.done self.old }
        requires noted { NotesHub self.old fold.old }
        requires near { length near.old ≡ length self.old.spokes.items }
        requires ends { length ends.old ≡ length self.old.spokes.items }
        ensures near { length near.new ≡ length self.new.spokes.items }
        ensures ends { length ends.new ≡ length self.new.spokes.items }
        ensures bare { IsLoaded false self.new }
        ensures stepped { IsHubStepped (L.meaning law.now) at.window at.start at.done
            (at.done + 1) self.old self.new fold.old fold.new }
    {
        self.state = self.ask(law, at, near, ends);
        step_spokes(law, fold, at, ends, &mut self.spokes);
        self.note_state(fold, at.start + at.done as u64 + 1);
    }

    // The node's state after a step of a window; `ends` receives the points of its ends, and
    // `near` is written over.
    fn ask<L: Law>(
        &self,
        law: &L,
        at: WindowStep,
        near: &mut [Point],
        ends: &mut [Point],
    ) -> NodeState
        requires inside { at.done < at.window }
        requires room { at.start + at.window < 2 ^ 64 }
        requires computed { IsHubAfter (L.meaning law.now) at.window at.start at.done self.now }
        requires near { length near.old ≡ length self.now.spokes.items }
        requires ends { length ends.old ≡ length self.now.spokes.items }
        ensures state { result
            ≡ (row (L.meaning law.now) (at.start + at.done + 1)).state self.now.node }
        ensures ends { ends.new
            ≡ node_ends (L.meaning law.now) (at.start + at.done + 1)
            (row (L.meaning law.now) (at.start + at.done)) self.now.node }
        ensures near { length near.new ≡ length self.now.spokes.items }
        ensures each { length ends.new ≡ length self.now.spokes.items }
        ensures in_range { All IsPoint ends.new }
    {
        keeps_range(law);
        let step = at.start + at.done as u64;
        gather(&self.spokes, step, near);
        law.node(self.node, step + 1, &self.state, near, ends)
    }

    // Notes the node's state as that of a step.
    fn note_state(&self, fold: &mut Fold, step: u64)
        requires noted { is_within (spans_of fold.old) self.now.node ≡ true }
        ensures same { IsSameFold fold.old fold.new }
        ensures stands { (law : Meaning) (marks : Marks) → IsNumbered law.mesh →
            self.now.node < length law.mesh.ends →
            self.now.state ≡ (row law step).state self.now.node →
            Stands fold.old (marked law marks) →
            Stands fold.new (marked law (or_marked marks (is_only step self.now.node))) }
    {
        numbers_tell_places();
        stands_for_equal_maps();
        fold.note_node(step, self.node as u64, &self.state);
    }
}

// The spokes of the ends of a node, in their order.
fn make_spokes<L: Law>(
    alloc: Global,
    law: &L,
    mesh: &Mesh,
    window: usize,
    node: u32,
) -> Result<Vec<Spoke>, AllocError>
    requires mesh { mesh.now ≡ (L.meaning law.now).mesh }
    requires numbered { IsNumbered mesh.now }
    requires node { IsHubNode mesh.now window node }
    requires some { 1 ≤ window }
    requires few { mesh.now.places < 2 ^ 32 }
    ensures { IfOk result (λ spokes. AreNewSpokes (L.meaning law.now) window
        (ends_of mesh.now node) (length (ends_of mesh.now node)) spokes.items) }
{
    let ends = mesh.ends.as_slice()[node as usize].as_slice();
    let mut spokes = Vec::with_capacity(alloc, ends.len())?;
    for end in ends {
        spokes.push(Spoke::make(alloc, law, mesh, window, *end)?)?;
    }
    Ok(spokes)
}

// Notes the points of the ends at step 0.
fn note_ends(fold: &mut Fold, spokes: &[Spoke])
    requires sized { AreSized spokes.now }
    requires noted { EachSpoke (λ i spoke. NotesSpoke spoke fold.old) spokes.now }
    ensures same { IsSameFold fold.old fold.new }
    ensures stands { (law : Meaning) (w : ℕ) (marks : Marks) →
        EachSpoke (λ i. IsSpokeAt law w 0) spokes.now →
        Stands fold.old (marked law marks) →
        Stands fold.new (marked law (or_marked marks (ends_marks w spokes.now))) }
{
    stands_for_equal_maps();
    for i in 0..spokes.len() {
        spokes[i].note_start(fold);
    }
}

// Writes the points beside the ends at a step into `near`.
fn gather(spokes: &[Spoke], step: u64, near: &mut [Point])
    requires sized { EachSpoke (λ i spoke. 2 ≤ count_of spoke.stretch) spokes.now }
    requires each { length near.old ≡ length spokes.now }
    ensures each { length near.new ≡ length spokes.now }
    ensures beside { (i : ℕ) (d : PointSeen) (e : SpokeSeen) → i < length spokes.now →
        IsBeside step (slice_index_or spokes.now i e) (slice_index_or near.new i d) }
{
    for i in 0..spokes.len() {
        near[i] = spokes[i].beside(step);
    }
}

// Computes each spoke by one step of a window, with the points of the node's ends.
fn step_spokes<L: Law>(
    law: &L,
    fold: &mut Fold,
    at: WindowStep,
    ends: &[Point],
    spokes: &mut Vec<Spoke>,
)
    requires inside { at.done < at.window }
    requires room { at.start + at.window < 2 ^ 64 }
    requires each { length ends.now ≡ length spokes.old.items }
    requires computed { EachSpoke
        (λ i. IsSpokeAfter (L.meaning law.now) at.window at.start at.done) spokes.old.items }
    requires noted { EachSpoke (λ i spoke. NotesSpoke spoke fold.old) spokes.old.items }
    requires in_range { All IsPoint ends.now }
    requires ends { (i : ℕ) (d : PointSeen) (e : SpokeSeen) → i < length spokes.old.items →
        slice_index_or ends.now i d
        ≡ spot (L.meaning law.now) (slice_index_or spokes.old.items i e).stretch
        (at.start + at.done + 1)
        (end_place (slice_index_or spokes.old.items i e).last (half at.window)) }
    ensures each { length spokes.new.items ≡ length spokes.old.items }
    ensures later { (i : ℕ) (d : SpokeSeen) → i < length spokes.old.items →
        IsSpokeLater (L.meaning law.now) at.window at.start at.done
        (slice_index_or spokes.old.items i d) (slice_index_or spokes.new.items i d) }
    ensures same { IsSameFold fold.old fold.new }
    ensures stands { (marks : Marks) → Stands fold.old (marked (L.meaning law.now) marks) →
        Stands fold.new (marked (L.meaning law.now) (or_marked marks
        (spokes_marks at.window at.start at.done (at.done + 1) spokes.old.items))) }
{
    stands_for_equal_maps();
    for i in 0..spokes.len() {
        spokes[i].step(law, fold, at, &ends[i]);
    }
}
