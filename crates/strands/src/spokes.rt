//! A spoke of a node: the places of one pipe from its end at the node inward.
ghost use Rattle.std.specs.Prelude.{◌≡◌, ℕ, ◌+◌, ◌-◌, ◌*◌, ◌^◌, ◌<◌, ◌≤◌, length, IfOk};
ghost use Rattle.std.specs.Prelude.{true, false};
ghost use Rattle.case_model.specs.Meaning.{Meaning};
ghost use Rattle.case_model.specs.Mesh.{IsNumbered, reaches};
ghost use Rattle.case_model.specs.Range.{IsPoint};
ghost use Rattle.envelope.specs.Folds.{IsSameFold, Stands};
ghost use Rattle.fronts.specs.Fronts.{Holds, Raises, spot};
ghost use Rattle.fronts.specs.Stretches.{count_of};
ghost use Rattle.strands.specs.Spokes.{IsNewSpoke, IsSameSpoke, IsSpoke, IsSpokeAfter, IsSpokeAt};
ghost use Rattle.strands.specs.Spokes.{NotesSpoke, end_place, inner_low as low_inside};
ghost use Rattle.strands.specs.Spokes.{IsBeside, IsSpokeStepped, run_low, spoke_inner, spoke_outer};
ghost use Rattle.strands.specs.Marks.{Marks, is_only, marked, or_marked};
ghost use Rattle.strands.specs.Sections.{IsAdvanced, IsNumberedLine};
ghost use Rattle.strands.specs.Stations.{half};
ghost use Rattle.strands.specs.Beside.{station_tells};
ghost use Rattle.strands.specs.Blocks.{HasPoints};

use crate::besides::load_beside;
use crate::handed::{Block, StationBlock};
use case_model::{End, Law, Mesh, Point};
use envelope::{Fold, numbers_tell_places, stands_for_equal_maps};
use fronts::Stretch;
use std::alloc::{AllocError, Global};

// A step of a window of so many steps after `start`: that after the first `done` of them.
#[derive(Clone, Copy)]
pub(crate) struct WindowStep {
    pub(crate) window: usize,
    pub(crate) start: u64,
    pub(crate) done: usize,
}

/// A stretch of a pipe from its end at a node inward. Of each window it takes the block of the
/// section beside the node in, is computed with the node, and hands its own block on.
#[derive(Drop, Debug)]
pub(crate) struct Spoke {
    pub(crate) stretch: Stretch,
    pub(crate) last: bool,
    pub(crate) loaded: bool,
}

impl Spoke {
    /// The spoke of a pipe end for windows of so many steps, with the end's point of step 0. The
    /// error is want of memory.
    pub(crate) fn make<L: Law>(
        alloc: Global,
        law: &L,
        mesh: &Mesh,
        window: usize,
        end: End,
    ) -> Result<Spoke, AllocError>
        requires mesh { mesh.now ≡ (L.meaning law.now).mesh }
        requires numbered { IsNumbered mesh.now }
        requires on_mesh { end.pipe < length mesh.now.pipes }
        requires some { 1 ≤ window }
        requires long { half window ≤ reaches mesh.now end.pipe }
        requires few { mesh.now.places < 2 ^ 32 }
        ensures { IfOk result (IsNewSpoke (L.meaning law.now) window end) }
    {
        let mut spoke = Spoke::blank(alloc, mesh, window, end)?;
        let at = spoke.end();
        let place = place_of_end(mesh, end);
        spoke.stretch.put(0, at, law.start_point(end.pipe, place));
        Ok(spoke)
    }

    /// Notes the end's point of step 0.
    pub(crate) fn note_start(&self, fold: &mut Fold)
        requires some { 2 ≤ count_of self.now.stretch }
        requires few { self.now.stretch.number + count_of self.now.stretch < 2 ^ 32 }
        requires noted { NotesSpoke self.now fold.old }
        ensures same { IsSameFold fold.old fold.new }
        ensures stands { (law : Meaning) (w : ℕ) (marks : Marks) → IsSpokeAt law w 0 self.now →
            Stands fold.old (marked law marks) →
            Stands fold.new (marked law (or_marked marks
            (is_only 0 (self.now.stretch.number + end_place self.now.last (half w))))) }
    {
        numbers_tell_places();
        stands_for_equal_maps();
        let at = self.end();
        self.stretch.note(fold, 0, at, at + 1);
    }

    /// Takes the block of the section in, over the window of so many steps after `start`. Where it
    /// is loaded already, nothing changes.
    pub(crate) fn load<B: Block>(&mut self, window: usize, start: u64, block: &B)
        requires each { B.size block.now ≡ window }
        requires some { 1 ≤ window }
        requires size { count_of self.old.stretch ≡ half window + 1 }
        requires room { start + window < 2 ^ 64 }
        ensures same { IsSameSpoke self.old self.new }
        ensures loaded { self.new.loaded ≡ true }
        ensures at { (law : Meaning) → IsSpokeAt law window start self.old →
            HasPoints window (spoke_outer law window start self.old) (B.tells block.now) →
            IsSpokeAt law window start self.new }
    {
        if !self.loaded {
            let at = self.end();
            load_beside(&mut self.stretch, !self.last, at, window, start, block);
            self.loaded = true;
        }
    }

    /// The block of the node for the section on this pipe, over the window of so many steps after
    /// `start`, read where its points stand.
    pub(crate) fn block(&self, window: usize, start: u64) -> StationBlock
        requires some { 1 ≤ window }
        requires size { count_of self.now.stretch ≡ half window + 1 }
        requires room { start + window < 2 ^ 64 }
        ensures points { (law : Meaning) → IsSpokeAfter law window start window self.now →
            HasPoints window (spoke_inner law window start self.now) (station_tells result) }
        ensures size { result.window ≡ window }
    {
        StationBlock::lend(&self.stretch, !self.last, self.end(), window, start)
    }

    // A spoke of which no point is known.
    fn blank(alloc: Global, mesh: &Mesh, window: usize, end: End) -> Result<Spoke, AllocError>
        requires numbered { IsNumbered mesh.now }
        requires on_mesh { end.pipe < length mesh.now.pipes }
        requires some { 1 ≤ window }
        requires long { half window ≤ reaches mesh.now end.pipe }
        requires few { mesh.now.places < 2 ^ 32 }
        ensures { IfOk result (λ spoke. (spoke.stretch.pipe ≡ end.pipe)
            × (spoke.last ≡ end.at_last) × (spoke.loaded ≡ false)
            × ((law : Meaning) → law.mesh ≡ mesh.now → IsSpoke law window spoke)) }
    {
        numbers_tell_places();
        let shape = mesh.pipes.as_slice()[end.pipe as usize];
        let half = window.div_ceil(2);
        let first = if end.at_last {
            shape.reaches - half as u32
        } else {
            0
        };
        let number = shape.base + first as u64;
        Ok(Spoke {
            stretch: Stretch::make(alloc, end.pipe, first, number, half + 1)?,
            last: end.at_last,
            loaded: false,
        })
    }

    // The place of the node's end.
    fn end(&self) -> usize
        requires { 2 ≤ count_of self.now.stretch }
        ensures { result ≡ end_place self.now.last (count_of self.now.stretch - 1) }
    {
        if self.last {
            self.stretch.count() - 1
        } else {
            0
        }
    }

    // The point beside the end that is kept for the parity of a step.
    pub(crate) fn beside(&self, step: u64) -> Point
        requires { 2 ≤ count_of self.now.stretch }
        ensures point { IsBeside step self.now result }
        ensures in_range { IsPoint result }
    {
        let place = if self.last {
            self.stretch.count() - 2
        } else {
            1
        };
        self.stretch.point(step, place)
    }

    // The first of the places up to distance `most` but the end.
    fn inner_low(&self, most: usize) -> usize
        requires { most + 1 < count_of self.now.stretch }
        ensures { result ≡ low_inside self.now.last (count_of self.now.stretch - 1) most }
    {
        if self.last {
            self.stretch.count() - 1 - most
        } else {
            1
        }
    }

    // Raises the end, whose point is given, and the places up to distance `most` from it to the
    // step after `step`, and notes them.
    pub(crate) fn advance<L: Law>(
        &mut self,
        law: &L,
        fold: &mut Fold,
        step: u64,
        most: usize,
        point: &Point,
    )
        requires line { IsNumberedLine (L.meaning law.now) self.old.stretch }
        requires inside { most + 1 < count_of self.old.stretch }
        requires noted { NotesSpoke self.old fold.old }
        requires room { step + 1 < 2 ^ 64 }
        requires in_range { IsPoint point.now }
        ensures last { self.new.last ≡ self.old.last }
        ensures advanced { (since front later : ℕ → ℕ) →
            Raises step (λ x. x) (run_low self.old.last (count_of self.old.stretch - 1) most)
            (run_low self.old.last (count_of self.old.stretch - 1) most + most + 1)
            (count_of self.old.stretch) since front later →
            point.now ≡ spot (L.meaning law.now) self.old.stretch (step + 1)
            (end_place self.old.last (count_of self.old.stretch - 1)) →
            Holds (L.meaning law.now) since front self.old.stretch →
            IsAdvanced (L.meaning law.now) since front later self.old.stretch self.new.stretch
            fold.old fold.new }
    {
        numbers_tell_places();
        stands_for_equal_maps();
        let at = self.end();
        let low = self.inner_low(most);
        self.stretch.step_run(law, step, low, low + most);
        self.stretch.put_lent(step + 1, at, point);
        let low = low.min(at);
        self.stretch.note(fold, step + 1, low, low + most + 1);
    }

    // One step of a window: the end's point is given.
    pub(crate) fn step<L: Law>(&mut self, law: &L, fold: &mut Fold, at: WindowStep, point: &Point)
        requires inside { at.done < at.window }
        requires room { at.start + at.window < 2 ^ 64 }
        requires computed { IsSpokeAfter (L.meaning law.now) at.window at.start at.done self.old }
        requires noted { NotesSpoke self.old fold.old }
        requires in_range { IsPoint point.now }
        requires point { point.now
            ≡ spot (L.meaning law.now) self.old.stretch (at.start + at.done + 1)
            (end_place self.old.last (half at.window)) }
        ensures { IsSpokeStepped (L.meaning law.now) at.window at.start at.done self.old self.new
            fold.old fold.new }
    {
        let most = at.done.min(at.window - 1 - at.done);
        self.advance(law, fold, at.start + at.done as u64, most, point);
        self.loaded = false;
    }
}

// The place of a pipe end on its pipe.
fn place_of_end(mesh: &Mesh, end: End) -> u32
    requires { end.pipe < length mesh.now.pipes }
    ensures place { result ≡ end_place end.at_last (reaches mesh.now end.pipe) }
    ensures on_pipe { result ≤ reaches mesh.now end.pipe }
{
    if end.at_last {
        mesh.pipes.as_slice()[end.pipe as usize].reaches
    } else {
        0
    }
}
