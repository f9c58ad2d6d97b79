//! The strand of a seam: a place where a pipe is cut, and its triangles in the sections beside it.
ghost use Rattle.std.specs.Prelude.{◌≡◌};

use crate::besides::load_beside;
use crate::handed::{Block, StationBlock};
use crate::stations::advance_seam;
use case_model::Law;
use envelope::{Fold, numbers_tell_places, stands_for_equal_maps};
use fronts::Stretch;
use std::alloc::{AllocError, Global};

/// A seam of a pipe, with the places beside it as far as half a window of steps reaches, and
/// whether the block of the section at each side is loaded for the window that comes next.
#[derive(Drop, Debug)]
pub struct Seam {
    pub(crate) stretch: Stretch,
    pub(crate) left: bool,
    pub(crate) right: bool,
}

impl Seam {
    ghost use Rattle.std.specs.Prelude.{ℕ, ◌+◌, ◌-◌, ◌*◌, ◌/◌, ◌^◌, ◌<◌, ◌≤◌, length, IfOk};
    ghost use Rattle.std.specs.Prelude.{true, false};
    ghost use Rattle.case_model.specs.Meaning.{Meaning};
    ghost use Rattle.case_model.specs.Mesh.{IsNumbered, base_of, reaches};
    ghost use Rattle.envelope.specs.Cells.{AreInOneSpan};
    ghost use Rattle.envelope.specs.Folds.{IsSameFold, Stands, spans_of};
    ghost use Rattle.fronts.specs.Stretches.{AreSamePlaces, count_of};
    ghost use Rattle.strands.specs.Beside.{inner_side, outer_side, station_tells};
    ghost use Rattle.strands.specs.Marks.{Marks, is_between, is_only, marked, or_marked};
    ghost use Rattle.strands.specs.Seams.{IsLoaded, IsSeamAt, IsSeamDone, IsSeamOf};
    ghost use Rattle.strands.specs.Seams.{has_block, number_of_seam, stretch_of};
    ghost use Rattle.strands.specs.Stations.{NotesTriangles, half, seam_front};
    ghost use Rattle.strands.specs.Blocks.{HasPoints};

    /// The seam in a place of a pipe, with this place number, at step 0. The error is want of
    /// memory.
    pub fn make<L: Law>(
        alloc: Global,
        law: &L,
        window: usize,
        pipe: u32,
        place: u32,
        number: u64,
    ) -> Result<Seam, AllocError>
        requires some { 1 ≤ window }
        requires on_mesh { pipe < length (L.meaning law.now).mesh.pipes }
        requires numbered { IsNumbered (L.meaning law.now).mesh }
        requires small { reaches (L.meaning law.now).mesh pipe < 2 ^ 32 }
        requires room_left { half window ≤ place }
        requires room_right { place + half window ≤ reaches (L.meaning law.now).mesh pipe }
        requires number { number ≡ base_of (L.meaning law.now).mesh pipe + place }
        requires few { number + half window + 1 < 2 ^ 32 }
        ensures started { IfOk result (IsSeamAt (L.meaning law.now) window 0) }
        ensures made { IfOk result (IsSeamOf pipe place number window) }
    {
        let reach = window.div_ceil(2);
        let first = place - reach as u32;
        let mut stretch = Stretch::make(alloc, pipe, first, number - reach as u64, 2 * reach + 1)?;
        stretch.put(0, reach, law.start_point(pipe, place));
        Ok(Seam {
            stretch,
            left: false,
            right: false,
        })
    }

    /// Notes the seam's own point at step 0.
    pub fn note_start(&self, fold: &mut Fold)
        requires some { 1 ≤ count_of (stretch_of self.now) }
        requires fits { (stretch_of self.now).number + count_of (stretch_of self.now) < 2 ^ 64 }
        requires noted { AreInOneSpan (spans_of fold.old) (number_of_seam self.now) 1 }
        ensures same_fold { IsSameFold fold.old fold.new }
        ensures stands { (law : Meaning) (w : ℕ) (marks : Marks) → IsSeamAt law w 0 self.now →
            Stands fold.old (marked law marks) →
            Stands fold.new (marked law (or_marked marks (is_only 0 (number_of_seam self.now)))) }
    {
        numbers_tell_places();
        stands_for_equal_maps();
        let at = self.stretch.count() / 2;
        self.stretch.note(fold, 0, at, at + 1);
    }

    /// Takes the block of the section at one side in, for the window of so many steps after
    /// `start`. Where it is loaded already this changes nothing.
    #[inline(always)]
    pub fn load<B: Block>(&mut self, right: bool, window: usize, start: u64, block: &B)
        requires each { B.size block.now ≡ window }
        requires size { count_of (stretch_of self.old) ≡ 2 * half window + 1 }
        requires room { start + window < 2 ^ 64 }
        ensures loaded { IsLoaded right self.old self.new }
        ensures holds { (law : Meaning) → IsSeamAt law window start self.old →
            HasPoints window (outer_side law (stretch_of self.old) right (half window) start)
            (B.tells block.now) → IsSeamAt law window start self.new }
    {
        let at = window.div_ceil(2);
        if right {
            if !self.right {
                load_beside(&mut self.stretch, true, at, window, start, block);
                self.right = true;
            }
        } else if !self.left {
            load_beside(&mut self.stretch, false, at, window, start, block);
            self.left = true;
        }
    }

    /// Computes the seam and its triangles over the window of so many steps after `start`, and
    /// notes them. Then no block is loaded.
    #[inline(always)]
    pub fn compute<L: Law>(&mut self, law: &L, window: usize, start: u64, fold: &mut Fold)
        requires seam { IsSeamAt (L.meaning law.now) window start self.old }
        requires left { has_block false self.old ≡ true }
        requires right { has_block true self.old ≡ true }
        requires noted { NotesTriangles window (stretch_of self.old) fold.old }
        requires room { start + window < 2 ^ 64 }
        ensures done { IsSeamDone (L.meaning law.now) window start self.new }
        ensures next { IsSeamAt (L.meaning law.now) window (start + window) self.new }
        ensures same { AreSamePlaces (stretch_of self.old) (stretch_of self.new) }
        ensures same_fold { IsSameFold fold.old fold.new }
        ensures stands { (marks : Marks) → Stands fold.old (marked (L.meaning law.now) marks) →
            Stands fold.new (marked (L.meaning law.now) (or_marked marks
            (is_between (stretch_of self.old) (seam_front window start 0)
            (seam_front window start window)))) }
    {
        advance_seam(law, window, start, &mut self.stretch, fold);
        self.left = false;
        self.right = false;
    }

    /// The seam's block for one side, of the window that was computed last, read where its points
    /// stand.
    pub fn block(&self, right: bool, window: usize, start: u64) -> StationBlock
        requires some { 1 ≤ window }
        requires size { count_of (stretch_of self.now) ≡ 2 * half window + 1 }
        requires room { start + window < 2 ^ 64 }
        ensures points { (law : Meaning) → IsSeamDone law window start self.now →
            HasPoints window (inner_side law (stretch_of self.now) right (half window) window start)
            (station_tells result) }
        ensures size { result.window ≡ window }
    {
        StationBlock::lend(&self.stretch, right, window.div_ceil(2), window, start)
    }
}
