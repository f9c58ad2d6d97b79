//! The strand of a section: how its tent goes from one window to the next, by the blocks of the
//! stations at its ends.
ghost use Rattle.std.specs.Prelude.{◌≡◌, ◌≢◌, ℕ, ◌+◌, ◌-◌, ◌*◌, ◌^◌, ◌<◌, ◌≤◌, length, IfOk};
ghost use Rattle.case_model.specs.Meaning.{Meaning};
ghost use Rattle.case_model.specs.Mesh.{IsNumbered, base_of, reaches as reaches_of};
ghost use Rattle.envelope.specs.Folds.{IsSameFold, Stands};
ghost use Rattle.fronts.specs.Fronts.{ever, loaded, risen, tent};
ghost use Rattle.fronts.specs.Stretches.{IsStretchOf, count_of};
ghost use Rattle.strands.specs.Marks.{Marks, marked, or_marked};
ghost use Rattle.strands.specs.Sections.{IsAdvanced, NotesInside};
ghost use Rattle.strands.specs.Tents.{IsFed, IsFreshSection, IsSectionAt, IsUnfed, TakesBlock};
ghost use Rattle.strands.specs.Tents.{has_block, starts_inside};
ghost use Rattle.strands.specs.Blocks.{HasPoints, section_side, section_tells, station_side};

use crate::blocks::load_side;
use crate::handed::{Block, SectionBlock};
use crate::sections::{advance_region, advance_start};
use crate::starts::put_starts;
use case_model::Law;
use envelope::{Fold, numbers_tell_places, stands_for_equal_maps};
use fronts::Stretch;
use std::alloc::{AllocError, Global};

/// The strand of a section: its places with the stations at both ends, and for which of them the
/// block is loaded.
#[derive(Drop, Debug)]
pub struct Section {
    pub(crate) stretch: Stretch,
    pub(crate) left: bool,
    pub(crate) right: bool,
}

impl Section {
    /// The section of so many reaches of a pipe from `place` on, with the points of the initial
    /// row; `number` is the place number of that place. The error is want of memory.
    pub fn make<L: Law>(
        alloc: Global,
        law: &L,
        pipe: u32,
        place: u32,
        number: u64,
        reaches: u32,
    ) -> Result<Section, AllocError>
        requires pipe { pipe < length (L.meaning law.now).mesh.pipes }
        requires numbered { IsNumbered (L.meaning law.now).mesh }
        requires number_is { number ≡ base_of (L.meaning law.now).mesh pipe + place }
        requires long { 2 ≤ reaches }
        requires fits { place + reaches ≤ reaches_of (L.meaning law.now).mesh pipe }
        requires small { reaches_of (L.meaning law.now).mesh pipe < 2 ^ 32 }
        requires few { number + reaches + 1 < 2 ^ 32 }
        ensures fresh { IfOk result (λ section. IsFreshSection (L.meaning law.now) section) }
        ensures places { IfOk result (λ section.
            IsStretchOf pipe place number (reaches + 1) section.stretch) }
    {
        let mut stretch = Stretch::make(alloc, pipe, place, number, reaches as usize + 1)?;
        put_starts(law, &mut stretch);
        Ok(Section {
            stretch,
            left: false,
            right: false,
        })
    }

    /// Notes the points of the initial row between the two stations.
    pub fn note_start(&self, fold: &mut Fold)
        requires noted { NotesInside self.now.stretch fold.old }
        requires long { 3 ≤ count_of self.now.stretch }
        requires few { self.now.stretch.number + count_of self.now.stretch < 2 ^ 32 }
        ensures same { IsSameFold fold.old fold.new }
        ensures stands { (law : Meaning) (marks : Marks) → IsFreshSection law self.now →
            Stands fold.old (marked law marks) →
            Stands fold.new (marked law (or_marked marks (starts_inside self.now))) }
    {
        numbers_tell_places();
        stands_for_equal_maps();
        self.stretch.note(fold, 0, 1, self.stretch.count() - 1);
    }

    /// Takes the block of the station at the left or the right in, over the window of so many steps
    /// after `start`; where it is loaded already nothing changes.
    #[inline(always)]
    pub fn load<B: Block>(&mut self, left: bool, window: usize, start: u64, block: &B)
        requires each { B.size block.now ≡ window }
        requires long { window + 1 ≤ count_of self.old.stretch }
        requires room { start + window < 2 ^ 64 }
        ensures takes { TakesBlock left self.old self.new }
        ensures at { (law : Meaning) → IsSectionAt law window start self.old →
            HasPoints window (station_side law self.old.stretch left window start)
            (B.tells block.now) →
            IsSectionAt law window start self.new }
    {
        if !self.has(left) {
            load_side(&mut self.stretch, left, window, start, block);
            self.left |= left;
            self.right |= !left;
        }
    }

    // Whether the block of the station at this side is loaded.
    fn has(&self, left: bool) -> bool
        ensures { result ≡ has_block left self.now }
    {
        if left { self.left } else { self.right }
    }

    /// Computes region 0, and notes it.
    pub fn compute_first<L: Law>(&mut self, law: &L, fold: &mut Fold)
        requires fresh { IsFreshSection (L.meaning law.now) self.old }
        requires noted { NotesInside self.old.stretch fold.old }
        ensures unfed { IsUnfed self.new }
        ensures at { (w : ℕ) → 1 ≤ w → w + 1 ≤ count_of self.old.stretch →
            IsSectionAt (L.meaning law.now) w 0 self.new }
        ensures advanced { let n = count_of self.old.stretch - 1 in
            IsAdvanced (L.meaning law.now) ever (risen n 0) (tent 0 n)
            self.old.stretch self.new.stretch fold.old fold.new }
    {
        advance_start(law, &mut self.stretch, fold);
    }

    /// Computes the next region, over the window of so many steps after `start`, of which the
    /// blocks of both stations are loaded, and notes it.
    #[inline(always)]
    pub fn compute_next<L: Law>(&mut self, law: &L, window: usize, start: u64, fold: &mut Fold)
        requires at { IsSectionAt (L.meaning law.now) window start self.old }
        requires fed { IsFed self.old }
        requires noted { NotesInside self.old.stretch fold.old }
        requires room { start + 2 * count_of self.old.stretch < 2 ^ 64 }
        ensures unfed { IsUnfed self.new }
        ensures at { IsSectionAt (L.meaning law.now) window (start + window) self.new }
        ensures advanced { let n = count_of self.old.stretch - 1 in
            IsAdvanced (L.meaning law.now) ever (loaded start window n) (tent (start + window) n)
            self.old.stretch self.new.stretch fold.old fold.new }
    {
        advance_region(law, window, start, &mut self.stretch, fold);
        self.left = false;
        self.right = false;
    }

    /// The block for the station at the left or the right, over the window of so many steps after
    /// `start`, read where its points stand.
    pub fn block(&self, left: bool, window: usize, start: u64) -> SectionBlock
        requires long { window + 1 ≤ count_of self.now.stretch }
        requires room { start + window < 2 ^ 64 }
        ensures points { (law : Meaning) → IsSectionAt law window start self.now →
            IsUnfed self.now →
            HasPoints window (section_side law self.now.stretch left start) (section_tells result) }
        ensures size { result.window ≡ window }
    {
        SectionBlock::lend(&self.stretch, left, window, start)
    }
}
