//! What a runner looks for before its next region is entered: the blocks that it needs, and a slot
//! for the block that it writes.
ghost use Rattle.std.specs.Prelude.{◌≡◌, ◌<◌, MatchOption, is_some};
ghost use Rattle.endhistory.specs.Answers.{Finds};
ghost use Rattle.endhistory.specs.Seats.{writing};
ghost use Rattle.endhistory.specs.declared.answers.Vacancy.TheVariants.{Held};
ghost use Rattle.regions.specs.Needs.{needs_of};
ghost use Rattle.regions.specs.Sides.{is_section};
ghost use Rattle.runners.specs.Advances.{HasBlocks, HasSlot, IsHeldUp, sizes_of_seat};
ghost use Rattle.regionrun.specs.Right.{region_count};
ghost use Rattle.runners.specs.Runners.{IsGood, computed_in, number_in};

use crate::looks::look_beside;
use crate::neighbours::own_history;
use crate::runners::Runner;
use crate::tags::RunTag;
use case_model::Law;
use endhistory::Vacancy;
use regionrun::EntryStub;

impl<'a, 'h, L: Law, S: EntryStub> Runner<'a, 'h, L, S> {
    // A neighbour of which the next region needs a block that isn't published, and how many are.
    pub(crate) fn find_late(&mut self, tag: &RunTag<'a, 'h, L>) -> Option<(u32, u64)>
        requires good { IsGood L.meaning S.strand_of S.entered_of tag.now self.old }
        ensures good { IsGood L.meaning S.strand_of S.entered_of tag.now self.new }
        ensures strand { self.new.strand ≡ self.old.strand }
        ensures writer { self.new.writer ≡ self.old.writer }
        ensures number { self.new.number ≡ self.old.number }
        ensures regions { self.new.regions ≡ self.old.regions }
        ensures computed { self.new.computed ≡ self.old.computed }
        ensures answer { MatchOption result
            (HasBlocks tag.now.layout.now (number_in self.old) (computed_in self.old)
            self.old.readers.items self.new.readers.items)
            (λ late. IsHeldUp (L.meaning tag.now.law.now) tag.now.layout.now late.0 late.1
            self.old self.new) }
    {
        if !self.needs_blocks(tag) {
            return None;
        }
        look_beside(tag, self.number, &mut self.readers)
    }

    // Whether the next region needs blocks.
    pub(crate) fn needs_blocks(&self, tag: &RunTag<'a, 'h, L>) -> bool
        requires regions { self.now.regions ≡ region_count tag.now.layout.now (number_in self.now) }
        requires computed { self.now.computed ≡ computed_in self.now }
        ensures { result ≡ is_some (needs_of (is_section tag.now.layout.now (number_in self.now))
            (computed_in self.now)) }
    {
        let is_section = self.regions > tag.layout.windows;
        !is_section || self.computed != 0
    }

    // A reader of the strand's history for whose sake there is no slot for the block that the next
    // region writes, and how many blocks it has passed.
    pub(crate) fn find_full(&mut self, tag: &RunTag<'a, 'h, L>) -> Option<(u32, u64)>
        requires good { IsGood L.meaning S.strand_of S.entered_of tag.now self.old }
        ensures good { IsGood L.meaning S.strand_of S.entered_of tag.now self.new }
        ensures strand { self.new.strand ≡ self.old.strand }
        ensures readers { self.new.readers ≡ self.old.readers }
        ensures number { self.new.number ≡ self.old.number }
        ensures regions { self.new.regions ≡ self.old.regions }
        ensures computed { self.new.computed ≡ self.old.computed }
        ensures answer { MatchOption result
            (HasSlot tag.now.layout.now self.old self.new)
            (λ full. (computed_in self.old < tag.now.layout.now.windows)
            × Finds (sizes_of_seat self.old.writer.seat) (Held full.0 full.1)
            (writing self.old.writer.seat) (writing self.new.writer.seat)) }
    {
        if self.computed >= tag.layout.windows {
            return None;
        }
        match own_history(tag, self.number).vacancy(&mut self.writer) {
            Vacancy::Free => None,
            Vacancy::Held { reader, passed } => Some((reader, passed)),
        }
    }
}
