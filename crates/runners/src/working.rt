//! The region that a runner has entered: its blocks are taken in, it is computed, and its own block
//! is handed on.
ghost use Rattle.std.specs.Prelude.{◌≡◌, ℕ, ◌+◌, ◌<◌, ◌≤◌, false, Some, None, length};
ghost use Rattle.std.specs.Prelude.{slice_index_or};
ghost use Rattle.endhistory.specs.Seats.{reading, writing};
ghost use Rattle.endhistory.specs.Steps.{IsFree, published_view};
ghost use Rattle.endhistory.specs.declared.history.Reader.{Reader as ReaderSeen};
ghost use Rattle.regions.specs.Needs.{needs_of};
ghost use Rattle.regions.specs.Sides.{is_section};
ghost use Rattle.regionrun.specs.Right.{IsFed};
ghost use Rattle.runners.specs.Advances.{sizes_of_seat};
ghost use Rattle.runners.specs.Blocks.{ArePassed};
ghost use Rattle.runners.specs.Runners.{IsGood, IsRunning, computed_in, is_finished, number_in};
ghost use Rattle.runners.specs.Tags.{HasRoom};
ghost use Rattle.schedule.specs.Nets.{needed_of};

use crate::blocks::{hand_out, take_all};
use crate::neighbours::own_history;
use crate::runners::Runner;
use crate::tags::RunTag;
use case_model::Law;
use regionrun::EntryStub;

impl<'a, 'h, L: Law, S: EntryStub> Runner<'a, 'h, L, S> {
    // Takes in the blocks that the entered region needs, which were seen published.
    pub(crate) fn take_in(&mut self, tag: &RunTag<'a, 'h, L>, scratch: &mut [u64])
        requires running { IsRunning L.meaning S.strand_of S.entered_of tag.now
            (computed_in self.old + 1)
            (needed_of (is_section tag.now.layout.now (number_in self.old))
            (computed_in self.old)) self.old }
        requires unfinished { is_finished self.old ≡ false }
        requires seen { (b j : ℕ) (d : ReaderSeen) →
            needs_of (is_section tag.now.layout.now (number_in self.old)) (computed_in self.old)
            ≡ Some b → j < length self.old.readers.items →
            b < (reading (slice_index_or self.old.readers.items j d).seat).seen }
        requires room { HasRoom tag.now.layout.now tag.now.mesh.now (length scratch.old) }
        ensures running { IsRunning L.meaning S.strand_of S.entered_of tag.now
            (computed_in self.old + 1)
            (needed_of (is_section tag.now.layout.now (number_in self.old))
            (computed_in self.old + 1)) self.new }
        ensures fed { IsFed tag.now.layout.now self.new.strand.frontier }
        ensures same { (number_in self.new ≡ number_in self.old)
            × (computed_in self.new ≡ computed_in self.old)
            × (self.new.number ≡ self.old.number) × (self.new.regions ≡ self.old.regions)
            × (self.new.computed ≡ self.old.computed) }
        ensures writer { self.new.writer ≡ self.old.writer }
        ensures passed { (b : ℕ) →
            needs_of (is_section tag.now.layout.now (number_in self.old)) (computed_in self.old)
            ≡ Some b → ArePassed (length self.old.readers.items) self.old.readers.items
            self.new.readers.items }
        ensures kept { needs_of (is_section tag.now.layout.now (number_in self.old))
            (computed_in self.old) ≡ None → self.new.readers.items ≡ self.old.readers.items }
    {
        if self.needs_blocks(tag) {
            take_all(tag, &mut self.strand, &mut self.readers, scratch);
        }
    }

    // Computes the entered region, of which all needed blocks are loaded, and publishes its block
    // where it has one.
    pub(crate) fn hand_on(&mut self, tag: &RunTag<'a, 'h, L>, scratch: &mut [u64])
        requires running { IsRunning L.meaning S.strand_of S.entered_of tag.now
            (computed_in self.old + 1)
            (needed_of (is_section tag.now.layout.now (number_in self.old))
            (computed_in self.old + 1)) self.old }
        requires unfinished { is_finished self.old ≡ false }
        requires fed { IsFed tag.now.layout.now self.old.strand.frontier }
        requires free { computed_in self.old < tag.now.layout.now.windows →
            IsFree (sizes_of_seat self.old.writer.seat) (writing self.old.writer.seat) }
        requires room { HasRoom tag.now.layout.now tag.now.mesh.now (length scratch.old) }
        ensures good { IsGood L.meaning S.strand_of S.entered_of tag.now self.new }
        ensures same { (number_in self.new ≡ number_in self.old)
            × (computed_in self.new ≡ computed_in self.old + 1)
            × (self.new.readers ≡ self.old.readers) }
        ensures published { computed_in self.old < tag.now.layout.now.windows →
            writing self.new.writer.seat ≡ published_view (writing self.old.writer.seat) }
        ensures kept { tag.now.layout.now.windows ≤ computed_in self.old →
            self.new.writer ≡ self.old.writer }
    {
        let writes = self.computed < tag.layout.windows;
        let block = &mut scratch[..own_history(tag, self.number).sizes.width];
        self.strand.compute(tag.law, block);
        self.computed += 1;
        if writes {
            hand_out(tag, self.number, &mut self.writer, block);
        }
    }
}
