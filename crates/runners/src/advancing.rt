//! How a runner is advanced by one region.
ghost use Rattle.std.specs.Prelude.{◌≡◌, false, length};
ghost use Rattle.runners.specs.Advances.{Tells};
ghost use Rattle.runners.specs.Runners.{IsGood, is_finished, number_in};
ghost use Rattle.runners.specs.Tags.{HasRoom};

use crate::advances::Advance;
use crate::runners::Runner;
use crate::tags::RunTag;
use case_model::Law;
use regionrun::{EntryStub, Gate};

impl<'a, 'h, L: Law, S: EntryStub> Runner<'a, 'h, L, S> {
    /// Advances the runner by one region, where the blocks that it needs are published and there is
    /// a slot for the block that it writes: it enters the region, takes these blocks in, computes,
    /// and publishes. Each condition is looked at in this call, and where one isn't met nothing is
    /// entered. `scratch` has room for the block of each strand.
    pub fn advance<G: Gate<Stub = S>>(
        &mut self,
        tag: &RunTag<'a, 'h, L>,
        gate: &G,
        scratch: &mut [u64],
    ) -> Advance
        requires good { IsGood L.meaning S.strand_of S.entered_of tag.now self.old }
        requires unfinished { is_finished self.old ≡ false }
        requires room { HasRoom tag.now.layout.now tag.now.mesh.now (length scratch.old) }
        ensures good { IsGood L.meaning S.strand_of S.entered_of tag.now self.new }
        ensures number { number_in self.new ≡ number_in self.old }
        ensures told { Tells (L.meaning tag.now.law.now) tag.now.layout.now result
            self.old self.new }
    {
        if let Some((strand, published)) = self.find_late(tag) {
            return Advance::NoBlock { strand, published };
        }
        if let Some((reader, passed)) = self.find_full(tag) {
            return Advance::NoSlot { reader, passed };
        }
        self.strand.enter(gate);
        self.take_in(tag, scratch);
        self.hand_on(tag, scratch);
        Advance::Left
    }
}
