//! A strand with the ends of its histories.
ghost use Rattle.std.specs.Prelude.{◌≡◌, ◌<◌, ◌≤◌, length};
ghost use Rattle.regions.specs.Sides.{is_section_shape};
ghost use Rattle.regionrun.specs.Right.{region_count};

use crate::tags::RunTag;
use case_model::Law;
use claimboard::Item;
use endhistory::{History, Reader, Writer};
use regionrun::{EntryStub, Strand};
use regions::{Layout, Shape, layouts_are_sound};
use std::marker::PhantomData;

/// A strand with the writer of its own history and its readers of those of its neighbours, one for
/// each side. It keeps no reference: what it is good for is its tag.
#[derive(Drop)]
pub struct Runner<'a, 'h, L, S> {
    pub(crate) strand: Strand<S>,
    pub(crate) writer: Writer,
    pub(crate) readers: Vec<Reader>,
    // the strand's number, how many regions it has, and how many of them are computed: what the
    // board asks is told without the strand, whose calls rest on what its stub may be sent to
    pub(crate) number: u32,
    pub(crate) regions: u64,
    pub(crate) computed: u64,
    tag: PhantomData<(&'a L, &'h [History])>,
}

impl<'a, 'h, L: Law, S: EntryStub> Item for Runner<'a, 'h, L, S> {
    type Tag = RunTag<'a, 'h, L>;

    ghost use Rattle.runners.specs.Runners.{IsGood, is_finished as has_finished};

    ghost number_of = { λ runner. runner.number };

    ghost is_finished = { has_finished };

    ghost is_good = { IsGood L.meaning S.strand_of S.entered_of };

    fn number(&self) -> u32 {
        self.number
    }

    fn finished(&self) -> bool {
        self.computed == self.regions
    }
}

impl<'a, 'h, L: Law, S: EntryStub> Runner<'a, 'h, L, S> {
    ghost use Rattle.envelope.specs.RowFolds.{probe_numbers};
    ghost use Rattle.histories.specs.Opened.{AreReadersOf, IsFreshWriter};
    ghost use Rattle.endhistory.specs.declared.history.History.{History as HistorySeen};
    ghost use Rattle.regionrun.specs.Made.{IsNewStrand};
    ghost use Rattle.regions.specs.Sides.{sides_of};
    ghost use Rattle.runners.specs.Runners.{IsGood};
    ghost use Rattle.runners.specs.Tags.{IsRunTag, history_of};

    /// The runner of a strand of which nothing is entered or computed, with its ends as they were
    /// opened.
    pub fn over(
        tag: &RunTag<'a, 'h, L>,
        strand: Strand<S>,
        writer: Writer,
        readers: Vec<Reader>,
    ) -> Runner<'a, 'h, L, S>
        requires tag { IsRunTag L.meaning tag.now }
        requires strand { IsNewStrand S.strand_of S.entered_of tag.now.case.now
            (L.meaning tag.now.law.now) tag.now.layout.now
            (probe_numbers tag.now.mesh.now tag.now.case.now) strand.frontier.number strand }
        requires writer { (h : HistorySeen) → IsFreshWriter (L.meaning tag.now.law.now)
            tag.now.layout.now strand.frontier.number
            (history_of tag.now strand.frontier.number h) writer }
        requires readers { AreReadersOf (L.meaning tag.now.law.now) tag.now.layout.now
            tag.now.histories.now strand.frontier.number
            (sides_of tag.now.layout.now (L.meaning tag.now.law.now).mesh strand.frontier.number)
            readers.items }
        ensures good { IsGood L.meaning S.strand_of S.entered_of tag.now result }
        ensures strand { result.strand ≡ strand }
        ensures writer { result.writer ≡ writer }
        ensures readers { result.readers ≡ readers }
    {
        layouts_are_sound();
        let number = strand.number();
        let regions = count_regions(tag.layout, number);
        Runner {
            strand,
            writer,
            readers,
            number,
            computed: 0,
            regions,
            tag: PhantomData,
        }
    }

    /// The strand.
    pub fn strand(&self) -> &Strand<S>
        ensures { result.now ≡ self.now.strand }
    {
        &self.strand
    }

    /// The strand and its ends, given back.
    pub fn into_parts(self) -> (Strand<S>, Writer, Vec<Reader>)
        ensures strand { result.0 ≡ self.entry.strand }
        ensures writer { result.1 ≡ self.entry.writer }
        ensures readers { result.2 ≡ self.entry.readers }
    {
        let Runner {
            strand,
            writer,
            readers,
            number: _,
            regions: _,
            computed: _,
            tag: _,
        } = self;
        (strand, writer, readers)
    }
}

// How many regions a strand has.
fn count_regions(layout: &Layout, number: u32) -> u64
    requires there { number < length layout.now.shapes }
    requires few { layout.now.windows ≤ 100_000_000 }
    ensures { result ≡ region_count layout.now number }
{
    let windows = layout.windows;
    if is_section(&layout.shapes.as_slice()[number as usize]) {
        windows + 1
    } else {
        windows
    }
}

fn is_section(shape: &Shape) -> bool
    ensures { result ≡ is_section_shape shape.now }
{
    matches!(shape, Shape::OfSection { .. })
}
