//! What a strand keeps of its places, by its kind: how it takes blocks in, is computed, and lends
//! its own blocks.
ghost use Rattle.std.specs.Prelude.{◌≡◌, ◌+◌, ◌*◌, ◌^◌, ◌<◌, ◌≤◌};
ghost use Rattle.case_model.specs.Meaning.{Meaning};
ghost use Rattle.envelope.specs.Folds.{IsSameFold, Stands};
ghost use Rattle.regionrun.specs.Bodies.{FitsWindow, HasIncoming, HasLoaded, HasOutgoing};
ghost use Rattle.regionrun.specs.Bodies.{IsBareBody, IsBodyAt, IsComputed, IsFedBody, IsNoting};
ghost use Rattle.regionrun.specs.Bodies.{IsOpen, IsSameBody, body_marks, is_section_body};
ghost use Rattle.regionrun.specs.Bodies.{IsSectionAfter, section_marks, side_count, window_start};
ghost use Rattle.regionrun.specs.Lent.{lent_size, lent_tells};
ghost use Rattle.fronts.specs.Stretches.{AreSamePlaces, count_of};
ghost use Rattle.strands.specs.Sections.{NotesInside};
ghost use Rattle.strands.specs.Tents.{IsFed, IsSectionAt, IsUnfed};
ghost use Rattle.regions.specs.declared.shapes.TheConstants.{WIDEST_WINDOW};
ghost use Rattle.strands.specs.Marks.{Marks, marked, or_marked};

use crate::lent::Lent;
use case_model::Law;
use envelope::Fold;
use strands::{Block, Hub, Seam, Section};

/// The places of a section, a seam or a node.
#[derive(Drop)]
pub(crate) enum Body {
    OfSection(Section),
    OfSeam(Seam),
    OfNode(Hub),
}

impl Body {
    /// Whether these are the places of a section.
    pub(crate) fn is_section(&self) -> bool
        ensures { result ≡ is_section_body self.now }
    {
        matches!(self, Body::OfSection(_))
    }

    // The step after which the window begins that a region's blocks lie in.
    fn start(&self, window: usize, region: u64) -> u64
        requires few_steps { window ≤ WIDEST_WINDOW }
        requires few { region ≤ 100_000_001 }
        ensures is { result ≡ window_start self.now window region }
        ensures low { result < 2 ^ 40 }
    {
        if self.is_section() {
            steps_in(window, region.saturating_sub(1))
        } else {
            steps_in(window, region)
        }
    }

    /// Takes the block of one side in that a region needs.
    #[inline(always)]
    pub(crate) fn load<B: Block>(&mut self, side: usize, window: usize, region: u64, block: &B)
        requires few_steps { window ≤ WIDEST_WINDOW }
        requires few { region ≤ 100_000_001 }
        requires side { side < side_count self.old }
        requires each { B.size block.now ≡ window }
        requires fits { FitsWindow window self.old }
        ensures loaded { HasLoaded side self.old self.new }
        ensures open { (law : Meaning) → IsOpen law window region self.old →
            HasIncoming law window region side self.old (B.tells block.now) →
            IsOpen law window region self.new }
    {
        let start = self.start(window, region);
        match self {
            Body::OfSection(section) => section.load(side == 0, window, start, block),
            Body::OfSeam(seam) => seam.load(side == 1, window, start, block),
            Body::OfNode(hub) => {
                // A block of which no one keeps the address needs no place in memory.
                let copy = *block;
                hub.load(side, window, start, &copy)
            }
        }
    }

    /// Computes a region, and notes it.
    #[inline(always)]
    pub(crate) fn advance<L: Law>(&mut self, law: &L, window: usize, region: u64, fold: &mut Fold)
        requires some { 1 ≤ window }
        requires few_steps { window ≤ WIDEST_WINDOW }
        requires few { region ≤ 100_000_001 }
        requires at { IsBodyAt (L.meaning law.now) window self.old region }
        requires fits { FitsWindow window self.old }
        requires fed { IsFedBody self.old region }
        requires noted { IsNoting window fold.old self.old }
        ensures computed { IsComputed (L.meaning law.now) window region self.new }
        ensures same { IsSameBody self.old self.new }
        ensures bare { IsBareBody self.new }
        ensures same_fold { IsSameFold fold.old fold.new }
        ensures stands { (marks : Marks) → Stands fold.old (marked (L.meaning law.now) marks) →
            Stands fold.new (marked (L.meaning law.now) (or_marked marks
            (body_marks window self.old region))) }
    {
        let start = self.start(window, region);
        match self {
            Body::OfSection(section) => advance_section(law, section, window, region, fold),
            Body::OfSeam(seam) => seam.compute(law, window, start, fold),
            Body::OfNode(hub) => hub.compute(law, window, start, fold),
        }
    }

    /// A region's block for one side, read where its points stand.
    #[inline(always)]
    pub(crate) fn block(&self, side: usize, window: usize, region: u64) -> Lent
        requires few_steps { window ≤ WIDEST_WINDOW }
        requires few { region ≤ 100_000_001 }
        requires side { side < side_count self.now }
        requires fits { FitsWindow window self.now }
        ensures points { (law : Meaning) → IsComputed law window region self.now →
            HasOutgoing law window region side self.now (lent_tells result) }
        ensures size { lent_size result ≡ window }
    {
        let start = steps_in(window, region);
        match self {
            Body::OfSection(section) => Lent::BySection(section.block(side == 0, window, start)),
            Body::OfSeam(seam) => Lent::ByStation(seam.block(side == 1, window, start)),
            Body::OfNode(hub) => Lent::ByStation(hub.block(side, window, start)),
        }
    }
}

// How many steps so many windows have.
fn steps_in(window: usize, windows: u64) -> u64
    requires few_steps { window ≤ WIDEST_WINDOW }
    requires few { windows ≤ 100_000_001 }
    ensures is { result ≡ windows * window }
    ensures low { result < 2 ^ 40 }
{
    windows * window as u64
}

// Computes a region of a section, and notes it.
#[inline(always)]
fn advance_section<L: Law>(
    law: &L,
    section: &mut Section,
    window: usize,
    region: u64,
    fold: &mut Fold,
)
    requires some { 1 ≤ window }
    requires few_steps { window ≤ WIDEST_WINDOW }
    requires few { region ≤ 100_000_001 }
    requires long { window + 1 ≤ count_of section.old.stretch }
    requires at { IsSectionAfter (L.meaning law.now) window section.old region }
    requires fed { 1 ≤ region → IsFed section.old }
    requires noted { NotesInside section.old.stretch fold.old }
    ensures unfed { IsUnfed section.new }
    ensures at { IsSectionAt (L.meaning law.now) window (region * window) section.new }
    ensures same { AreSamePlaces section.old.stretch section.new.stretch }
    ensures same_fold { IsSameFold fold.old fold.new }
    ensures stands { (marks : Marks) → Stands fold.old (marked (L.meaning law.now) marks) →
        Stands fold.new (marked (L.meaning law.now) (or_marked marks
        (section_marks window section.old.stretch region))) }
{
    if region == 0 {
        section.compute_first(law, fold);
    } else {
        section.compute_next(law, window, steps_in(window, region - 1), fold);
    }
}
