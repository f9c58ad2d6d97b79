//! How far one strand is computed.
ghost use Rattle.std.specs.Prelude.{◌≡◌, ◌+◌, ◌-◌, ◌*◌, ◌≤◌};
ghost use Rattle.case_model.specs.declared.meshes.TheConstants.{MOST_ENDS};
ghost use Rattle.regions.specs.declared.shapes.TheConstants.{WIDEST_WINDOW};

use crate::bodies::Body;
use crate::lawful::layouts_are_lawful;
use crate::lent::Lent;
use crate::ranges::keeps_range;
use crate::words::{Words, encode_lent};
use case_model::Law;
use envelope::{Fold, stands_for_equal_maps};
use strands::Block;

/// How far one strand is computed: the points that it keeps, and the fold that was told all that
/// its regions own. The counts are as small as they can be: there are hundreds of thousands of
/// strands.
#[derive(Drop)]
pub(crate) struct Frontier {
    pub(crate) number: u32,
    pub(crate) windows: u32,
    pub(crate) computed: u32,
    pub(crate) window: u16,
    pub(crate) sides: u8,
    pub(crate) body: Body,
    pub(crate) fold: Fold,
    ghost some_steps: { 1 ≤ window },
    ghost few_steps: { window ≤ WIDEST_WINDOW },
    ghost few_windows: { windows ≤ 100_000_000 },
    ghost few_sides: { sides ≤ MOST_ENDS },
    ghost few_computed: { computed ≤ windows + 1 },
}

impl Frontier {
    ghost use Rattle.std.specs.Prelude.{ℕ, ◌<◌, ◌||◌, ◌==◌, length};
    ghost use Rattle.case_model.specs.Meaning.{Meaning};
    ghost use Rattle.regionrun.specs.Bodies.{FitsWindow, IsBareBody, IsComputed, side_count};
    ghost use Rattle.regionrun.specs.Bodies.{HasOutgoing};
    ghost use Rattle.regionrun.specs.Handed.{IsBlock};
    ghost use Rattle.regionrun.specs.Lent.{lent_size, lent_tells};
    ghost use Rattle.regionrun.specs.Right.{IsBare, IsGiven, IsGivenSome, IsReadySome, IsRight};
    ghost use Rattle.regionrun.specs.Right.{IsRightAt, IsSameStrand, IsWanted, IsWantedSome};
    ghost use Rattle.regionrun.specs.Right.{has_loaded, region_count};
    ghost use Rattle.regions.specs.declared.shapes.Layout.{Layout as LayoutSeen};

    /// Whether all regions are computed.
    pub(crate) fn finished(&self) -> bool
        ensures { (law : Meaning) (layout : LayoutSeen) → IsRight law layout self.now →
            result ≡ (self.now.computed == region_count layout self.now.number) }
    {
        if self.body.is_section() {
            self.computed == self.windows + 1
        } else {
            self.computed == self.windows
        }
    }

    /// Takes in the block that the next region needs of a side. Who calls it tells the window:
    /// where that is a constant, no test of it is left.
    #[inline(always)]
    pub(crate) fn load<L: Law, B: Block>(&mut self, law: &L, window: usize, side: usize, block: &B)
        requires window { window ≡ self.old.window }
        requires given { IsGivenSome (L.meaning law.now) self.old side (B.tells block.now) }
        requires each { B.size block.now ≡ self.old.window }
        ensures right { (layout : LayoutSeen) →
            IsGiven (L.meaning law.now) layout self.old side (B.tells block.now) →
            IsRight (L.meaning law.now) layout self.new }
        ensures loaded { (c : ℕ) → c < self.old.sides →
            has_loaded self.new c ≡ (has_loaded self.old c || (c == side)) }
        ensures same { IsSameStrand self.old self.new × (self.new.computed ≡ self.old.computed) }
    {
        let _ = law;
        layouts_are_lawful();
        self.body.load(side, window, self.computed as u64, block);
    }

    /// The same of a block that a strand lends: its kind is asked once.
    #[inline(always)]
    pub(crate) fn load_lent<L: Law>(&mut self, law: &L, window: usize, side: usize, block: &Lent)
        requires window { window ≡ self.old.window }
        requires given { IsGivenSome (L.meaning law.now) self.old side (lent_tells block.now) }
        requires each { lent_size block.now ≡ self.old.window }
        ensures right { (layout : LayoutSeen) →
            IsGiven (L.meaning law.now) layout self.old side (lent_tells block.now) →
            IsRight (L.meaning law.now) layout self.new }
        ensures loaded { (c : ℕ) → c < self.old.sides →
            has_loaded self.new c ≡ (has_loaded self.old c || (c == side)) }
        ensures same { IsSameStrand self.old self.new × (self.new.computed ≡ self.old.computed) }
    {
        match block {
            Lent::BySection(block) => self.load(law, window, side, block),
            Lent::ByStation(block) => self.load(law, window, side, block),
        }
    }

    /// Takes in the words of the block that the next region needs of a side.
    pub(crate) fn load_words<L: Law>(&mut self, law: &L, side: usize, words: &[u64])
        requires wanted { IsWantedSome (L.meaning law.now) self.old side words.now }
        ensures right { (layout : LayoutSeen) →
            IsWanted (L.meaning law.now) layout self.old side words.now →
            IsRight (L.meaning law.now) layout self.new }
        ensures loaded { (c : ℕ) → c < self.old.sides →
            has_loaded self.new c ≡ (has_loaded self.old c || (c == side)) }
        ensures same { IsSameStrand self.old self.new × (self.new.computed ≡ self.old.computed) }
    {
        keeps_range(law);
        self.load(law, self.window as usize, side, &Words { words });
    }

    /// Computes the next region.
    #[inline(always)]
    pub(crate) fn compute<L: Law>(&mut self, law: &L)
        requires ready { IsReadySome (L.meaning law.now) self.old }
        ensures right { (layout : LayoutSeen) → IsRight (L.meaning law.now) layout self.old →
            IsRight (L.meaning law.now) layout self.new }
        ensures computed { IsComputed (L.meaning law.now) self.new.window self.old.computed
            self.new.body }
        ensures fits { FitsWindow self.new.window self.new.body }
        ensures sides { self.new.sides ≡ side_count self.new.body }
        ensures more { self.new.computed ≡ self.old.computed + 1 }
        ensures bare { IsBare self.new }
        ensures same { IsSameStrand self.old self.new }
    {
        self.advance(law);
        self.computed += 1;
    }

    /// The block of the region that was computed last, for a side, read where its points stand. Who
    /// calls it tells the window and the region, as for `load`.
    #[inline(always)]
    pub(crate) fn block(&self, window: usize, region: u64, side: usize) -> Lent
        requires window { window ≡ self.now.window }
        requires region { region + 1 ≡ self.now.computed }
        requires side { side < side_count self.now.body }
        requires fits { FitsWindow window self.now.body }
        ensures points { (law : Meaning) → IsComputed law window region self.now.body →
            HasOutgoing law window region side self.now.body (lent_tells result) }
        ensures size { lent_size result ≡ window }
    {
        self.body.block(side, window, region)
    }

    /// Computes the next region, and writes the words of its block where it has one.
    pub(crate) fn compute_words<L: Law>(&mut self, law: &L, out: &mut [u64])
        requires ready { IsReadySome (L.meaning law.now) self.old }
        requires room { length out.old ≡ 4 * self.old.window * self.old.sides }
        ensures right { (layout : LayoutSeen) → IsRight (L.meaning law.now) layout self.old →
            IsRight (L.meaning law.now) layout self.new }
        ensures block { (layout : LayoutSeen) → IsRight (L.meaning law.now) layout self.old →
            self.old.computed < self.old.windows →
            IsBlock (L.meaning law.now) layout self.old.number self.old.computed out.new }
        ensures past { self.old.windows ≤ self.old.computed → out.new ≡ out.old }
        ensures more { self.new.computed ≡ self.old.computed + 1 }
        ensures bare { IsBare self.new }
        ensures same { IsSameStrand self.old self.new }
    {
        self.compute(law);
        if self.computed <= self.windows {
            self.write_words(out);
        }
    }

    // Writes the words of the block of the region that was computed last, for all sides one after
    // another.
    fn write_words(&self, out: &mut [u64])
        requires some { 1 ≤ self.now.computed }
        requires sides { self.now.sides ≡ side_count self.now.body }
        requires fits { FitsWindow self.now.window self.now.body }
        requires room { length out.old ≡ 4 * self.now.window * self.now.sides }
        ensures block { (law : Meaning) (layout : LayoutSeen) → IsRight law layout self.now →
            IsComputed law self.now.window (self.now.computed - 1) self.now.body →
            IsBlock law layout self.now.number (self.now.computed - 1) out.new }
    {
        layouts_are_lawful();
        let window = self.window as usize;
        let region = self.computed as u64 - 1;
        let width = 4 * window;
        for side in 0..self.sides as usize {
            let part = &mut out[width * side..width * side + width];
            encode_lent(&self.block(window, region, side), part);
        }
    }

    // Computes the next region, and notes it.
    #[inline(always)]
    fn advance<L: Law>(&mut self, law: &L)
        requires ready { IsReadySome (L.meaning law.now) self.old }
        ensures right { (layout : LayoutSeen) → IsRight (L.meaning law.now) layout self.old →
            IsRightAt (L.meaning law.now) layout (self.old.computed + 1) self.new }
        ensures computed { IsComputed (L.meaning law.now) self.new.window self.new.computed
            self.new.body }
        ensures fits { FitsWindow self.new.window self.new.body }
        ensures sides { self.new.sides ≡ side_count self.new.body }
        ensures bare { IsBareBody self.new.body }
        ensures few { self.new.computed ≤ self.new.windows }
        ensures same { IsSameStrand self.old self.new × (self.new.computed ≡ self.old.computed) }
    {
        layouts_are_lawful();
        stands_for_equal_maps();
        self.body.advance(
            law,
            self.window as usize,
            self.computed as u64,
            &mut self.fold,
        );
    }
}
