//! A strand: how far it is computed, and what it holds of the gate.
ghost use Rattle.std.specs.Prelude.{◌≡◌, ℕ, ◌+◌, ◌*◌, ◌<◌, ◌≤◌, ◌||◌, ◌==◌, ◌^◌, length};
ghost use Rattle.case_model.specs.Meaning.{Meaning};
ghost use Rattle.regionrun.specs.Engine.{IsStrandAt};
ghost use Rattle.regionrun.specs.Handed.{IsBlock};
ghost use Rattle.regionrun.specs.Right.{IsBare, IsReadySome, IsRight, IsSameStrand, IsWanted};
ghost use Rattle.regionrun.specs.Right.{IsWantedSome, has_loaded, region_count};
ghost use Rattle.regions.specs.declared.shapes.Layout.{Layout};

use crate::frontiers::Frontier;
use crate::probed::probed_places;
use crate::surveys::Survey;
use crate::{EntryStub, Gate};
use case_model::Law;
use std::alloc::{AllocError, Global};

/// A strand of a layout: the points that it keeps, its fold, and its stub of the gate.
#[derive(Drop)]
pub struct Strand<S> {
    pub(crate) frontier: Frontier,
    pub(crate) stub: Option<S>,
}

impl<S: EntryStub> Strand<S> {
    ghost use Rattle.std.specs.Prelude.{IfOk};
    ghost use Rattle.regionrun.specs.Made.{IsNewStrand};
    ghost use Rattle.regionrun.specs.Stubs.{HasStub};
    ghost use Rattle.regionrun.specs.Surveys.{AreProbed, IsSurvey};

    /// A strand of a survey of which nothing is computed, with a stub that has entered nothing. The
    /// error is want of memory.
    pub fn make<L: Law>(
        alloc: Global,
        law: &L,
        survey: &Survey,
        number: u32,
        stub: S,
    ) -> Result<Strand<S>, AllocError>
        requires survey { IsSurvey survey.now.case.now survey.now.mesh.now survey.now.layout.now
            survey.now.probes.now }
        requires mesh { survey.now.mesh.now ≡ (L.meaning law.now).mesh }
        requires there { number < length survey.now.layout.now.shapes }
        requires strand { S.strand_of stub ≡ number }
        requires none { S.entered_of stub ≡ 0 }
        ensures { IfOk result (IsNewStrand S.strand_of S.entered_of survey.now.case.now
            (L.meaning law.now) survey.now.layout.now survey.now.probes.now number) }
    {
        let probed = probed_places(alloc, survey.mesh.places, survey.probes)?;
        Strand::begin(alloc, law, survey, number, stub, &probed)
    }

    // As `make`, where the places that have a probe are marked.
    pub(crate) fn begin<L: Law>(
        alloc: Global,
        law: &L,
        survey: &Survey,
        number: u32,
        stub: S,
        probed: &[bool],
    ) -> Result<Strand<S>, AllocError>
        requires survey { IsSurvey survey.now.case.now survey.now.mesh.now survey.now.layout.now
            survey.now.probes.now }
        requires mesh { survey.now.mesh.now ≡ (L.meaning law.now).mesh }
        requires there { number < length survey.now.layout.now.shapes }
        requires strand { S.strand_of stub ≡ number }
        requires none { S.entered_of stub ≡ 0 }
        requires probed { AreProbed survey.now.probes.now probed.now }
        ensures { IfOk result (IsNewStrand S.strand_of S.entered_of survey.now.case.now
            (L.meaning law.now) survey.now.layout.now survey.now.probes.now number) }
    {
        let frontier = Frontier::make(alloc, law, survey, number, probed)?;
        Ok(Strand {
            frontier,
            stub: Some(stub),
        })
    }

    /// The strand's number.
    pub fn number(&self) -> u32
        ensures { result ≡ self.now.frontier.number }
    {
        self.frontier.number
    }

    /// How many of its regions are computed.
    pub fn computed(&self) -> u64
        ensures { result ≡ self.now.frontier.computed }
    {
        self.frontier.computed as u64
    }

    /// Whether all its regions are computed.
    pub fn finished(&self) -> bool
        ensures { (law : Meaning) (layout : Layout) → IsRight law layout self.now.frontier →
            result ≡ (self.now.frontier.computed
            == region_count layout self.now.frontier.number) }
    {
        self.frontier.finished()
    }

    /// Enters the next region.
    pub fn enter<G: Gate<Stub = S>>(&mut self, gate: &G)
        requires room { self.old.frontier.computed < 2 ^ 62 }
        requires stub { HasStub S.strand_of S.entered_of self.old.frontier.number
            self.old.frontier.computed self.old.stub }
        ensures stub { HasStub S.strand_of S.entered_of self.old.frontier.number
            (self.old.frontier.computed + 1) self.new.stub }
        ensures same { self.new.frontier ≡ self.old.frontier }
    {
        self.stub = match self.stub.take() {
            Some(stub) => Some(gate.enter(stub)),
            None => None,
        };
    }

    /// Takes in the block that the entered region needs of a side.
    pub fn load<L: Law>(&mut self, law: &L, side: u32, words: &[u64])
        requires wanted { IsWantedSome (L.meaning law.now) self.old.frontier side words.now }
        ensures right { (layout : Layout) →
            IsWanted (L.meaning law.now) layout self.old.frontier side words.now →
            IsRight (L.meaning law.now) layout self.new.frontier }
        ensures loaded { (c : ℕ) → c < self.old.frontier.sides →
            has_loaded self.new.frontier c ≡ (has_loaded self.old.frontier c || (c == side)) }
        ensures same { IsSameStrand self.old.frontier self.new.frontier
            × (self.new.frontier.computed ≡ self.old.frontier.computed) }
        ensures stub { self.new.stub ≡ self.old.stub }
    {
        self.frontier.load_words(law, side as usize, words);
    }

    /// Computes the entered region, of which all needed blocks are loaded: notes its points, and
    /// writes its block into `out` where it has one, the parts for the sides one after another.
    pub fn compute<L: Law>(&mut self, law: &L, out: &mut [u64])
        requires ready { IsReadySome (L.meaning law.now) self.old.frontier }
        requires room { length out.old ≡ 4 * self.old.frontier.window * self.old.frontier.sides }
        ensures right { (layout : Layout) →
            IsRight (L.meaning law.now) layout self.old.frontier →
            IsRight (L.meaning law.now) layout self.new.frontier }
        ensures block { (layout : Layout) →
            IsRight (L.meaning law.now) layout self.old.frontier →
            self.old.frontier.computed < self.old.frontier.windows →
            IsBlock (L.meaning law.now) layout self.old.frontier.number
            self.old.frontier.computed out.new }
        ensures past { self.old.frontier.windows ≤ self.old.frontier.computed → out.new ≡ out.old }
        ensures more { self.new.frontier.computed ≡ self.old.frontier.computed + 1 }
        ensures bare { IsBare self.new.frontier }
        ensures same { IsSameStrand self.old.frontier self.new.frontier }
        ensures stub { self.new.stub ≡ self.old.stub }
    {
        self.frontier.compute_words(law, out);
    }
}
