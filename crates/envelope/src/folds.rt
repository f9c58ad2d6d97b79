//! A fold: what is kept of the places of some spans.
ghost use Rattle.std.specs.Prelude.{◌≡◌, ℕ, ◌+◌, ◌/◌, ◌≤◌, length, slice_index, true};
ghost use Rattle.std.specs.Prelude.{◌≤ℤ◌, pos};
ghost use Rattle.envelope.specs.Calm.{ArePlain};
ghost use Rattle.envelope.specs.Cells.{IsRising, bases_of};
ghost use Rattle.envelope.specs.Lines.{AreWithin, IsMarked, AreLines};
ghost use Rattle.envelope.specs.Probes.{lines_of, marks_of, places_of};

use crate::cells::{count_cells, find_cell};
use crate::extremes::{blank_cells, join_cell, join_sample, join_spots};
use crate::faults::earlier;
use crate::probes::{Probes, join_probed, keep_probed, keep_spots, make_probes, probed_sample};
use crate::{Extreme, Sample};
use case_model::{NodeState, Point, Spot};
use std::alloc::{AllocError, Global};

/// Of the places of some spans, over what was noted of them: the envelope of each, the samples of
/// probes, and the first fault. All memory is taken by `make`.
#[derive(Drop, Debug)]
pub struct Fold {
    spans: Vec<(u64, u64)>,
    probes: Option<Box<Probes>>,
    steps: u64,
    every: u64,
    cells: Vec<Extreme>,
    fault: Option<(u64, u64)>,
    // While `plain`, no extreme stands first at a later step, and no volume below 0 was noted.
    latest: u64,
    plain: bool,
    ghost rising: { IsRising spans.items },
    ghost probed: { AreWithin spans.items (places_of probes) },
    ghost sampled: { 1 ≤ every },
    ghost filled: { length cells.items ≡ slice_index (bases_of spans.items) (length spans.items) },
    ghost marked: { IsMarked spans.items (bases_of spans.items) (places_of probes)
        (length (places_of probes)) (marks_of probes) },
    ghost early: { plain ≡ true → ArePlain latest cells.items },
    ghost lined: { AreLines (length (places_of probes)) (steps / every + 1) (lines_of probes) },
}

impl Fold {
    ghost use Rattle.std.specs.Prelude.{◌≢◌, ◌*◌, ◌<◌, false, Option, Some, None, IfOk, map};
    ghost use Rattle.std.specs.List.{filter};
    ghost use Rattle.case_model.specs.Runs.{calm_point};
    ghost use Rattle.case_model.specs.Samples.{Sample as Taken};
    ghost use Rattle.envelope.specs.Cells.{is_within, first_of_span, end_of_span, AreInOneSpan};
    ghost use Rattle.envelope.specs.Extremes.{IsEnvelopeOf};
    ghost use Rattle.envelope.specs.Faults.{HasFault};
    ghost use Rattle.envelope.specs.Changes.{IsKeptAt, IsSameLayout, AreJoined};
    ghost use Rattle.envelope.specs.Changes.{IsMergeable};
    ghost use Rattle.envelope.specs.Folds.{spans_of, probes_of, steps_of, every_of, Stands};
    ghost use Rattle.envelope.specs.Folds.{IsFoldOf, IsSameFold};
    ghost use Rattle.envelope.specs.Kept.{extreme_kept, fault_kept, sample_kept};
    ghost use Rattle.envelope.specs.Layout.{IsHeld, cell_in, count_of_cells};
    ghost use Rattle.envelope.specs.Lines.{sample_of, told};
    ghost use Rattle.envelope.specs.Notings.{Noting, Noted, nothing, only, noted, line_noted};
    ghost use Rattle.envelope.specs.Notings.{union, Agree, IsInside, column, sample_over, taken};
    ghost use Rattle.envelope.specs.Notings.{is_bad_noting};
    ghost use Rattle.envelope.specs.Notings.Noting.{OfPoint, OfNode};

    /// A fold of which nothing is noted. A span is a first place and a count; a probe is a place
    /// number. The error is want of memory.
    pub fn make(
        alloc: Global,
        spans: &[(u64, u64)],
        probes: &[u64],
        steps: u64,
        every: u64,
    ) -> Result<Fold, AllocError>
        requires spans { IsRising spans.now }
        requires probes { AreWithin spans.now probes.now }
        requires some { 1 ≤ every }
        requires few { length probes.now * (steps / every + 1) ≤ 4_000_000 }
        ensures given { IfOk result (λ fold. IsFoldOf spans.now probes.now steps every fold) }
        ensures stands { IfOk result (λ fold. Stands fold nothing) }
    {
        let count = count_cells(spans);
        Ok(Fold {
            spans: Vec::from_slice(alloc, spans)?,
            probes: make_probes(alloc, spans, count, probes, steps, every)?,
            steps,
            every,
            cells: blank_cells(alloc, count)?,
            fault: None,
            latest: 0,
            plain: true,
        })
    }

    /// The last step that it keeps anything of.
    pub fn steps(&self) -> u64
        ensures { result ≡ steps_of self.now }
    {
        self.steps
    }

    /// Takes in a point of a place of a pipe. A step past the last changes nothing.
    pub fn note(&mut self, step: u64, place: u64, point: &Point)
        requires { is_within (spans_of self.old) place ≡ true }
        ensures stands { (map : Noted) → Stands self.old map →
            Agree map (only step place (OfPoint point.now)) →
            Stands self.new (noted map step place (OfPoint point.now)) }
        ensures past { steps_of self.old < step → self.new ≡ self.old }
        ensures same { IsSameFold self.old self.new }
    {
        match point {
            Point::Good { h, qu, qd, v } => {
                let sample = Sample {
                    h: *h,
                    qu: *qu,
                    qd: *qd,
                    v: *v,
                };
                self.keep(step, place, &sample);
            }
            Point::Bad => self.fail(step, place),
        }
    }

    /// Takes in the points of places that follow one another, of which `first` is the first. A step
    /// past the last changes nothing.
    pub fn note_line(&mut self, step: u64, first: u64, points: &[Point])
        requires { AreInOneSpan (spans_of self.old) first (length points.now) }
        ensures stands { (map : Noted) → Stands self.old map →
            Agree map (line_noted step first points.now) →
            Stands self.new (union map (line_noted step first points.now)) }
        ensures past { steps_of self.old < step → self.new ≡ self.old }
        ensures same { IsSameFold self.old self.new }
    {
        if step <= self.steps && !points.is_empty() {
            self.note_within(step, first, points);
        }
    }

    /// Takes in points without a cavity, of places that follow one another, of which `first` is the
    /// first. A step past the last changes nothing.
    #[inline(always)]
    pub fn note_calm(&mut self, step: u64, first: u64, spots: &[Spot])
        requires { AreInOneSpan (spans_of self.old) first (length spots.now) }
        ensures stands { (noted : Noted) → Stands self.old noted →
            Agree noted (line_noted step first (map calm_point spots.now)) →
            Stands self.new (union noted (line_noted step first (map calm_point spots.now))) }
        ensures past { steps_of self.old < step → self.new ≡ self.old }
        ensures same { IsSameFold self.old self.new }
    {
        if step <= self.steps && !spots.is_empty() {
            self.note_spots(step, first, spots);
        }
    }

    /// Takes in a node's state. A step past the last changes nothing.
    #[inline(always)]
    pub fn note_node(&mut self, step: u64, place: u64, state: &NodeState)
        requires { is_within (spans_of self.old) place ≡ true }
        ensures stands { (map : Noted) → Stands self.old map →
            Agree map (only step place (OfNode state.now)) →
            Stands self.new (noted map step place (OfNode state.now)) }
        ensures past { steps_of self.old < step → self.new ≡ self.old }
        ensures same { IsSameFold self.old self.new }
    {
        match state {
            NodeState::Good { h, v, g } => {
                let sample = Sample {
                    h: *h,
                    qu: 0,
                    qd: *g,
                    v: *v,
                };
                self.keep(step, place, &sample);
            }
            NodeState::Bad => self.fail(step, place),
        }
    }

    /// Takes in what another fold kept of places that are this fold's too.
    pub fn merge(&mut self, other: &Fold)
        requires spans { (k : ℕ) → is_within (spans_of other.now) k ≡ true →
            is_within (spans_of self.old) k ≡ true }
        requires probes { probes_of other.now
            ≡ filter (is_within (spans_of other.now)) (probes_of self.old) }
        requires steps { steps_of other.now ≡ steps_of self.old }
        requires every { every_of other.now ≡ every_of self.old }
        ensures stands { (map more : Noted) → Stands self.old map → Stands other.now more →
            Agree map more → IsInside (spans_of other.now) more → Stands self.new (union map more) }
        ensures same { IsSameFold self.old self.new }
    {
        for index in 0..other.spans.len() {
            self.merge_span(other, index);
        }
        self.fault = earlier(self.fault, other.fault);
    }

    /// The first fault: the least step, and of it the least place, at which Bad was noted.
    #[tactic(auto, unfolding(crate::specs::Kept::fault_kept))]
    pub fn fault(&self) -> Option<(u64, u64)>
        ensures kept { result ≡ fault_kept self.now }
        ensures first { (map : Noted) → Stands self.now map →
            HasFault (spans_of self.now) (steps_of self.now) map result }
    {
        self.fault
    }

    /// The envelope of a place, where a Good point of it was noted at a step up to the last.
    #[tactic(auto, unfolding(crate::specs::Kept::extreme_kept))]
    pub fn extreme(&self, place: u64) -> Extreme
        requires { is_within (spans_of self.now) place ≡ true }
        ensures kept { result ≡ extreme_kept self.now place }
        ensures envelope { (map : Noted) (step : ℕ) → Stands self.now map →
            step ≤ steps_of self.now → taken (map step place) ≢ None →
            IsEnvelopeOf (column map place) (steps_of self.now) result }
    {
        let cell = find_cell(&self.spans, place);
        self.cells[cell]
    }

    /// The sample of a probe at a step. None where no Good point was noted there, the step is no
    /// multiple of `every`, or it is past the last.
    #[tactic(auto, unfolding(crate::specs::Kept::sample_kept))]
    pub fn sample(&self, probe: u32, step: u64) -> Option<Sample>
        requires { probe < length (probes_of self.now) }
        ensures kept { told result ≡ sample_kept self.now probe step }
        ensures sampled { (map : Noted) → Stands self.now map →
            told result
            ≡ sample_over map (every_of self.now) (steps_of self.now)
            (slice_index (probes_of self.now) probe) step }
    {
        if step > self.steps || step % self.every != 0 {
            return None;
        }
        probed_sample(
            &self.probes,
            &self.spans,
            probe,
            (step / self.every) as usize,
        )
    }

    /// Takes in a line that has a point, at a step up to the last. The cells of a line follow one
    /// another.
    fn note_within(&mut self, step: u64, first: u64, points: &[Point])
        requires step { step ≤ steps_of self.old }
        requires some { 0 < length points.now }
        requires span { AreInOneSpan (spans_of self.old) first (length points.now) }
        ensures stands { (map : Noted) → IsHeld self.old map →
            Agree map (line_noted step first points.now) →
            IsHeld self.new (union map (line_noted step first points.now)) }
        ensures same { IsSameFold self.old self.new }
    {
        let cell = self.cell(first);
        for (i, point) in points.iter().enumerate() {
            self.note_in(cell + i, step, first + i as u64, point);
        }
    }

    /// Takes in points without a cavity, one at least, at a step up to the last. Mostly they change
    /// nothing, so the cells are looked at in a loop of their own.
    #[inline(always)]
    fn note_spots(&mut self, step: u64, first: u64, spots: &[Spot])
        requires step { step ≤ steps_of self.old }
        requires some { 0 < length spots.now }
        requires span { AreInOneSpan (spans_of self.old) first (length spots.now) }
        ensures stands { (noted : Noted) → IsHeld self.old noted →
            Agree noted (line_noted step first (map calm_point spots.now)) →
            IsHeld self.new (union noted (line_noted step first (map calm_point spots.now))) }
        ensures same { IsSameFold self.old self.new }
    {
        let cell = self.cell(first);
        let late = self.is_late(step);
        join_spots(&mut self.cells, late, cell, step, spots);
        self.latest = self.latest.max(step);
        if self.probes.is_some() {
            keep_spots(&mut self.probes, cell, step, self.every, spots);
        }
    }

    /// Takes in a point of the place that a cell belongs to, at a step up to the last.
    fn note_in(&mut self, cell: usize, step: u64, place: u64, point: &Point)
        requires step { step ≤ steps_of self.old }
        requires place { is_within (spans_of self.old) place ≡ true }
        requires cell { cell ≡ cell_in self.old place }
        requires inside { cell < count_of_cells self.old }
        ensures stands { (map : Noted) → IsHeld self.old map →
            Agree map (only step place (OfPoint point.now)) →
            IsHeld self.new (noted map step place (OfPoint point.now)) }
        ensures cells { IsSameFold self.old self.new }
    {
        match point {
            Point::Good { h, qu, qd, v } => {
                let sample = Sample {
                    h: *h,
                    qu: *qu,
                    qd: *qd,
                    v: *v,
                };
                self.keep_within(cell, step, &sample);
            }
            Point::Bad => self.fail(step, place),
        }
    }

    #[inline(always)]
    fn keep(&mut self, step: u64, place: u64, sample: &Sample)
        requires { is_within (spans_of self.old) place ≡ true }
        ensures stands { (map : Noted) (noting : Noting) →
            taken (Some noting) ≡ told (Some sample.now) → is_bad_noting (Some noting) ≡ false →
            IsHeld self.old map → Agree map (only step place noting) →
            IsHeld self.new (noted map step place noting) }
        ensures past { steps_of self.old < step → self.new ≡ self.old }
        ensures same { IsSameFold self.old self.new }
    {
        if step <= self.steps {
            let cell = self.cell(place);
            self.keep_within(cell, step, sample);
        }
    }

    fn cell(&self, place: u64) -> usize
        requires { is_within (spans_of self.now) place ≡ true }
        ensures cell { result ≡ cell_in self.now place }
        ensures inside { result < count_of_cells self.now }
    {
        find_cell(&self.spans, place)
    }

    // Whether it is known that no extreme stands first at a later step.
    fn is_late(&self, step: u64) -> bool
        ensures { result ≡ true → ArePlain step self.now.cells.items }
    {
        self.plain && self.latest <= step
    }

    /// Keeps a sample in a cell, and in the line of samples where the cell has one.
    #[inline(always)]
    fn keep_within(&mut self, cell: usize, step: u64, sample: &Sample)
        requires cell { cell < count_of_cells self.old }
        requires step { step ≤ steps_of self.old }
        ensures kept { (place : ℕ) → is_within (spans_of self.old) place ≡ true →
            cell ≡ cell_in self.old place →
            IsKeptAt self.old self.new step place (sample_of sample.now) }
        ensures layout { IsSameLayout self.old self.new }
    {
        let late = self.is_late(step);
        join_sample(&mut self.cells, cell, late, step, sample);
        self.latest = self.latest.max(step);
        self.plain = is_still_plain(self.plain, sample.v);
        keep_probed(&mut self.probes, cell, step, self.every, sample);
    }

    fn fail(&mut self, step: u64, place: u64)
        requires { is_within (spans_of self.old) place ≡ true }
        ensures stands { (map : Noted) (noting : Noting) → taken (Some noting) ≡ None →
            is_bad_noting (Some noting) ≡ true → IsHeld self.old map →
            Agree map (only step place noting) → IsHeld self.new (noted map step place noting) }
        ensures past { steps_of self.old < step → self.new ≡ self.old }
        ensures cells { IsSameFold self.old self.new }
    {
        let last = self.steps;
        if step <= last {
            self.fault = earlier(self.fault, Some((step, place)));
        }
    }

    /// Takes in the places of one span of another fold.
    fn merge_span(&mut self, other: &Fold, index: usize)
        requires mergeable { IsMergeable self.old other.now }
        requires there { index < length (spans_of other.now) }
        ensures { AreJoined self.old other.now self.new (first_of_span (spans_of other.now) index)
            (end_of_span (spans_of other.now) index) }
    {
        let (first, count) = other.spans[index];
        for place in first..first + count {
            self.merge_place(other, place);
        }
    }

    fn merge_place(&mut self, other: &Fold, place: u64)
        requires mergeable { IsMergeable self.old other.now }
        requires within { is_within (spans_of other.now) place ≡ true }
        ensures { AreJoined self.old other.now self.new place (place + 1) }
    {
        let cell = find_cell(&self.spans, place);
        let from = find_cell(&other.spans, place);
        join_cell(&mut self.cells, cell, &other.cells[from]);
        self.latest = self.latest.max(other.latest);
        self.plain = are_plain(self.plain, other.plain);
        join_probed(&mut self.probes, cell, &other.probes, from);
    }
}

// Whether none of the volumes is below 0 after this one.
fn is_still_plain(plain: bool, v: i64) -> bool
    ensures before { result ≡ true → plain ≡ true }
    ensures here { result ≡ true → pos 0 ≤ℤ v }
{
    plain && 0 <= v
}

fn are_plain(plain: bool, other: bool) -> bool
    ensures here { result ≡ true → plain ≡ true }
    ensures there { result ≡ true → other ≡ true }
{
    plain && other
}
