//! The probes among the places of a fold, with the samples that are kept of them.
ghost use Rattle.std.specs.Prelude.{◌≡◌, ◌≢◌, ℕ, ◌+◌, ◌*◌, ◌/◌, ◌<◌, ◌≤◌, [], length, slice_index};
ghost use Rattle.std.specs.Prelude.{slice_index_or, Option, Some, None, IfOk, ◌^◌};
ghost use Rattle.case_model.specs.Runs.{calm_at};
ghost use Rattle.case_model.specs.Samples.{Sample as Taken, point_sample};
ghost use Rattle.envelope.specs.Cells.{IsRising, bases_of, cell_of};
ghost use Rattle.envelope.specs.Extremes.{AgreeAlong, either};
ghost use Rattle.envelope.specs.Lines.{AreBlank, AreSameWidths, AreWithin, HasRoom, HasSamples};
ghost use Rattle.envelope.specs.Lines.{IsMarked, entry_of, told};
ghost use Rattle.envelope.specs.Probes.{lines_of, marks_of, places_of};

use crate::Sample;
use crate::cells::find_cell;
use crate::lines::{blank_lines, join_line, keep_sample, mark, sample_in};
use case_model::{List, Spot};
use std::alloc::{AllocError, Global};

/// The place number of each probe, which line of samples belongs to each cell, and these lines.
#[derive(Drop, Debug)]
pub(crate) struct Probes {
    pub(crate) places: Vec<u64>,
    pub(crate) marks: Vec<Option<u32>>,
    pub(crate) lines: Vec<List<Option<Sample>>>,
}

/// The probes at these places of the spans, with a blank line of `width` samples for each; none
/// where there is no probe.
pub(crate) fn make_probes(
    alloc: Global,
    spans: &[(u64, u64)],
    count: usize,
    places: &[u64],
    steps: u64,
    every: u64,
) -> Result<Option<Box<Probes>>, AllocError>
    requires rising { IsRising spans.now }
    requires count { count ≡ slice_index (bases_of spans.now) (length spans.now) }
    requires within { AreWithin spans.now places.now }
    requires some { 1 ≤ every }
    requires few { length places.now * (steps / every + 1) ≤ 4_000_000 }
    ensures places { IfOk result (λ probes. places_of probes ≡ places.now) }
    ensures own { IfOk result (λ probes. IsMarked spans.now (bases_of spans.now) places.now
        (length places.now) (marks_of probes)) }
    ensures blank { IfOk result (λ probes.
        AreBlank (length places.now) (steps / every + 1) (lines_of probes)) }
{
    if places.is_empty() {
        return Ok(None);
    }
    let probes = Probes {
        places: Vec::from_slice(alloc, places)?,
        marks: mark(alloc, spans, count, places)?,
        lines: blank_lines(alloc, places.len(), steps, every)?,
    };
    Ok(Some(Box::new(alloc, probes)?))
}

impl Probes {
    // The line of samples of a cell, where it has one.
    fn line(&self, cell: usize) -> Option<u32>
        ensures { result ≡ slice_index_or self.now.marks.items cell None }
    {
        match self.marks.get(cell) {
            Some(line) => *line,
            None => None,
        }
    }
}

/// Keeps a sample in the line of a cell, where it has one, if the step is one that is sampled.
pub(crate) fn keep_probed(
    probes: &mut Option<Box<Probes>>,
    cell: usize,
    step: u64,
    every: u64,
    sample: &Sample,
)
    requires some { 1 ≤ every }
    requires room { HasRoom (marks_of probes.old) (lines_of probes.old) cell (step / every) }
    ensures places { places_of probes.new ≡ places_of probes.old }
    ensures marks { marks_of probes.new ≡ marks_of probes.old }
    ensures here { (line last : ℕ) (f g : ℕ → Option Taken) → AgreeAlong f g →
        slice_index_or (marks_of probes.old) cell None ≡ Some line →
        g step ≡ told (Some sample.now) → ((s : ℕ) → s ≢ step → g s ≡ None) →
        HasSamples f last every (slice_index_or (lines_of probes.old) line []) →
        HasSamples (either f g) last every (slice_index_or (lines_of probes.new) line []) }
    ensures others { (l : ℕ) → slice_index_or (marks_of probes.old) cell None ≢ Some l →
        slice_index_or (lines_of probes.new) l [] ≡ slice_index_or (lines_of probes.old) l [] }
    ensures same { AreSameWidths (lines_of probes.old) (lines_of probes.new) }
{
    if let Some(probes) = probes {
        if let Some(line) = probes.line(cell) {
            keep_sample(&mut probes.lines, line, step, every, sample);
        }
    }
}

/// Keeps points without a cavity, taken at one step, in the lines of the cells from `first` on.
#[inline(never)]
pub(crate) fn keep_spots(
    probes: &mut Option<Box<Probes>>,
    first: usize,
    step: u64,
    every: u64,
    spots: &[Spot],
)
    requires some { 1 ≤ every }
    requires own { (c d line : ℕ) → slice_index_or (marks_of probes.old) c None ≡ Some line →
        slice_index_or (marks_of probes.old) d None ≡ Some line → c ≡ d }
    requires room { (cell : ℕ) →
        HasRoom (marks_of probes.old) (lines_of probes.old) cell (step / every) }
    requires fits { first + length spots.now < 2 ^ 64 }
    ensures places { places_of probes.new ≡ places_of probes.old }
    ensures marks { marks_of probes.new ≡ marks_of probes.old }
    ensures here { (i line last : ℕ) (f g : ℕ → Option Taken) → i < length spots.now →
        AgreeAlong f g → slice_index_or (marks_of probes.old) (first + i) None ≡ Some line →
        g step ≡ point_sample (calm_at spots.now i) → ((s : ℕ) → s ≢ step → g s ≡ None) →
        HasSamples f last every (slice_index_or (lines_of probes.old) line []) →
        HasSamples (either f g) last every (slice_index_or (lines_of probes.new) line []) }
    ensures others { (l : ℕ) → ((i : ℕ) → i < length spots.now →
        slice_index_or (marks_of probes.old) (first + i) None ≢ Some l) →
        slice_index_or (lines_of probes.new) l [] ≡ slice_index_or (lines_of probes.old) l [] }
    ensures same { AreSameWidths (lines_of probes.old) (lines_of probes.new) }
{
    for (i, spot) in spots.iter().enumerate() {
        keep_probed(probes, first + i, step, every, &Sample::of_spot(spot));
    }
}

/// Takes over the samples of a cell of other probes that the line of a cell here lacks.
pub(crate) fn join_probed(
    probes: &mut Option<Box<Probes>>,
    cell: usize,
    other: &Option<Box<Probes>>,
    from: usize,
)
    requires there { (line : ℕ) → slice_index_or (marks_of probes.old) cell None ≡ Some line →
        line < length (lines_of probes.old) }
    requires wide { (line more : ℕ) → slice_index_or (marks_of probes.old) cell None ≡ Some line →
        slice_index_or (marks_of other.now) from None ≡ Some more →
        (more < length (lines_of other.now))
        × (length (slice_index_or (lines_of other.now) more [])
        ≡ length (slice_index_or (lines_of probes.old) line [])) }
    ensures places { places_of probes.new ≡ places_of probes.old }
    ensures marks { marks_of probes.new ≡ marks_of probes.old }
    ensures here { (line more last every : ℕ) (f g : ℕ → Option Taken) →
        slice_index_or (marks_of probes.old) cell None ≡ Some line →
        slice_index_or (marks_of other.now) from None ≡ Some more →
        HasSamples f last every (slice_index_or (lines_of probes.old) line []) →
        HasSamples g last every (slice_index_or (lines_of other.now) more []) →
        HasSamples (either f g) last every (slice_index_or (lines_of probes.new) line []) }
    ensures others { (l : ℕ) → slice_index_or (marks_of probes.old) cell None ≢ Some l →
        slice_index_or (lines_of probes.new) l [] ≡ slice_index_or (lines_of probes.old) l [] }
    ensures same { AreSameWidths (lines_of probes.old) (lines_of probes.new) }
{
    if let Some(probes) = probes {
        if let Some(line) = probes.line(cell) {
            if let Some(other) = other {
                if let Some(more) = other.line(from) {
                    join_line(
                        &mut probes.lines,
                        line,
                        other.lines[more as usize].as_slice(),
                    );
                }
            }
        }
    }
}

/// The sample of a probe at one place of its line.
pub(crate) fn probed_sample(
    probes: &Option<Box<Probes>>,
    spans: &[(u64, u64)],
    probe: u32,
    index: usize,
) -> Option<Sample>
    requires rising { IsRising spans.now }
    requires within { AreWithin spans.now (places_of probes.now) }
    requires there { probe < length (places_of probes.now) }
    requires room { (cell : ℕ) → HasRoom (marks_of probes.now) (lines_of probes.now) cell index }
    ensures { result ≡ entry_of (lines_of probes.now) (slice_index_or (marks_of probes.now)
        (cell_of spans.now (bases_of spans.now) (slice_index (places_of probes.now) probe)) None)
        index }
{
    match probes {
        Some(probes) => {
            let cell = find_cell(spans, probes.places[probe as usize]);
            match probes.line(cell) {
                Some(line) => sample_in(probes.lines[line as usize].as_slice(), index),
                None => None,
            }
        }
        None => None,
    }
}
