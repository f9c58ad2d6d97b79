//! The samples of probes, a line of them for each.
ghost use Rattle.std.specs.Prelude.{◌≡◌, ◌≢◌, ℕ, ◌+◌, ◌*◌, ◌/◌, ◌<◌, ◌≤◌, List as Items, []};
ghost use Rattle.std.specs.Prelude.{length, replicate, slice_index, slice_index_or, slice_set};
ghost use Rattle.std.specs.Prelude.{Option, Some, None, IfOk};
ghost use Rattle.case_model.specs.Samples.{Sample as Taken};
ghost use Rattle.envelope.specs.Cells.{IsRising, bases_of};
ghost use Rattle.std.specs.Option.{option_or};
ghost use Rattle.envelope.specs.Extremes.{AgreeAlong, either};
ghost use Rattle.envelope.specs.Lines.{told, HasSamples, IsMarked, AreWithin, AreLines, AreBlank};

use crate::Sample;
use crate::cells::find_cell;
use case_model::List;
use std::alloc::{AllocError, Global};

/// For each of `count` cells which line of samples belongs to it: that of a probe at its place.
pub(crate) fn mark(
    alloc: Global,
    spans: &[(u64, u64)],
    count: usize,
    probes: &[u64],
) -> Result<Vec<Option<u32>>, AllocError>
    requires rising { IsRising spans.now }
    requires count { count ≡ slice_index (bases_of spans.now) (length spans.now) }
    requires within { AreWithin spans.now probes.now }
    requires few { length probes.now ≤ 4_000_000 }
    ensures { IfOk result (λ marks.
        IsMarked spans.now (bases_of spans.now) probes.now (length probes.now) marks.items) }
{
    let mut marks = vec![in alloc; None; count]?;
    for (probe, place) in probes.iter().enumerate() {
        let cell = find_cell(spans, *place);
        marks[cell] = Some(probe as u32);
    }
    Ok(marks)
}

/// A line without samples for each of `count` probes, one for each of the steps 0, every, 2*every
/// .. up to the last.
pub(crate) fn blank_lines(
    alloc: Global,
    count: usize,
    steps: u64,
    every: u64,
) -> Result<Vec<List<Option<Sample>>>, AllocError>
    requires some { 1 ≤ every }
    requires few { count * (steps / every + 1) ≤ 4_000_000 }
    ensures { IfOk result (λ samples. AreBlank count (steps / every + 1) samples.items) }
{
    let mut samples = Vec::new(alloc);
    for _ in 0..count {
        let line = blank_line(alloc, (steps / every) as usize + 1)?;
        samples.push(line)?;
    }
    Ok(samples)
}

fn blank_line(alloc: Global, width: usize) -> Result<List<Option<Sample>>, AllocError>
    ensures { IfOk result (λ line. line ≡ replicate width None) }
{
    let line = vec![in alloc; None; width]?;
    Ok(List::over(line))
}

/// Keeps a sample in its line where the step is one that is sampled.
pub(crate) fn keep_sample(
    samples: &mut Vec<List<Option<Sample>>>,
    line: u32,
    step: u64,
    every: u64,
    sample: &Sample,
)
    requires some { 1 ≤ every }
    requires line { line < length samples.old.items }
    requires inside { step / every < length (slice_index_or samples.old.items line []) }
    ensures here { (f g : ℕ → Option Taken) (last : ℕ) → AgreeAlong f g →
        g step ≡ told (Some sample.now) → ((s : ℕ) → s ≢ step → g s ≡ None) →
        HasSamples f last every (slice_index_or samples.old.items line []) →
        HasSamples (either f g) last every (slice_index_or samples.new.items line []) }
    ensures others { (l : ℕ) → l ≢ line →
        slice_index_or samples.new.items l [] ≡ slice_index_or samples.old.items l [] }
    ensures count { length samples.new.items ≡ length samples.old.items }
    ensures widths { (l : ℕ) →
        length (slice_index_or samples.new.items l [])
        ≡ length (slice_index_or samples.old.items l []) }
{
    if step % every == 0 {
        put(&mut samples[line as usize], (step / every) as usize, sample);
    }
}

fn put(line: &mut List<Option<Sample>>, index: usize, sample: &Sample)
    requires { index < length line.old }
    ensures { line.new ≡ slice_set line.old index (Some sample.now) }
{
    let line = line.as_mut_slice();
    line[index] = Some(*sample);
}

/// The sample at one place of a line.
pub(crate) fn sample_in(line: &[Option<Sample>], index: usize) -> Option<Sample>
    requires { index < length line.now }
    ensures { result ≡ slice_index_or line.now index None }
{
    line[index]
}

/// Takes over the samples of another line that this line lacks.
pub(crate) fn join_line(
    samples: &mut Vec<List<Option<Sample>>>,
    line: u32,
    other: &[Option<Sample>],
)
    requires line { line < length samples.old.items }
    requires same { length other.now ≡ length (slice_index_or samples.old.items line []) }
    ensures here { (f g : ℕ → Option Taken) (last every : ℕ) →
        HasSamples f last every (slice_index_or samples.old.items line []) →
        HasSamples g last every other.now →
        HasSamples (either f g) last every (slice_index_or samples.new.items line []) }
    ensures others { (l : ℕ) → l ≢ line →
        slice_index_or samples.new.items l [] ≡ slice_index_or samples.old.items l [] }
    ensures count { length samples.new.items ≡ length samples.old.items }
    ensures widths { (l : ℕ) →
        length (slice_index_or samples.new.items l [])
        ≡ length (slice_index_or samples.old.items l []) }
{
    fill_gaps(samples[line as usize].as_mut_slice(), other);
}

fn fill_gaps(line: &mut [Option<Sample>], other: &[Option<Sample>])
    requires { length other.now ≡ length line.old }
    ensures { (j : ℕ) → j < length line.old →
        told (slice_index_or line.new j None)
        ≡ option_or (told (slice_index_or line.old j None))
        (told (slice_index_or other.now j None)) }
{
    for (index, sample) in other.iter().enumerate() {
        if line[index].is_none() {
            line[index] = *sample;
        }
    }
}
