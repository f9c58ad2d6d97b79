//! The report of a run, line by line through a page, and the line of the peak alone.
ghost use Rattle.std.specs.Prelude.{◌≡◌, ◌≤◌, ◌<◌, ◌*◌, ◌/◌, [], ◌∷◌, length};
ghost use Rattle.surge_io.specs.Writings.{IsAdded, IsWritten};
ghost use Rattle.case_model.specs.Accepted.{IsAccepted};
ghost use Rattle.case_model.specs.PlaceNumbers.{IsOn};
ghost use Rattle.envelope.specs.Folds.{IsFoldOf};
ghost use Rattle.envelope.specs.Kept.{sample_kept};
ghost use Rattle.envelope.specs.RowFolds.{probe_numbers};
ghost use Rattle.report.specs.Parts.{lines_of_pipe, node_lines, part_text, pipe_lines, place_line};
ghost use Rattle.report.specs.Peaks.{highest as highest_of, lowest as lowest_of};
ghost use Rattle.report.specs.Places.{IsOnPipe};
ghost use Rattle.report.specs.Report.{peak_text, probe_line, probe_lines, report_text};
ghost use Rattle.report.specs.Report.{samples_text};
ghost use Rattle.report.specs.Reportable.{IsOver, IsReportable, IsSized, extremes_of};

use crate::lines::{cavity_line, envelope_line, peak_line, sample_line};
use crate::peaks::{Bound, peak_place};
use crate::places::{extreme_of, places_on};
use crate::sizing::sizes;
use case_model::{Case, Mesh, ProbeAt};
use envelope::Fold;
use surge_io::{Failed, Line, Page, Sink, put};

/// Writes the report of a run, from what a fold keeps of it: the samples of probes and watches, the
/// cavities, the envelope of each place, and the peak. `Failed` comes only where the sink's count
/// of faults rose in this call, and then a first part was written.
pub fn write_report<K: Sink>(
    case: &Case,
    mesh: &Mesh,
    fold: &Fold,
    out: &mut K,
) -> Result<(), Failed>
    requires accepted { IsAccepted case.now mesh.now }
    requires given { let probes = probe_numbers mesh.now case.now in
        IsFoldOf ((0, mesh.now.places) ∷ []) probes case.now.steps case.now.every fold.now }
    ensures { IsWritten K.held K.faults result out.old out.new
        (report_text case.now mesh.now (extremes_of mesh.now fold.now) (sample_kept fold.now)) }
{
    let run = Run { case, mesh, fold };
    limits(&run);
    let mut page = Page::new();
    add_report(&run, &mut page, out)?;
    page.flush(out)
}

/// Writes the last line of the report alone, that of the peak. `Failed` comes only where the sink's
/// count of faults rose in this call, and then a first part was written.
pub fn write_peak<K: Sink>(case: &Case, mesh: &Mesh, fold: &Fold, out: &mut K) -> Result<(), Failed>
    requires accepted { IsAccepted case.now mesh.now }
    requires given { let probes = probe_numbers mesh.now case.now in
        IsFoldOf ((0, mesh.now.places) ∷ []) probes case.now.steps case.now.every fold.now }
    ensures { IsWritten K.held K.faults result out.old out.new
        (peak_text case.now mesh.now (extremes_of mesh.now fold.now)) }
{
    let run = Run { case, mesh, fold };
    limits(&run);
    let line = line_of_peak(&run);
    put(out, line.as_bytes())
}

// What a report is written of: an accepted case, its mesh, and a fold over all places of that.
#[derive(Clone, Copy)]
struct Run<'a> {
    case: &'a Case,
    mesh: &'a Mesh,
    fold: &'a Fold,
}

// A fold over all places of an accepted case is what its report is written from.
fn limits(run: &Run)
    requires accepted { IsAccepted run.now.case.now run.now.mesh.now }
    requires given { let probes = probe_numbers run.now.mesh.now run.now.case.now in
        IsFoldOf ((0, run.now.mesh.now.places) ∷ []) probes run.now.case.now.steps
        run.now.case.now.every run.now.fold.now }
    ensures { IsReportable run.now.case.now run.now.mesh.now run.now.fold.now }
{
    sizes(run.case, run.mesh);
}

// The parts of a report that have a line for each place.
#[derive(Clone, Copy)]
pub(crate) enum Part {
    Cavities,
    Envelopes,
}

// Adds the whole report.
fn add_report<K: Sink>(run: &Run, page: &mut Page, out: &mut K) -> Result<(), Failed>
    requires { IsReportable run.now.case.now run.now.mesh.now run.now.fold.now }
    ensures { IsAdded K.held K.faults result out.old page.old out.new page.new
        (report_text run.now.case.now run.now.mesh.now
        (extremes_of run.now.mesh.now run.now.fold.now) (sample_kept run.now.fold.now)) }
{
    add_samples(run, page, out)?;
    add_part(Part::Cavities, run, page, out)?;
    add_part(Part::Envelopes, run, page, out)?;
    add_peak(run, page, out)
}

// Adds the lines of all probes and watches.
#[tactic(auto, unfolding(crate::specs::Report::samples_text))]
fn add_samples<K: Sink>(run: &Run, page: &mut Page, out: &mut K) -> Result<(), Failed>
    requires { IsReportable run.now.case.now run.now.mesh.now run.now.fold.now }
    ensures { IsAdded K.held K.faults result out.old page.old out.new page.new
        (samples_text run.now.case.now (sample_kept run.now.fold.now)) }
{
    for probe in 0..run.case.probes.as_slice().len() {
        add_probe(run, probe as u32, page, out)?;
    }
    Ok(())
}

// Adds the lines of one probe, step by step.
#[tactic(auto, unfolding(crate::specs::Report::probe_lines))]
fn add_probe<K: Sink>(run: &Run, probe: u32, page: &mut Page, out: &mut K) -> Result<(), Failed>
    requires reportable { IsReportable run.now.case.now run.now.mesh.now run.now.fold.now }
    requires there { probe < length run.now.case.now.probes }
    ensures { IsAdded K.held K.faults result out.old page.old out.new page.new
        (probe_lines run.now.case.now (sample_kept run.now.fold.now) probe) }
{
    for j in 0..run.case.steps / run.case.every + 1 {
        let line = probe_line(run, probe, step_of(run.case, j));
        page.add(out, line.as_bytes())?;
    }
    Ok(())
}

// The line of one probe at a step.
fn probe_line(run: &Run, probe: u32, step: u64) -> Line
    requires reportable { IsReportable run.now.case.now run.now.mesh.now run.now.fold.now }
    requires there { probe < length run.now.case.now.probes }
    ensures { result ≡ probe_line run.now.case.now (sample_kept run.now.fold.now) probe step }
{
    let at = run.case.probes.as_slice()[probe as usize].at;
    sample_line(run.case, at, step, run.fold.sample(probe, step))
}

// The step of a sample by its index.
fn step_of(case: &Case, j: u64) -> u64
    requires sampled { j ≤ case.now.steps / case.now.every }
    requires few { case.now.steps ≤ 100_000_000 }
    ensures { result ≡ j * case.now.every }
{
    j * case.every
}

// The line of a place.
fn place_line(part: Part, run: &Run, at: ProbeAt) -> Line
    requires sized { IsSized run.now.case.now run.now.mesh.now }
    requires over { IsOver run.now.mesh.now run.now.fold.now }
    requires on { IsOn run.now.mesh.now at }
    ensures { result
        ≡ place_line part run.now.case.now (extremes_of run.now.mesh.now run.now.fold.now) at }
{
    let extreme = extreme_of(run.mesh, run.fold, at);
    match part {
        Part::Cavities => cavity_line(run.case, at, &extreme),
        Part::Envelopes => envelope_line(run.case, at, &extreme),
    }
}

// Adds the lines of all places.
fn add_part<K: Sink>(part: Part, run: &Run, page: &mut Page, out: &mut K) -> Result<(), Failed>
    requires sized { IsSized run.now.case.now run.now.mesh.now }
    requires over { IsOver run.now.mesh.now run.now.fold.now }
    ensures { IsAdded K.held K.faults result out.old page.old out.new page.new
        (part_text part run.now.case.now run.now.mesh.now
        (extremes_of run.now.mesh.now run.now.fold.now)) }
{
    add_nodes(part, run, page, out)?;
    add_pipes(part, run, page, out)
}

// Adds the lines of all nodes.
fn add_nodes<K: Sink>(part: Part, run: &Run, page: &mut Page, out: &mut K) -> Result<(), Failed>
    requires sized { IsSized run.now.case.now run.now.mesh.now }
    requires over { IsOver run.now.mesh.now run.now.fold.now }
    ensures { IsAdded K.held K.faults result out.old page.old out.new page.new
        (node_lines part run.now.case.now run.now.mesh.now
        (extremes_of run.now.mesh.now run.now.fold.now)) }
{
    for k in 0..run.mesh.ends.as_slice().len() {
        let node = k as u32;
        let line = place_line(part, run, ProbeAt::OnNode { node });
        page.add(out, line.as_bytes())?;
    }
    Ok(())
}

// Adds the lines of the places of all pipes.
fn add_pipes<K: Sink>(part: Part, run: &Run, page: &mut Page, out: &mut K) -> Result<(), Failed>
    requires sized { IsSized run.now.case.now run.now.mesh.now }
    requires over { IsOver run.now.mesh.now run.now.fold.now }
    ensures { IsAdded K.held K.faults result out.old page.old out.new page.new
        (pipe_lines part run.now.case.now run.now.mesh.now
        (extremes_of run.now.mesh.now run.now.fold.now)) }
{
    for p in 0..run.mesh.pipes.as_slice().len() {
        add_pipe(part, run, p as u32, page, out)?;
    }
    Ok(())
}

// Adds the lines of the places of one pipe.
#[tactic(auto, unfolding(crate::specs::Parts::lines_of_pipe))]
fn add_pipe<K: Sink>(
    part: Part,
    run: &Run,
    pipe: u32,
    page: &mut Page,
    out: &mut K,
) -> Result<(), Failed>
    requires sized { IsSized run.now.case.now run.now.mesh.now }
    requires over { IsOver run.now.mesh.now run.now.fold.now }
    requires pipe { pipe < length run.now.mesh.now.pipes }
    ensures { IsAdded K.held K.faults result out.old page.old out.new page.new
        (lines_of_pipe part run.now.case.now run.now.mesh.now
        (extremes_of run.now.mesh.now run.now.fold.now) pipe) }
{
    for i in 0..places_on(run.mesh, pipe) {
        let place = i as u32;
        let line = place_line(part, run, ProbeAt::OnPipe { pipe, place });
        page.add(out, line.as_bytes())?;
    }
    Ok(())
}

// Adds the line of the peak.
fn add_peak<K: Sink>(run: &Run, page: &mut Page, out: &mut K) -> Result<(), Failed>
    requires { IsReportable run.now.case.now run.now.mesh.now run.now.fold.now }
    ensures { IsAdded K.held K.faults result out.old page.old out.new page.new
        (peak_text run.now.case.now run.now.mesh.now
        (extremes_of run.now.mesh.now run.now.fold.now)) }
{
    let line = line_of_peak(run);
    page.add(out, line.as_bytes())
}

// The line of the peak.
#[tactic(auto, unfolding(crate::specs::Report::peak_text))]
fn line_of_peak(run: &Run) -> Line
    requires { IsReportable run.now.case.now run.now.mesh.now run.now.fold.now }
    ensures { result
        ≡ peak_text run.now.case.now run.now.mesh.now
        (extremes_of run.now.mesh.now run.now.fold.now) }
{
    let high = highest(run);
    let low = lowest(run);
    let greatest = extreme_of(run.mesh, run.fold, high);
    let least = extreme_of(run.mesh, run.fold, low);
    peak_line(run.case, high, &greatest, low, &least)
}

// The place of a pipe with the greatest head.
#[tactic(auto, unfolding(crate::specs::Peaks::highest))]
fn highest(run: &Run) -> ProbeAt
    requires { IsReportable run.now.case.now run.now.mesh.now run.now.fold.now }
    ensures place { result
        ≡ highest_of (extremes_of run.now.mesh.now run.now.fold.now) run.now.mesh.now }
    ensures there { IsOnPipe run.now.mesh.now result }
{
    peak_place(Bound::Greatest, run.mesh, run.fold)
}

// The place of a pipe with the least head.
#[tactic(auto, unfolding(crate::specs::Peaks::lowest))]
fn lowest(run: &Run) -> ProbeAt
    requires { IsReportable run.now.case.now run.now.mesh.now run.now.fold.now }
    ensures place { result
        ≡ lowest_of (extremes_of run.now.mesh.now run.now.fold.now) run.now.mesh.now }
    ensures there { IsOnPipe run.now.mesh.now result }
{
    peak_place(Bound::Least, run.mesh, run.fold)
}
