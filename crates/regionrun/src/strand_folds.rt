//! The folds of strands: which places each keeps, and which probes lie there.
ghost use Rattle.std.specs.Prelude.{◌≡◌, ◌+◌, ◌*◌, ◌/◌, ◌<◌, ◌≤◌, ◌∷◌, length, map, IfOk};
ghost use Rattle.std.specs.List.{filter};
ghost use Rattle.case_model.specs.Mesh.{base_of, ends_of};
ghost use Rattle.envelope.specs.Cells.{IsRising, has_place, is_within};
ghost use Rattle.envelope.specs.Folds.{Stands};
ghost use Rattle.envelope.specs.Notings.{nothing};
ghost use Rattle.regions.specs.declared.shapes.Shape.TheVariants.{OfNode};
ghost use Rattle.regions.specs.Sides.{shape_at};
ghost use Rattle.regionrun.specs.Right.{end_span, strand_spans};
ghost use Rattle.regionrun.specs.Surveys.{AreProbed, HasSpans, IsSpanned, IsStrandFold, IsSurvey};

use crate::lawful::layouts_are_lawful;
use crate::probed::may_be_probed;
use crate::surveys::Survey;
use case_model::{End, Mesh, accepted_cases_are_kept};
use envelope::Fold;
use regions::Shape;
use std::alloc::{AllocError, Global};

/// The fold of a strand: of its own places and those of its triangles, with the probes that lie
/// there; `probed` marks the places that have a probe. The error is want of memory.
pub(crate) fn strand_fold(
    alloc: Global,
    survey: &Survey,
    number: u32,
    probed: &[bool],
) -> Result<Fold, AllocError>
    requires survey { IsSurvey survey.now.case.now survey.now.mesh.now survey.now.layout.now
        survey.now.probes.now }
    requires there { number < length survey.now.layout.now.shapes }
    requires probed { AreProbed survey.now.probes.now probed.now }
    ensures given { IfOk result (λ fold. IsStrandFold survey.now.case.now survey.now.mesh.now
        survey.now.layout.now survey.now.probes.now number fold) }
    ensures fresh { IfOk result (λ fold. Stands fold nothing) }
{
    surveyed(survey, number);
    let shape = survey.layout.shapes.as_slice()[number as usize];
    let spans = spans_of_shape(alloc, survey.mesh, survey.layout.window, shape)?;
    let probes = probes_within(alloc, &spans, survey.probes, probed)?;
    Fold::make(alloc, &spans, &probes, survey.case.steps, survey.case.every)
}

// What holds of the spans and of the probes of a strand.
fn surveyed(survey: &Survey, number: u32)
    requires survey { IsSurvey survey.now.case.now survey.now.mesh.now survey.now.layout.now
        survey.now.probes.now }
    requires there { number < length survey.now.layout.now.shapes }
    ensures has { HasSpans survey.now.mesh.now survey.now.layout.now.window
        (shape_at survey.now.layout.now number) }
    ensures rising { IsRising (strand_spans survey.now.mesh.now survey.now.layout.now.window
        (shape_at survey.now.layout.now number)) }
    ensures some { 1 ≤ survey.now.case.now.every }
    ensures window { 1 ≤ survey.now.layout.now.window }
    ensures few { length survey.now.probes.now
        * (survey.now.case.now.steps / survey.now.case.now.every + 1) ≤ 4_000_000 }
{
    let _ = survey;
    let _ = number;
    accepted_cases_are_kept();
    layouts_are_lawful();
}

// The spans of a strand of this shape, in order.
#[tactic(auto, unfolding(crate::specs::Right::strand_spans))]
fn spans_of_shape(
    alloc: Global,
    mesh: &Mesh,
    window: u64,
    shape: Shape,
) -> Result<Vec<(u64, u64)>, AllocError>
    requires some { 1 ≤ window }
    requires has { HasSpans mesh.now window shape }
    ensures { IfOk result (λ spans. spans.items ≡ strand_spans mesh.now window shape) }
{
    match shape {
        Shape::OfNode { node } => node_spans(alloc, mesh, window, node),
        Shape::OfSeam { pipe, place, .. } => {
            let half = (window - 1) / 2;
            let at = base(mesh, pipe) + place as u64;
            Ok(vec![in alloc; (at - half, 2 * half + 1)]?)
        }
        Shape::OfSection {
            pipe,
            place,
            reaches,
            ..
        } => {
            let at = base(mesh, pipe) + place as u64;
            Ok(vec![in alloc; (at + 1, reaches as u64 - 1)]?)
        }
    }
}

// The spans of a node: its own place, and half a window at each of its pipe ends.
fn node_spans(
    alloc: Global,
    mesh: &Mesh,
    window: u64,
    node: u32,
) -> Result<Vec<(u64, u64)>, AllocError>
    requires some { 1 ≤ window }
    requires has { HasSpans mesh.now window (OfNode node) }
    ensures { IfOk result (λ spans.
        spans.items ≡ (node, 1) ∷ map (end_span mesh.now window) (ends_of mesh.now node)) }
{
    let mut spans = vec![in alloc; (node as u64, 1)]?;
    for end in mesh.ends.as_slice()[node as usize].as_slice() {
        spans.push(span_at_end(mesh, window, end))?;
    }
    Ok(spans)
}

// The span of half a window at an end of a pipe.
fn span_at_end(mesh: &Mesh, window: u64, end: &End) -> (u64, u64)
    requires some { 1 ≤ window }
    requires pipe { IsSpanned mesh.now window end.now.pipe }
    ensures { result ≡ end_span mesh.now window end.now }
{
    let half = (window - 1) / 2;
    let first = base(mesh, end.pipe);
    if end.at_last {
        let reaches = mesh.pipes.as_slice()[end.pipe as usize].reaches;
        (first + reaches as u64 - half, half + 1)
    } else {
        (first, half + 1)
    }
}

// The place number of place 0 of a pipe.
pub(crate) fn base(mesh: &Mesh, pipe: u32) -> u64
    requires { pipe < length mesh.now.pipes }
    ensures { result ≡ base_of mesh.now pipe }
{
    mesh.pipes.as_slice()[pipe as usize].base
}

// The probes that lie in some spans, in order: they are looked at only where one may lie there.
fn probes_within(
    alloc: Global,
    spans: &[(u64, u64)],
    probes: &[u64],
    probed: &[bool],
) -> Result<Vec<u64>, AllocError>
    requires { AreProbed probes.now probed.now }
    ensures { IfOk result (λ inside. inside.items ≡ filter (is_within spans.now) probes.now) }
{
    let mut inside = Vec::new(alloc);
    if !may_be_probed(spans, probed) {
        return Ok(inside);
    }
    for probe in probes {
        if lies_within(spans, *probe) {
            inside.push(*probe)?;
        }
    }
    Ok(inside)
}

// Whether a place lies in one of some spans.
#[tactic(auto, unfolding(envelope::specs::Cells::is_within))]
fn lies_within(spans: &[(u64, u64)], place: u64) -> bool
    ensures { result ≡ is_within spans.now place }
{
    for span in spans {
        if span_has(*span, place) {
            return true;
        }
    }
    false
}

fn span_has(span: (u64, u64), place: u64) -> bool
    ensures { result ≡ has_place place span }
{
    span.0 <= place && place - span.0 < span.1
}
