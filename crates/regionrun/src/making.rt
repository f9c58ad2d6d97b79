//! How strands are made: what each keeps of its places where nothing is computed, and a fold that
//! was told the initial row.
ghost use Rattle.std.specs.Prelude.{◌≡◌, ◌+◌, ◌<◌, ◌≤◌, length, IfOk};
ghost use Rattle.case_model.specs.Meaning.{Meaning};
ghost use Rattle.case_model.specs.Mesh.{IsNumbered};
ghost use Rattle.case_model.specs.declared.meshes.TheConstants.{MOST_ENDS};
ghost use Rattle.regions.specs.declared.shapes.TheConstants.{WIDEST_WINDOW};
ghost use Rattle.envelope.specs.Folds.{IsSameFold, Stands};
ghost use Rattle.envelope.specs.declared.folds.Fold.{Fold as FoldSeen};
ghost use Rattle.regions.specs.LaidOut.{IsLaidOut};
ghost use Rattle.regions.specs.Sides.{shape_at, sides_of};
ghost use Rattle.regionrun.specs.Bodies.{IsBareBody, IsBodyAt, IsNoting};
ghost use Rattle.regionrun.specs.Engine.{AreAt, none};
ghost use Rattle.regionrun.specs.Gathering.{AreParts};
ghost use Rattle.regionrun.specs.Lawful.{IsLawful};
ghost use Rattle.regionrun.specs.Made.{AreNew, IsNewFrontier, first_marks};
ghost use Rattle.regionrun.specs.Owned.{owned};
ghost use Rattle.regionrun.specs.Right.{Keeps};
ghost use Rattle.regionrun.specs.Surveys.{AreProbed, HasSpans, IsStrandFold, IsSurvey, IsWholeFold};
ghost use Rattle.strands.specs.Marks.{Marks, marked, or_marked};

use crate::Gate;
use crate::bodies::Body;
use crate::frontiers::Frontier;
use crate::gathering::strand_folds_are_parts;
use crate::lawful::layouts_are_lawful;
use crate::one_strand::Strand;
use crate::probed::probed_places;
use crate::sizes::sizes;
use crate::strand_folds::{base, strand_fold};
use crate::surveys::Survey;
use case_model::Law;
use envelope::{Fold, stands_for_equal_maps};
use regions::{Shape, layouts_are_sound};
use std::alloc::{AllocError, Global};
use strands::{Hub, Seam, Section};

impl Frontier {
    /// A strand of a survey of which nothing is computed; `probed` marks the places that have a
    /// probe. The error is want of memory.
    pub(crate) fn make<L: Law>(
        alloc: Global,
        law: &L,
        survey: &Survey,
        number: u32,
        probed: &[bool],
    ) -> Result<Frontier, AllocError>
        requires survey { IsSurvey survey.now.case.now survey.now.mesh.now survey.now.layout.now
            survey.now.probes.now }
        requires mesh { survey.now.mesh.now ≡ (L.meaning law.now).mesh }
        requires there { number < length survey.now.layout.now.shapes }
        requires probed { AreProbed survey.now.probes.now probed.now }
        ensures { IfOk result (IsNewFrontier survey.now.case.now (L.meaning law.now)
            survey.now.layout.now survey.now.probes.now number) }
    {
        standing(survey, number);
        layouts_are_sound();
        let body = make_body(alloc, law, survey, number)?;
        let fold = first_fold(alloc, law, survey, number, &body, probed)?;
        let window = survey.layout.window as u16;
        let sides = survey.layout.sides(survey.mesh, number) as u8;
        Ok(Frontier {
            number,
            windows: survey.layout.windows as u32,
            computed: 0,
            window,
            sides,
            body,
            fold,
        })
    }
}

// What a strand keeps of its places, by its shape. The error is want of memory.
fn make_body<L: Law>(
    alloc: Global,
    law: &L,
    survey: &Survey,
    number: u32,
) -> Result<Body, AllocError>
    requires survey { IsSurvey survey.now.case.now survey.now.mesh.now survey.now.layout.now
        survey.now.probes.now }
    requires mesh { survey.now.mesh.now ≡ (L.meaning law.now).mesh }
    requires there { number < length survey.now.layout.now.shapes }
    ensures keeps { IfOk result (λ body. Keeps (L.meaning law.now) survey.now.layout.now 0
        (shape_at survey.now.layout.now number) body) }
    ensures bare { IfOk result (λ body. IsBareBody body) }
{
    standing(survey, number);
    let window = survey.layout.window as usize;
    match survey.layout.shapes.as_slice()[number as usize] {
        Shape::OfNode { node } => {
            let hub = Hub::make(alloc, law, survey.mesh, window, node)?;
            Ok(Body::OfNode(hub))
        }
        Shape::OfSeam { pipe, place, .. } => {
            let at = base(survey.mesh, pipe) + place as u64;
            let seam = Seam::make(alloc, law, window, pipe, place, at)?;
            Ok(Body::OfSeam(seam))
        }
        Shape::OfSection {
            pipe,
            place,
            reaches,
            ..
        } => {
            let at = base(survey.mesh, pipe) + place as u64;
            let section = Section::make(alloc, law, pipe, place, at, reaches)?;
            Ok(Body::OfSection(section))
        }
    }
}

// The fold of a strand that is made, told the initial row. The error is want of memory.
fn first_fold<L: Law>(
    alloc: Global,
    law: &L,
    survey: &Survey,
    number: u32,
    body: &Body,
    probed: &[bool],
) -> Result<Fold, AllocError>
    requires survey { IsSurvey survey.now.case.now survey.now.mesh.now survey.now.layout.now
        survey.now.probes.now }
    requires mesh { survey.now.mesh.now ≡ (L.meaning law.now).mesh }
    requires there { number < length survey.now.layout.now.shapes }
    requires keeps { Keeps (L.meaning law.now) survey.now.layout.now 0
        (shape_at survey.now.layout.now number) body.now }
    requires probed { AreProbed survey.now.probes.now probed.now }
    ensures given { IfOk result (IsStrandFold survey.now.case.now (L.meaning law.now).mesh
        survey.now.layout.now survey.now.probes.now number) }
    ensures stands { IfOk result (λ fold. Stands fold (marked (L.meaning law.now)
        (owned (L.meaning law.now).mesh survey.now.layout.now.window number 0))) }
{
    standing(survey, number);
    stands_for_equal_maps();
    let mut fold = strand_fold(alloc, survey, number, probed)?;
    note_first(law, survey.layout.window as usize, body, &mut fold);
    Ok(fold)
}

// Notes the initial row of a strand's own places.
fn note_first<L: Law>(law: &L, window: usize, body: &Body, fold: &mut Fold)
    requires at { IsBodyAt (L.meaning law.now) window body.now 0 }
    requires noted { IsNoting window fold.old body.now }
    ensures same { IsSameFold fold.old fold.new }
    ensures stands { (marks : Marks) → Stands fold.old (marked (L.meaning law.now) marks) →
        Stands fold.new (marked (L.meaning law.now) (or_marked marks
        (first_marks window body.now))) }
{
    let _ = law;
    let _ = window;
    match body {
        Body::OfSection(section) => section.note_start(fold),
        Body::OfSeam(seam) => seam.note_start(fold),
        Body::OfNode(hub) => hub.note_start(fold),
    }
}

// What holds of a strand of a survey.
fn standing(survey: &Survey, number: u32)
    requires survey { IsSurvey survey.now.case.now survey.now.mesh.now survey.now.layout.now
        survey.now.probes.now }
    requires there { number < length survey.now.layout.now.shapes }
    ensures has { HasSpans survey.now.mesh.now survey.now.layout.now.window
        (shape_at survey.now.layout.now number) }
    ensures some { 1 ≤ survey.now.layout.now.window }
    ensures few { survey.now.layout.now.window ≤ WIDEST_WINDOW }
    ensures few_windows { survey.now.layout.now.windows ≤ 100_000_000 }
    ensures few_sides { sides_of survey.now.layout.now survey.now.mesh.now number ≤ MOST_ENDS }
    ensures numbered { IsNumbered survey.now.mesh.now }
    ensures lawful { IsLawful survey.now.layout.now survey.now.mesh.now }
    ensures laid_out { IsLaidOut survey.now.layout.now survey.now.mesh.now }
{
    let _ = survey;
    let _ = number;
    layouts_are_lawful();
}

/// All strands of a survey, in order, of which nothing is computed, each with its stub of the
/// gate. The error is want of memory.
pub fn make_strands<L: Law, G: Gate>(
    alloc: Global,
    law: &L,
    survey: &Survey,
    gate: &mut G,
) -> Result<Vec<Strand<G::Stub>>, AllocError>
    requires survey { IsSurvey survey.now.case.now survey.now.mesh.now survey.now.layout.now
        survey.now.probes.now }
    requires mesh { survey.now.mesh.now ≡ (L.meaning law.now).mesh }
    ensures at { IfOk result (λ strands. AreAt G.Stub.strand_of G.Stub.entered_of
        (L.meaning law.now) survey.now.layout.now none strands.items) }
    ensures made { IfOk result (λ strands. AreNew G.Stub.strand_of G.Stub.entered_of
        survey.now.case.now (L.meaning law.now) survey.now.layout.now survey.now.probes.now
        (length survey.now.layout.now.shapes) strands.items) }
    ensures parts { IfOk result (λ strands. (into : FoldSeen) →
        IsWholeFold survey.now.case.now survey.now.mesh.now survey.now.probes.now into →
        AreParts into strands.items) }
{
    strand_folds_are_parts();
    let probed = probed_places(alloc, survey.mesh.places, survey.probes)?;
    let count = strand_count(survey);
    let mut strands = Vec::with_capacity(alloc, count as usize)?;
    for number in 0..count {
        let stub = gate.begin(number);
        let strand = Strand::begin(alloc, law, survey, number, stub, &probed)?;
        strands.push(strand)?;
    }
    Ok(strands)
}

// How many strands a survey has.
fn strand_count(survey: &Survey) -> u32
    requires survey { IsSurvey survey.now.case.now survey.now.mesh.now survey.now.layout.now
        survey.now.probes.now }
    ensures { result ≡ length survey.now.layout.now.shapes }
{
    sizes(survey.layout, survey.mesh);
    survey.layout.shapes.as_slice().len() as u32
}
