//! The whole of an asynchronous run: strands are made, computed by workers and gathered.
ghost use Rattle.std.specs.Prelude.{◌≡◌, ◌≤◌, [], ◌∷◌, OnOk};
ghost use Rattle.case_model.specs.Meaning.{Meaning};
ghost use Rattle.envelope.specs.Folds.{IsFoldOf, IsSameFold, Stands};
ghost use Rattle.envelope.specs.Notings.{nothing};
ghost use Rattle.envelope.specs.Rows.{rows_noted};
ghost use Rattle.regionrun.specs.Surveys.{IsSurvey};

use crate::runs::run_async;
use case_model::Law;
use endhistory::MOST_SLOTS;
use envelope::Fold;
use regionrun::{Gate, MOST_WORKERS, Survey, Workers, gather, make_strands};
use regions::layouts_are_sound;
use std::alloc::AllocError;
use std::sync::Wait;
use std::thread::Threads;

/// Tells a fold over all places the rows of a law, for the case, the mesh and the layout of a
/// survey: all strands are made, workers that claim them compute them over histories of so many
/// slots, and their folds are gathered. All memory is taken before the first region; the error is
/// want of it.
pub fn compute_async<R: Threads + Wait + AllocGlobal + Sync, L: Law, G: Gate + Sync>(
    workers: &Workers<R>,
    law: &L,
    survey: &Survey,
    slots: u64,
    gate: &mut G,
    into: &mut Fold,
) -> Result<(), AllocError>
    requires some { 1 ≤ workers.now.count }
    requires few { workers.now.count ≤ MOST_WORKERS }
    requires some_slots { 1 ≤ slots }
    requires few_slots { slots ≤ MOST_SLOTS }
    requires mesh { survey.now.mesh.now ≡ (L.meaning law.now).mesh }
    requires survey { IsSurvey survey.now.case.now survey.now.mesh.now survey.now.layout.now
        survey.now.probes.now }
    requires given { IsFoldOf ((0, survey.now.mesh.now.places) ∷ []) survey.now.probes.now
        survey.now.case.now.steps survey.now.case.now.every into.old }
    requires fresh { Stands into.old nothing }
    ensures same { IsSameFold into.old into.new }
    ensures told { OnOk result (Stands into.new (rows_noted (L.meaning law.now))) }
{
    layouts_are_sound();
    let strands = make_strands(workers.rt.alloc(), law, survey, gate)?;
    let ran = run_async(workers, law, survey, strands, slots, gate)?;
    gather(&ran.strands, into);
    Ok(())
}
