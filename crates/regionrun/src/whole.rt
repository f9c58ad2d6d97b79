//! The whole of a run: strands are made, computed and gathered.
ghost use Rattle.std.specs.Prelude.{◌≡◌, ◌≤◌, [], ◌∷◌, OnOk};
ghost use Rattle.case_model.specs.Meaning.{Meaning};
ghost use Rattle.envelope.specs.Folds.{IsFoldOf, IsSameFold, Stands};
ghost use Rattle.envelope.specs.Notings.{nothing};
ghost use Rattle.envelope.specs.Rows.{rows_noted};
ghost use Rattle.regionrun.specs.Surveys.{IsSurvey};

use crate::gathering::gather;
use crate::making::make_strands;
use crate::rounds::{MOST_WORKERS, Workers, run_rounds};
use crate::{Gate, Survey};
use case_model::Law;
use envelope::Fold;
use regions::layouts_are_sound;
use std::alloc::AllocError;
use std::thread::Threads;

/// Tells a fold over all places the rows of a law, for the case, the mesh and the layout of a
/// survey: all strands are made, they are computed on as many threads as there is work for, and
/// their folds are gathered. All memory is taken before the first region; the error is want of it.
pub fn compute<R: Threads + AllocGlobal + Sync, L: Law, G: Gate + Sync>(
    workers: &Workers<R>,
    law: &L,
    survey: &Survey,
    gate: &mut G,
    into: &mut Fold,
) -> Result<(), AllocError>
    requires some { 1 ≤ workers.now.count }
    requires few { workers.now.count ≤ MOST_WORKERS }
    requires mesh { survey.now.mesh.now ≡ (L.meaning law.now).mesh }
    requires survey { IsSurvey survey.now.case.now survey.now.mesh.now survey.now.layout.now
        survey.now.probes.now }
    requires given { IsFoldOf ((0, survey.now.mesh.now.places) ∷ []) survey.now.probes.now
        survey.now.case.now.steps survey.now.case.now.every into.old }
    requires fresh { Stands into.old nothing }
    ensures same { IsSameFold into.old into.new }
    ensures told { OnOk result (Stands into.new (rows_noted (L.meaning law.now))) }
{
    layouts_are_sound();
    let strands = make_strands(workers.rt.alloc(), law, survey, gate)?;
    let strands = run_rounds(workers, law, survey.layout, survey.mesh, strands, gate)?;
    gather(&strands, into);
    Ok(())
}
