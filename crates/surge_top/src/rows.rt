//! How the rows of an accepted case are computed: in rounds, or by workers that let pipes run ahead
//! of one another.
ghost use Rattle.std.specs.Prelude.{◌≡◌, [], ◌∷◌, IfOk};
ghost use Rattle.case_model.specs.Accepted.{IsAccepted};
ghost use Rattle.command_words.specs.CommandLine.{IsJob};
ghost use Rattle.envelope.specs.Folds.{IsFoldOf, Stands};
ghost use Rattle.envelope.specs.RowFolds.{probe_numbers as numbers_of};
ghost use Rattle.envelope.specs.Rows.{rows_noted};
ghost use Rattle.scheme.specs.Laws.{meaning_of};
ghost use Rattle.surge_top.specs.Ready.{IsReady};

use crate::folding::{fold_over, probe_numbers};
use case_model::{Case, Mesh};
use command_words::Job;
use envelope::Fold;
use regionrun::{Gate, Survey, Workers, compute};
use regions::{Layout, layout};
use report::sizes;
use scheme::{Physics, PreparedPipe, prepare};
use std::alloc::{AllocError, Global};
use std::sync::Wait;
use std::thread::Threads;
use workers::compute_async;

/// A fold over all places of an accepted case that was told every row, computed in rounds on as
/// many threads as there is work for. All memory is taken before the first region; the error is
/// want of it.
pub(crate) fn fold_in_rounds<R: Threads + AllocGlobal + Sync, G: Gate + Sync>(
    rt: &R,
    job: Job,
    case: &Case,
    mesh: &Mesh,
    gate: &mut G,
) -> Result<Fold, AllocError>
    requires job { IsJob job }
    requires accepted { IsAccepted case.now mesh.now }
    ensures given { let probes = numbers_of mesh.now case.now in IfOk result (λ fold.
        IsFoldOf ((0, mesh.now.places) ∷ []) probes case.now.steps case.now.every fold) }
    ensures told { IfOk result (λ fold. Stands fold (rows_noted (meaning_of case.now mesh.now))) }
{
    let workers = Workers {
        rt,
        count: job.workers,
    };
    let mut ready = make_ready(rt.alloc(), case, mesh, job)?;
    let law = Physics::with_table(case, mesh, &ready.table);
    let survey = Survey {
        case,
        mesh,
        layout: &ready.layout,
        probes: &ready.probes,
    };
    compute(&workers, &law, &survey, gate, &mut ready.fold)?;
    Ok(ready.fold)
}

/// The same, computed by workers that claim strands and let them run ahead of one another, as far
/// as blocks and slots allow.
pub(crate) fn fold_by_workers<R: Threads + Wait + AllocGlobal + Sync, G: Gate + Sync>(
    rt: &R,
    job: Job,
    case: &Case,
    mesh: &Mesh,
    gate: &mut G,
) -> Result<Fold, AllocError>
    requires job { IsJob job }
    requires accepted { IsAccepted case.now mesh.now }
    ensures given { let probes = numbers_of mesh.now case.now in IfOk result (λ fold.
        IsFoldOf ((0, mesh.now.places) ∷ []) probes case.now.steps case.now.every fold) }
    ensures told { IfOk result (λ fold. Stands fold (rows_noted (meaning_of case.now mesh.now))) }
{
    let workers = Workers {
        rt,
        count: job.workers,
    };
    let mut ready = make_ready(rt.alloc(), case, mesh, job)?;
    let law = Physics::with_table(case, mesh, &ready.table);
    let survey = Survey {
        case,
        mesh,
        layout: &ready.layout,
        probes: &ready.probes,
    };
    compute_async(&workers, &law, &survey, job.slots, gate, &mut ready.fold)?;
    Ok(ready.fold)
}

/// What is made of a case before its regions are computed.
#[derive(Drop)]
pub(crate) struct Ready {
    /// What runs of each pipe are computed with.
    pub(crate) table: Vec<PreparedPipe>,
    /// The cut of the mesh into strands and windows.
    pub(crate) layout: Layout,
    /// The place numbers of the probes.
    pub(crate) probes: Vec<u64>,
    /// A fold over all places, of which nothing is noted.
    pub(crate) fold: Fold,
}

// What is made of an accepted case before its regions are computed. The error is want of memory.
fn make_ready(alloc: Global, case: &Case, mesh: &Mesh, job: Job) -> Result<Ready, AllocError>
    requires job { IsJob job }
    requires accepted { IsAccepted case.now mesh.now }
    ensures { IfOk result (IsReady case.now mesh.now) }
{
    sizes(case, mesh);
    let probes = probe_numbers(alloc, case, mesh)?;
    Ok(Ready {
        table: prepare(alloc, case, mesh)?,
        layout: layout(alloc, case, mesh, job.window)?,
        fold: fold_over(alloc, case, mesh, &probes)?,
        probes,
    })
}
