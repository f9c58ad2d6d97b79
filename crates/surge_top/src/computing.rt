//! What `rounds` and a drill do with an accepted case, and what is written of the rows that were
//! computed.
ghost use Rattle.std.specs.Prelude.{◌≡◌, ◌<◌, [], ◌∷◌, IfSome};
ghost use Rattle.case_model.specs.Accepted.{IsAccepted};
ghost use Rattle.case_model.specs.FirstFault.{first_fault};
ghost use Rattle.command_words.specs.CommandLine.{IsJob};
ghost use Rattle.envelope.specs.Folds.{IsFoldOf, Stands};
ghost use Rattle.envelope.specs.RowFolds.{probe_numbers as numbers_of};
ghost use Rattle.envelope.specs.Rows.{rows_noted};
ghost use Rattle.scheme.specs.Laws.{meaning_of};
ghost use Rattle.surge_top.specs.Answer.{peak_of_rows, rows_text, run_of};
ghost use Rattle.surge_top.specs.Printing.{printed_text};
ghost use Rattle.surge_top.specs.Outcome.{HasAnswered};

use crate::folding::{Printed, write_rows};
use crate::rows::fold_in_rounds;
use crate::status::Status;
use crate::top::ended;
use case_model::{Case, Mesh};
use command_words::Job;
use envelope::{Fold, folds_tell_rows, numbers_tell_places};
use regionrun::Gate;
use report::{sizes, write_range};
use std::alloc::AllocError;
use std::thread::Threads;
use surge_io::Sink;

/// Writes the report of an accepted case, or its first fault, computed in rounds.
pub(crate) fn rounds<R: Threads + AllocGlobal + Sync, K: Sink, G: Gate + Sync>(
    rt: &R,
    job: Job,
    case: &Case,
    mesh: &Mesh,
    out: &mut K,
    gate: &mut G,
) -> Status
    requires accepted { IsAccepted case.now mesh.now }
    requires job { IsJob job }
    ensures { let text = rows_text case.now mesh.now in
        HasAnswered K.held K.faults result out.old out.new (run_of text case.now mesh.now) }
{
    match fold_in_rounds(rt, job, case, mesh, gate) {
        Ok(fold) => write_answer(Printed::Report, case, mesh, &fold, out),
        Err(AllocError) => Status::Memory,
    }
}

/// Writes the peak's line of an accepted case, or its first fault, computed in rounds.
pub(crate) fn peak<R: Threads + AllocGlobal + Sync, K: Sink, G: Gate + Sync>(
    rt: &R,
    job: Job,
    case: &Case,
    mesh: &Mesh,
    out: &mut K,
    gate: &mut G,
) -> Status
    requires accepted { IsAccepted case.now mesh.now }
    requires job { IsJob job }
    ensures { let text = peak_of_rows case.now mesh.now in
        HasAnswered K.held K.faults result out.old out.new (run_of text case.now mesh.now) }
{
    match fold_in_rounds(rt, job, case, mesh, gate) {
        Ok(fold) => write_answer(Printed::Peak, case, mesh, &fold, out),
        Err(AllocError) => Status::Memory,
    }
}

/// Writes what is to be printed of a fold that was told every row of an accepted case, or its first
/// fault.
pub(crate) fn write_answer<K: Sink>(
    printed: Printed,
    case: &Case,
    mesh: &Mesh,
    fold: &Fold,
    out: &mut K,
) -> Status
    requires accepted { IsAccepted case.now mesh.now }
    requires given { let probes = numbers_of mesh.now case.now in
        IsFoldOf ((0, mesh.now.places) ∷ []) probes case.now.steps case.now.every fold.now }
    requires told { Stands fold.now (rows_noted (meaning_of case.now mesh.now)) }
    ensures { let text = printed_text printed case.now mesh.now in
        HasAnswered K.held K.faults result out.old out.new (run_of text case.now mesh.now) }
{
    sizes(case, mesh);
    match fault_in(case, mesh, fold) {
        Some((step, place)) => ended(write_range(case, mesh, step, place, out), Status::Range),
        None => ended(write_rows(printed, case, mesh, fold, out), Status::Done),
    }
}

// The first fault of the rows that a fold was told.
fn fault_in(case: &Case, mesh: &Mesh, fold: &Fold) -> Option<(u64, u64)>
    requires accepted { IsAccepted case.now mesh.now }
    requires given { let probes = numbers_of mesh.now case.now in
        IsFoldOf ((0, mesh.now.places) ∷ []) probes case.now.steps case.now.every fold.now }
    requires told { Stands fold.now (rows_noted (meaning_of case.now mesh.now)) }
    ensures fault { result ≡ first_fault (meaning_of case.now mesh.now) case.now.steps }
    ensures there { IfSome result (λ at. at.1 < mesh.now.places) }
{
    let _ = case;
    let _ = mesh;
    folds_tell_rows();
    numbers_tell_places();
    fold.fault()
}
