//! The fold of a run, which keeps what its report tells, and what is printed of the rows that it
//! was told.
ghost use Rattle.std.specs.Prelude.{◌≡◌, [], ◌∷◌, IfOk, None};
ghost use Rattle.std.specs.List.{All};
ghost use Rattle.case_model.specs.Accepted.{IsAccepted};
ghost use Rattle.case_model.specs.FirstFault.{first_fault};
ghost use Rattle.case_model.specs.PlaceNumbers.{IsOn};
ghost use Rattle.envelope.specs.Folds.{IsFoldOf, Stands};
ghost use Rattle.envelope.specs.Notings.{nothing};
ghost use Rattle.envelope.specs.RowFolds.{probe_numbers as numbers_of};
ghost use Rattle.envelope.specs.Rows.{rows_noted};
ghost use Rattle.scheme.specs.Laws.{meaning_of};
ghost use Rattle.surge_io.specs.Writings.{IsWritten};
ghost use Rattle.surge_top.specs.Answer.{peak_of_rows, rows_text};
ghost use Rattle.surge_top.specs.Printing.{printed_text};

use case_model::{Case, Mesh, place_number};
use envelope::{Fold, folds_tell_rows, numbers_tell_places};
use report::{peak_is_of_pipes, report_is_of_its_numbers, sizes, write_peak, write_report};
use std::alloc::{AllocError, Global};
use surge_io::{Failed, Sink};

/// What is printed of a run: its whole report, or the line of the peak alone.
#[derive(Clone, Copy)]
pub(crate) enum Printed {
    Report,
    Peak,
}

/// A fold over all places of an accepted case, with its probes, of which nothing is noted. The
/// error is want of memory.
pub(crate) fn fold_over(
    alloc: Global,
    case: &Case,
    mesh: &Mesh,
    probes: &[u64],
) -> Result<Fold, AllocError>
    requires accepted { IsAccepted case.now mesh.now }
    requires probes { probes.now ≡ numbers_of mesh.now case.now }
    ensures given { let probes = numbers_of mesh.now case.now in IfOk result (λ fold.
        IsFoldOf ((0, mesh.now.places) ∷ []) probes case.now.steps case.now.every fold) }
    ensures fresh { IfOk result (λ fold. Stands fold nothing) }
{
    sizes(case, mesh);
    numbers_tell_places();
    Fold::make(alloc, &[(0, mesh.places)], probes, case.steps, case.every)
}

/// The place numbers of the probes, in file order. The error is want of memory.
pub(crate) fn probe_numbers(alloc: Global, case: &Case, mesh: &Mesh) -> Result<Vec<u64>, AllocError>
    requires accepted { IsAccepted case.now mesh.now }
    requires on { All (λ probe. IsOn mesh.now probe.at) case.now.probes }
    ensures { IfOk result (λ numbers. numbers.items ≡ numbers_of mesh.now case.now) }
{
    let probes = case.probes.as_slice();
    let mut numbers = Vec::with_capacity(alloc, probes.len())?;
    for probe in probes {
        numbers.push(place_number(mesh, probe.at))?;
    }
    Ok(numbers)
}

/// Writes what is to be printed of a fold that was told every row of an accepted case.
pub(crate) fn write_rows<K: Sink>(
    printed: Printed,
    case: &Case,
    mesh: &Mesh,
    fold: &Fold,
    out: &mut K,
) -> Result<(), Failed>
    requires accepted { IsAccepted case.now mesh.now }
    requires given { let probes = numbers_of mesh.now case.now in
        IsFoldOf ((0, mesh.now.places) ∷ []) probes case.now.steps case.now.every fold.now }
    requires told { Stands fold.now (rows_noted (meaning_of case.now mesh.now)) }
    requires clear { first_fault (meaning_of case.now mesh.now) case.now.steps ≡ None }
    ensures { IsWritten K.held K.faults result out.old out.new
        (printed_text printed case.now mesh.now) }
{
    match printed {
        Printed::Report => write_whole(case, mesh, fold, out),
        Printed::Peak => write_last(case, mesh, fold, out),
    }
}

// Writes the whole report.
fn write_whole<K: Sink>(case: &Case, mesh: &Mesh, fold: &Fold, out: &mut K) -> Result<(), Failed>
    requires accepted { IsAccepted case.now mesh.now }
    requires given { let probes = numbers_of mesh.now case.now in
        IsFoldOf ((0, mesh.now.places) ∷ []) probes case.now.steps case.now.every fold.now }
    requires told { Stands fold.now (rows_noted (meaning_of case.now mesh.now)) }
    requires clear { first_fault (meaning_of case.now mesh.now) case.now.steps ≡ None }
    ensures { IsWritten K.held K.faults result out.old out.new (rows_text case.now mesh.now) }
{
    sizes(case, mesh);
    folds_tell_rows();
    report_is_of_its_numbers();
    write_report(case, mesh, fold, out)
}

// Writes the last line of the report.
fn write_last<K: Sink>(case: &Case, mesh: &Mesh, fold: &Fold, out: &mut K) -> Result<(), Failed>
    requires accepted { IsAccepted case.now mesh.now }
    requires given { let probes = numbers_of mesh.now case.now in
        IsFoldOf ((0, mesh.now.places) ∷ []) probes case.now.steps case.now.every fold.now }
    requires told { Stands fold.now (rows_noted (meaning_of case.now mesh.now)) }
    requires clear { first_fault (meaning_of case.now mesh.now) case.now.steps ≡ None }
    ensures { IsWritten K.held K.faults result out.old out.new (peak_of_rows case.now mesh.now) }
{
    sizes(case, mesh);
    folds_tell_rows();
    peak_is_of_pipes();
    write_peak(case, mesh, fold, out)
}
