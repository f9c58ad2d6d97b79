//! What `run` does: as `rounds`, but by workers that claim strands and let them run ahead of one
//! another.
ghost use Rattle.std.specs.Prelude.{◌≡◌, ◌⊎◌, ◌≤◌, ◌≢◌, ℕ, List as Items, IfSome};
ghost use Rattle.case_model.specs.Accepted.{IsAccepted};
ghost use Rattle.command_words.specs.CommandLine.{IsJob};
ghost use Rattle.netfile.specs.Verdict.{verdict};
ghost use Rattle.surge_io.specs.Faults.{Rose};
ghost use Rattle.surge_top.specs.Answer.{answer_to, rows_text, run_of};
ghost use Rattle.surge_top.specs.Outcome.{HasAnswered, IsFront, IsInput, Tells};

use crate::computing::write_answer;
use crate::folding::Printed;
use crate::rows::fold_by_workers;
use crate::status::Status;
use crate::top::ended;
use case_model::{Case, CaseFault, Mesh};
use command_words::{Command, Job};
use netfile::{MOST_BYTES, read_case};
use regionrun::Gate;
use report::write_refusal;
use std::alloc::AllocError;
use std::sync::Wait;
use std::thread::Threads;
use surge_io::{ReadFault, Sink, Source, whole};

/// Writes the answer of a run to what is taken from the source.
pub(crate) fn run_input<R: Threads + Wait + AllocGlobal + Sync, S: Source, K: Sink, G: Gate + Sync>(
    rt: &R,
    job: Job,
    src: &mut S,
    out: &mut K,
    gate: &mut G,
) -> Status
    requires job { IsJob job }
    requires run { job.command ≡ Command.Run }
    ensures answer { (result ≢ Status.ReadFault) → (result ≢ Status.Memory) →
        (bytes : Items ℕ) × IsInput S.gives S.left src.old src.new bytes
        × Tells result (K.held out.old) (K.held out.new) (answer_to job (verdict bytes)) }
    ensures known { IfSome (S.left src.old) (λ bytes.
        Tells result (K.held out.old) (K.held out.new) (answer_to job (verdict bytes))) }
    ensures unwritten { (result ≡ Status.ReadFault) ⊎ (result ≡ Status.Memory) →
        (K.held out.new ≡ K.held out.old)
        × ((bytes : Items ℕ) × IsFront S.gives S.left src.old src.new bytes) }
    ensures read_fault { result ≡ Status.ReadFault → Rose (S.faults src.old) (S.faults src.new) }
    ensures write_fault { result ≡ Status.WriteFault → Rose (K.faults out.old) (K.faults out.new) }
    ensures read_later { S.faults src.old ≤ S.faults src.new }
    ensures write_later { K.faults out.old ≤ K.faults out.new }
{
    match whole(rt.alloc(), src, MOST_BYTES) {
        Ok(bytes) => run_text(rt, job, &bytes, out, gate),
        Err(ReadFault::Memory) => Status::Memory,
        Err(ReadFault::Failed) => Status::ReadFault,
    }
}

// Writes the answer of a run to a text of any length.
fn run_text<R: Threads + Wait + AllocGlobal + Sync, K: Sink, G: Gate + Sync>(
    rt: &R,
    job: Job,
    bytes: &[u8],
    out: &mut K,
    gate: &mut G,
) -> Status
    requires job { IsJob job }
    requires run { job.command ≡ Command.Run }
    ensures { HasAnswered K.held K.faults result out.old out.new
        (answer_to job (verdict bytes.now)) }
{
    match read_case(rt.alloc(), bytes) {
        Ok((case, mesh)) => run_case(rt, job, &case, &mesh, out, gate),
        Err(CaseFault::Refused { number, line }) => ended(
            write_refusal(number, line as u64, out),
            Status::Refused,
        ),
        Err(CaseFault::Memory) => Status::Memory,
    }
}

// Writes the report of an accepted case, or its first fault.
fn run_case<R: Threads + Wait + AllocGlobal + Sync, K: Sink, G: Gate + Sync>(
    rt: &R,
    job: Job,
    case: &Case,
    mesh: &Mesh,
    out: &mut K,
    gate: &mut G,
) -> Status
    requires job { IsJob job }
    requires accepted { IsAccepted case.now mesh.now }
    ensures { let text = rows_text case.now mesh.now in
        HasAnswered K.held K.faults result out.old out.new (run_of text case.now mesh.now) }
{
    match fold_by_workers(rt, job, case, mesh, gate) {
        Ok(fold) => write_answer(Printed::Report, case, mesh, &fold, out),
        Err(AllocError) => Status::Memory,
    }
}
