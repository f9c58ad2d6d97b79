//! The top call of `surge`: words and a case text in, the answer out, under the headline's clause.
ghost use Rattle.std.specs.Prelude.{◌≡◌, ◌⊎◌, ◌≤◌, ◌≢◌, ℕ, List as Items, map, true, false};
ghost use Rattle.std.specs.Prelude.{IfSome, MatchResult, None};
ghost use Rattle.case_model.specs.Accepted.{IsAccepted};
ghost use Rattle.command_words.specs.CommandLine.{IsJob, job_of};
ghost use Rattle.drill.specs.Network.{drill_text};
ghost use Rattle.netfile.specs.Verdict.{verdict};
ghost use Rattle.surge_io.specs.Faults.{Rose};
ghost use Rattle.surge_top.specs.Answer.{answer, answer_to, answer_case as answer_of, are_read};
ghost use Rattle.surge_top.specs.Answer.{reads, unread};
ghost use Rattle.surge_top.specs.Outcome.{HasAnswered, HasAnsweredWords, IsFront, IsInput, Tells};
ghost use Rattle.surge_top.specs.Status.{IsAnswered};

use crate::computing::{peak, rounds};
use crate::cutting::cut;
use crate::running::run_input;
use crate::status::Status;
use case_model::{Case, CaseFault, Mesh};
use case_writing::write_upgraded;
use command_words::{Command, Job, WordsFault, read_words};
use drill::drill_text;
use netfile::{MOST_BYTES, read_case};
use regionrun::Gate;
use report::{write_accepted, write_refusal, write_usage};
use std::alloc::AllocError;
use std::sync::Wait;
use std::thread::Threads;
use surge_io::{Failed, ReadFault, Sink, Source, whole};

/// What the program does: judges its words, reads a case text from the source, and writes its
/// answer to the sink. Strands pass the gate each time they enter a region. `run` goes by workers
/// that wait for one another; every other command is that of `surge_plain`, and returns.
///
/// The answer is that of the definitions for these words and for the bytes that were taken from the
/// source, whatever the source and the sink are and do: all bytes up to the source's end, or one
/// past the limit. Refused words and a drill have none taken. A read fault comes only where the
/// source's count of faults rose, a write fault only where the sink's did; want of memory is free,
/// and comes before the first byte is written.
pub fn surge<R: Threads + Wait + AllocGlobal + Sync, S: Source, K: Sink, G: Gate + Sync>(
    rt: &R,
    words: &[&str],
    src: &mut S,
    out: &mut K,
    gate: &mut G,
) -> Status
    ensures { HasAnsweredWords S.gives S.left S.faults K.held K.faults
        (map (λ w. w.now) words.now) result src.old src.new out.old out.new }
{
    match read_words(rt.alloc(), words) {
        Ok(job) if is_run(job.command) => run_input(rt, job, src, out, gate),
        _ => surge_plain(rt, words, src, out, gate),
    }
}

// Whether a command goes by workers that wait for one another.
fn is_run(command: Command) -> bool
    ensures { (result ≡ true) → command ≡ Command.Run }
{
    match command {
        Command::Run => true,
        _ => false,
    }
}

/// The same without waiting: `run` does what `rounds` does, and every command returns.
pub fn surge_plain<R: Threads + AllocGlobal + Sync, S: Source, K: Sink, G: Gate + Sync>(
    rt: &R,
    words: &[&str],
    src: &mut S,
    out: &mut K,
    gate: &mut G,
) -> Status
    ensures { HasAnsweredWords S.gives S.left S.faults K.held K.faults
        (map (λ w. w.now) words.now) result src.old src.new out.old out.new }
{
    answer_words(rt, words, src, out, gate)
}

// The same, clause by clause.
fn answer_words<R: Threads + AllocGlobal + Sync, S: Source, K: Sink, G: Gate + Sync>(
    rt: &R,
    words: &[&str],
    src: &mut S,
    out: &mut K,
    gate: &mut G,
) -> Status
    // Words that have the input read: the answer is that to the bytes that were taken.
    ensures answer { let texts = map (λ w. w.now) words.now in
        (are_read texts ≡ true) → (result ≢ Status.ReadFault) → (result ≢ Status.Memory) →
        (bytes : Items ℕ) × IsInput S.gives S.left src.old src.new bytes
        × Tells result (K.held out.old) (K.held out.new) (answer texts bytes) }

    // Words that have no input read, refused words and those of a drill: no byte is taken.
    ensures refused { let texts = map (λ w. w.now) words.now in
        (are_read texts ≡ false) → (src.new ≡ src.old) × (result ≢ Status.ReadFault)
        × Tells result (K.held out.old) (K.held out.new) (unread texts) }

    // The status of refused words comes for them, and for no others.
    ensures words { (result ≡ Status.Words) → job_of (map (λ w. w.now) words.now) ≡ None }
    ensures usage { (job_of (map (λ w. w.now) words.now) ≡ None) →
        (result ≡ Status.Words) ⊎ (result ≡ Status.WriteFault) ⊎ (result ≡ Status.Memory) }

    // Where the source tells what it has left, the answer is that to all of it.
    ensures known { let texts = map (λ w. w.now) words.now in
        IfSome (S.left src.old) (λ bytes. Tells result (K.held out.old) (K.held out.new)
        (answer texts bytes)) }

    // A read fault and want of memory: nothing is written, and no more is taken than for an answer.
    ensures unwritten { (result ≡ Status.ReadFault) ⊎ (result ≡ Status.Memory) →
        (K.held out.new ≡ K.held out.old)
        × ((bytes : Items ℕ) × IsFront S.gives S.left src.old src.new bytes) }

    // When a fault is answered, and that nothing else is: only want of memory is free.
    ensures read_fault { result ≡ Status.ReadFault → Rose (S.faults src.old) (S.faults src.new) }
    ensures write_fault { result ≡ Status.WriteFault → Rose (K.faults out.old) (K.faults out.new) }
    ensures read_later { S.faults src.old ≤ S.faults src.new }
    ensures write_later { K.faults out.old ≤ K.faults out.new }
    ensures complete { (Rose (S.faults src.old) (S.faults src.new)
        ⊎ Rose (K.faults out.old) (K.faults out.new))
        ⊎ ((result ≡ Status.Memory) ⊎ IsAnswered result) }
{
    match read_words(rt.alloc(), words) {
        Ok(job) if reads_input(job.command) => answer_input(rt, job, src, out, gate),
        Ok(job) => answer_drill(rt, job, out, gate),
        Err(WordsFault::Words) => ended(write_usage(out), Status::Words),
        Err(WordsFault::Memory) => Status::Memory,
    }
}

// Whether a command reads the input; a drill makes its case text from its number.
fn reads_input(command: Command) -> bool
    ensures { result ≡ reads command }
{
    match command {
        Command::Check | Command::Mesh | Command::Rounds | Command::Run | Command::Upgrade => true,
        Command::Drill => false,
    }
}

// Writes the answer of a job to what is taken from the source.
fn answer_input<R: Threads + AllocGlobal + Sync, S: Source, K: Sink, G: Gate + Sync>(
    rt: &R,
    job: Job,
    src: &mut S,
    out: &mut K,
    gate: &mut G,
) -> Status
    requires { IsJob job }
    ensures answer { (result ≢ Status.ReadFault) → (result ≢ Status.Memory) →
        (bytes : Items ℕ) × IsInput S.gives S.left src.old src.new bytes
        × Tells result (K.held out.old) (K.held out.new) (answer_to job (verdict bytes)) }
    ensures known { IfSome (S.left src.old) (λ bytes.
        Tells result (K.held out.old) (K.held out.new) (answer_to job (verdict bytes))) }
    ensures unwritten { (result ≡ Status.ReadFault) ⊎ (result ≡ Status.Memory) →
        (K.held out.new ≡ K.held out.old)
        × ((bytes : Items ℕ) × IsFront S.gives S.left src.old src.new bytes) }
    ensures read_fault { result ≡ Status.ReadFault → Rose (S.faults src.old) (S.faults src.new) }
    ensures write_fault { result ≡ Status.WriteFault → Rose (K.faults out.old) (K.faults out.new) }
    ensures read_later { S.faults src.old ≤ S.faults src.new }
    ensures write_later { K.faults out.old ≤ K.faults out.new }
{
    match whole(rt.alloc(), src, MOST_BYTES) {
        Ok(bytes) => answer_text(rt, job, &bytes, out, gate),
        Err(ReadFault::Memory) => Status::Memory,
        Err(ReadFault::Failed) => Status::ReadFault,
    }
}

// Writes the answer of a drill to the text that is made from its number.
fn answer_drill<R: Threads + AllocGlobal + Sync, K: Sink, G: Gate + Sync>(
    rt: &R,
    job: Job,
    out: &mut K,
    gate: &mut G,
) -> Status
    requires { IsJob job }
    ensures { HasAnswered K.held K.faults result out.old out.new
        (answer_to job (verdict (drill_text job.number))) }
{
    match drill_text(rt.alloc(), job.number) {
        Ok(text) => answer_text(rt, job, &text, out, gate),
        Err(AllocError) => Status::Memory,
    }
}

/// The status of a text that was to be written.
pub(crate) fn ended(written: Result<(), Failed>, done: Status) -> Status
    ensures { MatchResult written (λ u. result ≡ done) (λ e. result ≡ Status.WriteFault) }
{
    match written {
        Ok(()) => done,
        Err(Failed) => Status::WriteFault,
    }
}

// Writes the answer of a job to a text of any length.
fn answer_text<R: Threads + AllocGlobal + Sync, K: Sink, G: Gate + Sync>(
    rt: &R,
    job: Job,
    bytes: &[u8],
    out: &mut K,
    gate: &mut G,
) -> Status
    requires { IsJob job }
    ensures { HasAnswered K.held K.faults result out.old out.new
        (answer_to job (verdict bytes.now)) }
{
    match read_case(rt.alloc(), bytes) {
        Ok((case, mesh)) => answer_case(rt, job, &case, &mesh, out, gate),
        Err(CaseFault::Refused { number, line }) => ended(
            write_refusal(number, line as u64, out),
            Status::Refused,
        ),
        Err(CaseFault::Memory) => Status::Memory,
    }
}

// Writes the answer of a job to an accepted case.
fn answer_case<R: Threads + AllocGlobal + Sync, K: Sink, G: Gate + Sync>(
    rt: &R,
    job: Job,
    case: &Case,
    mesh: &Mesh,
    out: &mut K,
    gate: &mut G,
) -> Status
    requires job { IsJob job }
    requires accepted { IsAccepted case.now mesh.now }
    ensures { HasAnswered K.held K.faults result out.old out.new (answer_of job case.now mesh.now) }
{
    match job.command {
        Command::Check => ended(write_accepted(out), Status::Done),
        Command::Mesh => cut(rt.alloc(), case, mesh, job.window, out),
        Command::Rounds | Command::Run => rounds(rt, job, case, mesh, out, gate),
        Command::Drill => peak(rt, job, case, mesh, out, gate),
        Command::Upgrade => ended(write_upgraded(case, out), Status::Done),
    }
}
