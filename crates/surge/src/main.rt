//! `surge`: a water hammer analyser for pipe networks. Reads a case text from standard input,
//! writes the answer to standard output, and exits with the number of the status.
#![tactic(auto)]

ghost use Rattle.std.specs.Prelude.{◌≡◌, ◌≤◌, map, IfOk, string_bytes};
ghost use Rattle.std.specs.Process.{exit_status};
ghost use Rattle.surge_top.specs.Outcome.{HasAnsweredWords};
ghost use Rattle.surge_top.specs.Status.{number_of};

use regionrun::OpenGate;
use std::alloc::{AllocError, Global};
use std::process::ExitCode;
use std::rt::Env;
use std::sync::Wait;
use std::thread::Threads;
use std::{env, io};
use surge_io::{Sink, Source, StreamSink, StreamSource};
use surge_top::{Status, surge};

// Lends the words, each as it stands.
fn lend(alloc: Global, words: &[String]) -> Result<Vec<&str>, AllocError>
    ensures { IfOk result (λ lent. map (λ word. word.now) lent.items ≡ map string_bytes words.now) }
{
    let mut lent = Vec::new(alloc);
    for word in words {
        lent.push(word.as_str())?;
    }
    Ok(lent)
}

// Runs the program with these words: the status is that of the top call, or want of memory for the
// words, before which nothing is read and nothing written.
fn run<R: Threads + Wait + AllocGlobal + Sync, S: Source, K: Sink>(
    rt: &R,
    words: &[String],
    src: &mut S,
    out: &mut K,
) -> Status
    ensures { HasAnsweredWords S.gives S.left S.faults K.held K.faults
        (map string_bytes words.now) result src.old src.new out.old out.new }
{
    match lend(rt.alloc(), words) {
        Ok(words) => surge(rt, &words, src, out, &mut OpenGate),
        Err(AllocError) => Status::Memory,
    }
}

// The words of the command line; none where one of them is no text, which are refused words.
fn words<R: AllocGlobal + Env>(rt: &R) -> Result<Vec<String>, AllocError> {
    let mut words = Vec::new(rt.alloc());
    match env::args(rt) {
        Ok(all) => {
            for word in all {
                words.push(word)?;
            }
        }
        Err(error) if error.kind() == io::ErrorKind::OutOfMemory => return Err(AllocError),
        Err(_) => {}
    }
    Ok(words)
}

// The exit number of a status.
fn exit(status: Status) -> ExitCode
    ensures number { exit_status result ≡ number_of status }
    ensures few { exit_status result ≤ 6 }
{
    ExitCode::from(status.number())
}

// Runs the program over the standard streams: the exit number is one of the statuses.
fn start<R: Threads + Wait + AllocGlobal + Sync + Env + Input + Print>(rt: &R) -> ExitCode
    ensures { exit_status result ≤ 6 }
{
    let mut source = StreamSource::over(rt.reader());
    let mut sink = StreamSink::over(io::writer(rt));
    let status = match words(rt) {
        Ok(words) => run(rt, &words, &mut source, &mut sink),
        Err(AllocError) => Status::Memory,
    };
    exit(status)
}

fn main(rt: HostRuntime) -> ExitCode {
    start(&rt)
}
