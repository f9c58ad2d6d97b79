//! The calls that rows are about.
use case_lines::{judge_line, line_of};
use netfile::{read_case, write_case};
use regionrun::OpenGate;
use std::alloc::{AllocError, Global};
use std::sync::Wait;
use std::thread::Threads;
use surge_io::{MemorySink, MemorySource};
use surge_top::{Status, surge};

/// What stands outside the program in a row: how many bytes a read gives at most, which reads and which writes
/// fail, and the room for the answer.
#[derive(Drop)]
pub(crate) struct Outside {
    pub(crate) pieces: usize,
    pub(crate) reads: Vec<u64>,
    pub(crate) writes: Vec<u64>,
    pub(crate) room: usize,
}

/// The status and the text that these words have over this text.
pub(crate) fn answer<R: Threads + Wait + AllocGlobal + Sync>(
    rt: &R,
    words: &[&str],
    text: &[u8],
    outside: &Outside,
) -> Result<(Status, MemorySink), AllocError> {
    let alloc = rt.alloc();
    let reads = outside.reads.as_slice().to_vec(alloc)?;
    let writes = outside.writes.as_slice().to_vec(alloc)?;
    let mut source = MemorySource::over(text.to_vec(alloc)?, outside.pieces.max(1), reads);
    let mut sink = MemorySink::make(alloc, outside.room, writes)?;
    let status = surge(rt, words, &mut source, &mut sink, &mut OpenGate);
    Ok((status, sink))
}

/// The accepted case of a text, written in its own version; None where it is refused or the sink is full.
pub(crate) fn written(alloc: Global, text: &[u8]) -> Result<Option<MemorySink>, AllocError> {
    let mut sink = MemorySink::make(alloc, 20_000, Vec::new(alloc))?;
    match read_case(alloc, text) {
        Ok((case, _)) => Ok(write_case(&case, &mut sink).ok().map(|_| sink)),
        Err(_) => Ok(None),
    }
}

/// The least rule that a line of this number breaks by itself in a text of this version, 0 for none.
pub(crate) fn rule(
    alloc: Global,
    version: u64,
    number: u64,
    line: &[u8],
) -> Result<u64, AllocError> {
    let version = if version == 1 { 1 } else { 2 };
    let line = line_of(alloc, line)?;
    match judge_line(version, number, &line) {
        Some(rule) => Ok(rule as u64),
        None => Ok(0),
    }
}
