//! Where workers start to look for strands.
ghost use Rattle.std.specs.Prelude.{◌<◌};

use crossbeam_deque::{Steal, Stealer, Worker};
use std::alloc::{AllocError, Global};

/// A deque with one starting number for each worker, so that their strands lie side by side: worker
/// i of n starts at i n-th parts of all strands. The error is want of memory.
pub(crate) fn push_starts(
    alloc: Global,
    strands: u32,
    workers: u32,
) -> Result<Worker<u32>, AllocError> {
    let mut starts = Worker::new_fifo(alloc, workers as usize)?;
    for worker in 0..workers {
        if starts.push(start_of(worker, workers, strands)).is_err() {
            return Err(AllocError);
        }
    }
    Ok(starts)
}

// Where the strands of a worker begin.
fn start_of(worker: u32, workers: u32, strands: u32) -> u32
    requires { 0 < workers }
{
    let start = u64::from(worker) * u64::from(strands) / u64::from(workers);
    start.min(u64::from(strands)) as u32
}

/// A worker's starting number, taken from the deque; 0 where it gives none.
pub(crate) fn take_start(starts: &Stealer<u32>) -> u32 {
    match starts.steal() {
        Steal::Success(start) => start,
        Steal::Empty | Steal::Retry => 0,
    }
}
