//! What the words name.
use thiserror::Error;

/// What `surge` is to do.
#[derive(Clone, Copy, Debug, PartialEq, Eq)]
pub enum Command {
    /// Judge the case text.
    Check,
    /// Print the mesh.
    Mesh,
    /// Compute on one thread.
    Rounds,
    /// Compute by workers.
    Run,
    /// Compute a case that is made from a number.
    Drill,
    /// Write the case text in its newest version.
    Upgrade,
}

/// A command with its number and its options.
#[derive(Clone, Copy, Debug, PartialEq, Eq)]
pub struct Job {
    /// What is to be done.
    pub command: Command,
    /// The number of a drill, 0 to 999999; 0 for every other command.
    pub number: u32,
    /// How many workers, 1 to 64.
    pub workers: u32,
    /// How many slots a history has, 1 to 8.
    pub slots: u64,
    /// The greatest window that is wished for, 1 to 256 steps.
    pub window: u64,
}

/// Why the words name no job.
#[derive(Clone, Copy, Debug, PartialEq, Eq, Error)]
pub enum WordsFault {
    /// The words aren't those of a command.
    #[error("no words of a command")]
    Words,
    /// There was no memory to read them.
    #[error("out of memory")]
    Memory,
}
