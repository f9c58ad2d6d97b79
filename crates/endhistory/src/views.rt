//! What the seats of a history know. The check alone sees the views; of the
//! sizes a history keeps a value.
use std::collections::LinkedList;

/// How many slots a history has, how many words a block has, and how many
/// readers there are.
#[derive(Clone, Copy)]
pub struct Sizes {
    pub slots: usize,
    pub width: usize,
    pub readers: usize,
}

/// The writer's view. No value of it is made.
pub struct Writing {
    /// The number of the next block, which is also the count of published ones.
    pub next: u64,
    /// How many words of the next block are stored.
    pub filled: u64,
    /// How many passed counts were loaded.
    pub loads: u64,
    /// Whose passed counts were loaded, in order.
    pub asked: LinkedList<u64>,
    /// The passed count that was last loaded of each reader, 0 before the first.
    pub known: LinkedList<u64>,
}

/// A reader's view. No value of it is made.
pub struct Reading {
    /// The number of the next block, which is also the count of passed ones.
    pub next: u64,
    /// The published count that was last loaded, 0 before the first.
    pub seen: u64,
    /// How many words of the next block are loaded.
    pub taken: u64,
    /// How many times the published count was loaded.
    pub loads: u64,
}

/// What a seat is. The first seat has no role: `Unopened` before the writer's
/// is split from it, `Nobody` with the count of readers dealt after that.
pub enum Role {
    Unopened,
    Nobody(u64),
    AsWriter(Writing),
    AsReader(u64, Reading),
}

/// A seat's view. No value of it is made.
pub struct View {
    pub sizes: Sizes,
    pub blocks: LinkedList<LinkedList<u64>>,
    pub role: Role,
}
