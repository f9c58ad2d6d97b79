//! What a writer and a reader are told when they ask.

/// Whether the writer may publish its next block.
#[derive(Clone, Copy, PartialEq, Eq, Debug)]
pub enum Vacancy {
    /// Every reader has passed the block that lies in the slot.
    Free,
    /// Reader `reader` had passed no more than `passed` blocks, which is too few.
    Held { reader: u32, passed: u64 },
}

/// Whether a reader may fetch its next block.
#[derive(Clone, Copy, PartialEq, Eq, Debug)]
pub enum Look {
    /// The block is published.
    Ready,
    /// No more than `published` blocks were, which is too few.
    NotYet { published: u64 },
}
