//! What came of an advance.

/// What came of advancing a runner.
#[derive(Drop, Clone, Copy, PartialEq, Eq, Debug)]
pub enum Advance {
    /// Its next region was entered, computed and left.
    Left,
    /// The next region needs a block of this strand, of which so many are published, which is too
    /// few.
    NoBlock { strand: u32, published: u64 },
    /// The next region writes a block, and this reader of the strand's history had passed so many,
    /// which is too few for a slot to be free.
    NoSlot { reader: u32, passed: u64 },
}
