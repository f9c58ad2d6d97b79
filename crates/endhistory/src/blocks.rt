//! Tags: what the blocks of a history are to be.

/// A finite list of blocks, each a list of words, that contracts read. A
/// history's block b is entry b of the list.
pub trait BlockTag {
    ghost use Rattle.std.specs.Prelude.{ℕ, List};

    ghost blocks: { Self → List (List ℕ) };
}

/// `count` blocks of `width` words that count on from `base`: word i of block b
/// is `base + b * width + i`.
#[derive(Clone, Copy)]
pub struct CountTag {
    pub base: u64,
    pub width: u64,
    pub count: u64,
}

impl BlockTag for CountTag {
    ghost use Rattle.endhistory.specs.Blocks.{count_blocks};

    ghost blocks = { λ t. count_blocks t.base t.width t.count };
}
