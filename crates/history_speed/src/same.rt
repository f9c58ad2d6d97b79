//! A tag whose blocks are all the same.
use endhistory::BlockTag;

/// `count` blocks of `width` words that are 7.
#[derive(Clone, Copy)]
pub struct Same {
    pub count: u64,
    pub width: u64,
}

impl BlockTag for Same {
    ghost use Rattle.history_speed.specs.Same.{same_blocks};

    ghost blocks = { λ t. same_blocks t.count t.width };
}
