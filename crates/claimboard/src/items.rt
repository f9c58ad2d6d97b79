//! What an item is to a board.
ghost use Rattle.std.specs.Prelude.{◌≡◌, ℕ, Bool};

/// An item of a board, which moves from worker to worker as one owned value.
pub trait Item: Drop + Send {
    /// What the items of one board are good for.
    type Tag: Drop + Send + Sync;

    ghost number_of: { Self → ℕ };

    ghost is_finished: { Self → Bool };

    ghost is_good: { Self.Tag → Self → Type 0 };

    /// The item's number, which is its place on the board.
    fn number(&self) -> u32
        ensures { result ≡ number_of self.now };

    /// Whether the item is finished.
    fn finished(&self) -> bool
        ensures { result ≡ is_finished self.now };
}
