//! Where bytes come from.
ghost use Rattle.std.specs.Prelude.{◌≡◌, ℕ, ◌≤◌, List, Option, length, IfOk, IfSome, OnErr};
ghost use Rattle.surge_io.specs.Bytes.{Takes};
ghost use Rattle.surge_io.specs.Faults.{Rose};
ghost use Rattle.surge_io.specs.Readings.{given};

use thiserror::Error;

/// The one fault of the outside: a read or a write that didn't happen.
#[derive(Clone, Copy, Debug, PartialEq, Eq, Error)]
#[error("the outside failed")]
pub struct Failed;

/// A source of bytes, with the bytes that it has left, where it tells them, with what its reads
/// give, whether it tells them or not, and with a count of faults that never falls.
pub trait Source {
    ghost left: { Self → Option (List ℕ) };

    // A read with room for so many bytes took the one state to the other, and gave these bytes or
    // failed.
    ghost gives: { Self → ℕ → Option (List ℕ) → Self → Type 0 };

    ghost faults: { Self → ℕ };

    /// Puts the next bytes into the front of `into` and answers how many; 0 for an `into` with room
    /// is the end. `Failed` comes only where the count of faults rose in this call, and then no
    /// byte was taken.
    fn read(&mut self, into: &mut [u8]) -> Result<usize, Failed>
        ensures count { IfOk result (λ n. n ≤ length into.old) }
        ensures gave { gives self.old (length into.old) (given result into.new) self.new }
        ensures bytes { IfOk result
            (λ n. IfSome (left self.old) (Takes n into.new (left self.new))) }
        ensures unchanged { OnErr result (left self.new ≡ left self.old) }
        ensures cause { OnErr result (Rose (faults self.old) (faults self.new)) }
        ensures later { faults self.old ≤ faults self.new };
}
