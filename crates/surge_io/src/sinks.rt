//! Where bytes go.
ghost use Rattle.std.specs.Prelude.{◌≡◌, ℕ, ◌<◌, ◌≤◌, List, Option, length, take, IfOk, OnErr};
ghost use Rattle.surge_io.specs.Bytes.{Appends};
ghost use Rattle.surge_io.specs.Faults.{Rose};

use super::sources::Failed;

/// A sink of bytes, with the bytes that it holds, where it tells them, and a count of faults that
/// never falls.
pub trait Sink {
    ghost held: { Self → Option (List ℕ) };

    ghost faults: { Self → ℕ };

    /// Appends a first part of `bytes` and answers its length; 0 for a nonempty `bytes` raises the
    /// count of faults. `Failed` comes only where the count rose in this call, and then nothing was
    /// appended.
    fn write(&mut self, bytes: &[u8]) -> Result<usize, Failed>
        ensures count { IfOk result (λ n. n ≤ length bytes.now) }
        ensures appended { IfOk result
            (λ n. Appends (held self.old) (held self.new) (take n bytes.now)) }
        ensures stuck { IfOk result
            (λ n. n ≡ 0 → 0 < length bytes.now → Rose (faults self.old) (faults self.new)) }
        ensures unchanged { OnErr result (held self.new ≡ held self.old) }
        ensures cause { OnErr result (Rose (faults self.old) (faults self.new)) }
        ensures later { faults self.old ≤ faults self.new };
}
