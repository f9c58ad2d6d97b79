//! One line of text, built before it is written.
ghost use Rattle.std.specs.Prelude.{◌≡◌, ℕ, ◌≤◌, ◌<◌, ◌+◌, ◌++◌, ◌∷◌, List, [], length, take};
ghost use Rattle.std.specs.Prelude.{unsigned_abs};
ghost use Rattle.fixed_num.specs.Written.{written};
ghost use Rattle.surge_io.specs.Fields.{count_text};

use fixed_num::write_decimal;
use std::marker::Model;

/// How many bytes a line has at most.
pub const LINE_WIDTH: usize = 256;

/// A line of up to 256 bytes, which contracts see as their list.
#[derive(Drop)]
pub struct Line {
    bytes: [u8; LINE_WIDTH],
    used: usize,
}

impl Model for Line {
    ghost use Rattle.std.specs.Prelude.{ℕ, ◌≤◌, List, take};
    ghost use Rattle.surge_io.specs.declared.line.TheConstants.{LINE_WIDTH};

    ghost Value = { List ℕ };

    ghost view = { λ l. take l.used l.bytes };

    ghost invariant = { λ l. l.used ≤ LINE_WIDTH };
}

impl Line {
    /// A line with nothing in it.
    pub fn new() -> Line
        ensures { result ≡ [] }
    {
        Line {
            bytes: blank(),
            used: 0,
        }
    }

    /// Adds a piece at the end.
    pub fn push(&mut self, piece: &[u8])
        requires { length self.old + length piece.now ≤ LINE_WIDTH }
        ensures { self.new ≡ self.old ++ piece.now }
    {
        self.used = place(&mut self.bytes, self.used, piece);
    }

    /// Adds a blank and a field.
    pub fn add_field(&mut self, field: &[u8])
        requires { length self.old + 1 + length field.now ≤ LINE_WIDTH }
        ensures { self.new ≡ self.old ++ 32 ∷ field.now }
    {
        self.push(b" ");
        self.push(field);
    }

    /// Adds a blank and a number in the unit 10^-places, with all its places.
    pub fn add_number(&mut self, value: i128, places: u32)
        requires room { length self.old ≤ 233 }
        requires size { unsigned_abs value < 100_000_000_000_000_000_000 }
        requires places { places ≤ 9 }
        ensures text { self.new ≡ self.old ++ 32 ∷ written places value }
        ensures few { length self.new ≤ length self.old + 23 }
    {
        let mut digits = [0; 48];
        let count = write_decimal(value, places, &mut digits);
        self.add_field(&digits[..count]);
    }

    /// Adds a blank and a count, a step or a place.
    pub fn add_count(&mut self, count: u64)
        requires { length self.old ≤ 233 }
        ensures text { self.new ≡ self.old ++ 32 ∷ count_text count }
        ensures few { length self.new ≤ length self.old + 23 }
    {
        self.add_number(count as i128, 0);
    }

    /// The bytes of the line.
    pub fn as_bytes(&self) -> &[u8]
        ensures { result.now ≡ self.now }
    {
        &self.bytes[..self.used]
    }
}

// The bytes of an empty line.
fn blank() -> [u8; LINE_WIDTH] {
    [0; LINE_WIDTH]
}

/// Puts a piece over the bytes from a place on, which the piece doesn't overrun, and answers where
/// it ends.
pub(crate) fn place(bytes: &mut [u8], at: usize, piece: &[u8]) -> usize
    requires { at + length piece.now ≤ length bytes.old }
    ensures end { result ≡ at + length piece.now }
    ensures bytes { take result bytes.new ≡ take at bytes.old ++ piece.now }
{
    let end = at + piece.len();
    bytes[at..end].copy_from_slice(piece);
    end
}
