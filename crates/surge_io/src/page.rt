//! Texts of many pieces in few writes.
ghost use Rattle.std.specs.Prelude.{◌≡◌, ℕ, ◌≤◌, ◌++◌, ◌+◌, List, [], Option, length, take, OnErr};
ghost use Rattle.surge_io.specs.Pages.{Passes};
ghost use Rattle.surge_io.specs.Writings.{IsAdded, IsFinished};

use super::line::place;
use super::sinks::Sink;
use super::sources::Failed;
use super::writing::put;
use std::marker::Model;

/// How many bytes a page has.
const SIZE: usize = 8192;

/// The bytes that wait to be written, which contracts see as their list. What waits is not yet
/// written: `flush` ends a text.
#[derive(Drop)]
pub struct Page {
    bytes: [u8; SIZE],
    used: usize,
}

impl Model for Page {
    ghost Value = { List ℕ };

    ghost view = { λ p. take p.used p.bytes };

    ghost invariant = { λ p. p.used ≤ 8192 };
}

impl Page {
    /// A page in which nothing waits: the start of a text.
    pub fn new() -> Page
        ensures empty { result ≡ [] }
        ensures begins { (held : Option (List ℕ)) → Passes held held result [] }
    {
        Page {
            bytes: blank(),
            used: 0,
        }
    }

    /// Adds a piece to the text, and writes what waits where the piece doesn't fit behind it.
    /// `Failed` comes only where the sink's count of faults rose in this call, and then nothing
    /// waits any more.
    pub fn add<K: Sink>(&mut self, out: &mut K, piece: &[u8]) -> Result<(), Failed>
        ensures added { IsAdded K.held K.faults result out.old self.old out.new self.new piece.now }
        ensures lost { OnErr result (self.new ≡ []) }
    {
        if piece.len() <= self.room() {
            self.push(piece);
            return Ok(());
        }
        self.flush(out)?;
        if piece.len() <= SIZE {
            self.push(piece);
            return Ok(());
        }
        put(out, piece)
    }

    /// Writes what waits, so that the text is at an end. After it nothing waits.
    /// `Failed` comes only where the sink's count of faults rose in this call, and then a first
    /// part was written.
    pub fn flush<K: Sink>(&mut self, out: &mut K) -> Result<(), Failed>
        ensures finished { IsFinished K.held K.faults result out.old self.old out.new }
        ensures empty { self.new ≡ [] }
    {
        let written = put(out, &self.bytes[..self.used]);
        self.used = 0;
        written
    }

    // How many more bytes fit.
    fn room(&self) -> usize
        ensures { result + length self.now ≡ 8192 }
    {
        SIZE - self.used
    }

    // Lets a piece wait that fits.
    fn push(&mut self, piece: &[u8])
        requires fits { length self.old + length piece.now ≤ 8192 }
        ensures waits { self.new ≡ self.old ++ piece.now }
    {
        self.used = place(&mut self.bytes, self.used, piece);
    }
}

// The bytes of an empty page.
fn blank() -> [u8; SIZE] {
    [0; SIZE]
}
