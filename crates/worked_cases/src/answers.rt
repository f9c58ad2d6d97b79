//! An answer, and how far it was compared.
use std::alloc::{AllocError, Global};

/// What the last call wrote, how much of it was compared, and an answer that was kept.
#[derive(Drop)]
pub(crate) struct Answer {
    pub(crate) bytes: Vec<u8>,
    pub(crate) kept: Vec<u8>,
    at: usize,
}

impl Answer {
    /// No answer yet.
    pub(crate) fn new(alloc: Global) -> Answer {
        Answer {
            bytes: Vec::new(alloc),
            kept: Vec::new(alloc),
            at: 0,
        }
    }

    /// Takes the bytes of a new answer.
    pub(crate) fn take(&mut self, bytes: &[u8]) -> Result<(), AllocError> {
        self.bytes.clear();
        self.at = 0;
        self.bytes.extend_from_slice(bytes)
    }

    /// Keeps the answer.
    pub(crate) fn keep(&mut self) -> Result<(), AllocError> {
        self.kept.clear();
        self.kept.extend_from_slice(&self.bytes)
    }

    /// Whether this piece is next, which is then passed.
    pub(crate) fn is_next(&mut self, piece: &[u8]) -> bool {
        if self.at > self.bytes.len() {
            return false;
        }
        let found = self.bytes[self.at..].starts_with(piece);
        self.at = self.at.saturating_add(piece.len());
        found
    }

    /// Whether all of it was compared.
    pub(crate) fn is_over(&self) -> bool {
        self.at == self.bytes.len()
    }

    /// How many of its lines begin with this text.
    pub(crate) fn lines_with(&self, piece: &[u8]) -> u64 {
        let mut count = 0u64;
        for line in self.bytes.split(|byte| *byte == b'\n') {
            if line.starts_with(piece) {
                count = count.saturating_add(1);
            }
        }
        count
    }

    /// Whether it has this text somewhere.
    pub(crate) fn has(&self, piece: &[u8]) -> bool {
        match (std::str::from_utf8(&self.bytes), std::str::from_utf8(piece)) {
            (Ok(text), Ok(piece)) => text.contains(piece),
            _ => false,
        }
    }
}
