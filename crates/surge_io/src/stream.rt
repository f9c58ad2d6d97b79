//! Sources and sinks over the streams of std: the edge to the outside, whose bytes nothing here
//! tells.
ghost use Rattle.std.specs.Io.KnownBytes.{ReadConsumes, WriteAppends};
ghost use Rattle.std.specs.Prelude.{◌≡◌, ◌<◌, ◌≤◌, None, length, IfOk, OnErr};
ghost use Rattle.surge_io.specs.Faults.{Rose, faults_after_read, faults_after_write};
ghost use Rattle.surge_io.specs.Readings.{Loses, given};
ghost use Rattle.surge_io.specs.Streams.{reader_of, read_faults, writer_of, write_faults};

use super::sinks::Sink;
use super::sources::{Failed, Source};
use std::io::{Read, Write};

/// A source over a reader. It tells no bytes, and counts each read that the reader fails.
#[derive(Drop)]
pub struct StreamSource<R: Read> {
    reader: R,
    faults: u64,
}

impl<R: Read> StreamSource<R> {
    /// A source over `reader`, with no fault yet.
    pub fn over(reader: R) -> StreamSource<R>
        ensures reader { reader_of result ≡ reader }
        ensures faults { read_faults result ≡ 0 }
    {
        StreamSource { reader, faults: 0 }
    }
}

impl<R: Read> Source for StreamSource<R> {
    ghost left = { λ _. None };

    ghost gives = { λ s room bytes t. Loses (R.remaining (reader_of s))
        (R.remaining (reader_of t)) room bytes };

    ghost faults = { λ s. read_faults s };

    fn read(&mut self, into: &mut [u8]) -> Result<usize, Failed>
        ensures count { IfOk result (λ n. n ≤ length into.old) }
        ensures gave { Loses (R.remaining (reader_of self.old)) (R.remaining (reader_of self.new))
            (length into.old) (given result into.new) }
        ensures cause { OnErr result (Rose (read_faults self.old) (read_faults self.new)) }
        ensures later { read_faults self.old ≤ read_faults self.new }

        // Beyond every source: what the reader tells of its own bytes, and when the count rises.
        ensures passed { ReadConsumes (R.remaining (reader_of self.old))
            (R.remaining (reader_of self.new)) result into.new }
        ensures counted { read_faults self.new ≡ faults_after_read result (read_faults self.old) }
    {
        match self.reader.read(into) {
            Ok(given) => Ok(given),
            Err(_) => {
                self.faults = self.faults.saturating_add(1);
                Err(Failed)
            }
        }
    }
}

/// A sink over a writer. It tells no bytes, and counts each write that the writer fails, or that
/// takes none of a nonempty piece.
#[derive(Drop)]
pub struct StreamSink<W: Write> {
    writer: W,
    faults: u64,
}

impl<W: Write> StreamSink<W> {
    /// A sink over `writer`, with no fault yet.
    pub fn over(writer: W) -> StreamSink<W>
        ensures writer { writer_of result ≡ writer }
        ensures faults { write_faults result ≡ 0 }
    {
        StreamSink { writer, faults: 0 }
    }
}

impl<W: Write> Sink for StreamSink<W> {
    ghost held = { λ _. None };

    ghost faults = { λ s. write_faults s };

    fn write(&mut self, bytes: &[u8]) -> Result<usize, Failed>
        ensures count { IfOk result (λ n. n ≤ length bytes.now) }
        ensures stuck { IfOk result
            (λ n. n ≡ 0 → 0 < length bytes.now →
            Rose (write_faults self.old) (write_faults self.new)) }
        ensures cause { OnErr result (Rose (write_faults self.old) (write_faults self.new)) }
        ensures later { write_faults self.old ≤ write_faults self.new }

        // Beyond every sink: what the writer tells of its own bytes, and when the count rises.
        ensures passed { WriteAppends (W.contents (writer_of self.old))
            (W.contents (writer_of self.new)) result bytes.now }
        ensures counted { write_faults self.new
            ≡ faults_after_write result bytes.now (write_faults self.old) }
    {
        match self.writer.write(bytes) {
            Ok(0) if !bytes.is_empty() => {
                self.faults = self.faults.saturating_add(1);
                Ok(0)
            }
            Ok(taken) => Ok(taken),
            Err(_) => {
                self.faults = self.faults.saturating_add(1);
                Err(Failed)
            }
        }
    }
}
