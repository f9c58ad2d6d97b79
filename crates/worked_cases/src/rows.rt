//! A row of the table, gone through line by line.
use crate::answers::Answer;
use crate::calls::{Outside, answer, rule, written};
use crate::texts::{bytes_of, cut, number, numbered};
use std::alloc::{AllocError, Global};
use std::sync::Wait;
use std::thread::Threads;

/// What a line of the table said.
pub(crate) enum Told {
    /// A row begins.
    Begins,
    /// Something to be given.
    Nothing,
    /// Something that is wanted, and is so.
    AsWanted,
    /// Something that is wanted, and isn't so, or a line that means nothing.
    Otherwise,
}

/// The row so far: its text, what stands outside, and the answer.
#[derive(Drop)]
pub(crate) struct Row {
    alloc: Global,
    text: Vec<u8>,
    outside: Outside,
    answer: Answer,
}

impl Row {
    /// A row with no text, no fault outside, and room for an answer of 20,000 bytes.
    pub(crate) fn new(alloc: Global) -> Row {
        Row {
            alloc,
            text: Vec::new(alloc),
            outside: Outside {
                pieces: 8,
                reads: Vec::new(alloc),
                writes: Vec::new(alloc),
                room: 20_000,
            },
            answer: Answer::new(alloc),
        }
    }

    /// Goes on by a line of the table.
    pub(crate) fn go_on<R: Threads + Wait + AllocGlobal + Sync>(
        &mut self,
        rt: &R,
        line: &str,
    ) -> Result<Told, AllocError> {
        let (word, rest) = cut(line);
        match word {
            "" | "#" => Ok(Told::Nothing),
            "row" => {
                self.begin();
                Ok(Told::Begins)
            }
            "exit" => Ok(judged(self.runs(rt, rest)?)),
            "each_read" => Ok(judged(self.fails_by_reads(rt, rest)?)),
            "each_write" => Ok(judged(self.fails_by_writes(rt, rest)?)),
            "cuts" => Ok(judged(self.cuts(rt, rest)?)),
            "|"
            | "."
            | "times"
            | "fill"
            | "pieces"
            | "reads"
            | "writes"
            | "room"
            | "keep"
            | "then" => {
                self.give(word, rest)?;
                Ok(Told::Nothing)
            }
            _ => Ok(judged(self.is_wanted(word, rest)?)),
        }
    }

    // Begins a row anew; what was kept stays.
    fn begin(&mut self) {
        self.text.clear();
        self.outside.pieces = 8;
        self.outside.reads.clear();
        self.outside.writes.clear();
        self.outside.room = 20_000;
    }

    // Takes in something that is given.
    fn give(&mut self, word: &str, rest: &str) -> Result<(), AllocError> {
        match word {
            "|" | "." => self.add(rest, word == "|"),
            "times" => self.repeat(rest),
            "pieces" => {
                self.outside.pieces = number(rest).min(400_000) as usize;
                Ok(())
            }
            "fill" => self.fill(number(rest).min(10_000_000) as usize),
            "reads" => Ok(self.outside.reads.push(number(rest))?),
            "writes" => Ok(self.outside.writes.push(number(rest))?),
            "keep" => self.answer.keep(),
            "then" => {
                self.text.clear();
                self.text.extend_from_slice(&self.answer.bytes)
            }
            _ => {
                self.outside.room = number(rest).min(400_000) as usize;
                Ok(())
            }
        }
    }

    // Adds a piece to the text, with or without a line's end.
    fn add(&mut self, piece: &str, ends: bool) -> Result<(), AllocError> {
        self.text.extend_from_slice(&bytes_of(self.alloc, piece)?)?;
        if ends {
            self.text.push(b'\n')?;
        }
        Ok(())
    }

    // Adds a line or a piece for each number from one to another.
    fn repeat(&mut self, rest: &str) -> Result<(), AllocError> {
        let (first, rest) = cut(rest);
        let (last, rest) = cut(rest);
        let (word, piece) = cut(rest);
        for at in number(first)..number(last).min(10_000).saturating_add(1) {
            self.add(&numbered(self.alloc, piece, at)?, word == "|")?;
        }
        Ok(())
    }

    // Makes the text one of so many number signs.
    fn fill(&mut self, count: usize) -> Result<(), AllocError> {
        self.text.clear();
        self.text.resize(count, b'#')
    }

    // Each of so many reads fails in turn under the words behind their number: whether nothing is written
    // each time, and the program ends with a read fault; and no read comes after these.
    fn fails_by_reads<R: Threads + Wait + AllocGlobal + Sync>(
        &mut self,
        rt: &R,
        rest: &str,
    ) -> Result<bool, AllocError> {
        let (count, rest) = cut(rest);
        let count = number(count).min(10_000);
        let words = words_of(self.alloc, rest)?;
        for at in 1..count.saturating_add(1) {
            self.outside.reads.clear();
            self.outside.reads.push(at)?;
            let (status, sink) = answer(rt, &words, &self.text, &self.outside)?;
            if status.number() != 4 || !sink.bytes().is_empty() {
                return Ok(false);
            }
        }
        self.outside.reads.clear();
        self.outside.reads.push(count.saturating_add(1))?;
        let (status, sink) = answer(rt, &words, &self.text, &self.outside)?;
        self.outside.reads.clear();
        Ok(status.number() == 0 && sink.bytes() == self.answer.kept.as_slice())
    }

    // Each write fails in turn under some words: whether the program ends with a write fault and a first part of
    // what was kept each time, until there is no such write and all of it is written.
    fn fails_by_writes<R: Threads + Wait + AllocGlobal + Sync>(
        &mut self,
        rt: &R,
        rest: &str,
    ) -> Result<bool, AllocError> {
        let words = words_of(self.alloc, rest)?;
        for at in 1..10_000u64 {
            self.outside.writes.clear();
            self.outside.writes.push(at)?;
            let (status, sink) = answer(rt, &words, &self.text, &self.outside)?;
            self.outside.writes.clear();
            if status.number() == 0 {
                return Ok(at > 1 && sink.bytes() == self.answer.kept.as_slice());
            }
            if status.number() != 5 || !self.answer.kept.starts_with(sink.bytes()) {
                return Ok(false);
            }
        }
        Ok(false)
    }

    // Whether `check` ends with a number and writes a line for the first so many to so many bytes of the text.
    fn cuts<R: Threads + Wait + AllocGlobal + Sync>(
        &mut self,
        rt: &R,
        rest: &str,
    ) -> Result<bool, AllocError> {
        let (first, rest) = cut(rest);
        let (last, rest) = cut(rest);
        let (wanted, line) = cut(rest);
        let mut line = bytes_of(self.alloc, line)?;
        line.push(b'\n')?;
        for at in number(first)..number(last).min(10_000).saturating_add(1) {
            let text = &self.text[..self.text.len().min(at as usize)];
            let (status, sink) = answer(rt, &["surge", "check"], text, &self.outside)?;
            if status.number() as u64 != number(wanted) || sink.bytes() != line.as_slice() {
                return Ok(false);
            }
        }
        Ok(true)
    }

    // Runs the words behind a number over the text: whether that is the exit number.
    fn runs<R: Threads + Wait + AllocGlobal + Sync>(
        &mut self,
        rt: &R,
        rest: &str,
    ) -> Result<bool, AllocError> {
        let (wanted, rest) = cut(rest);
        let words = words_of(self.alloc, rest)?;
        let (status, sink) = answer(rt, &words, &self.text, &self.outside)?;
        self.answer.take(sink.bytes())?;
        Ok(status.number() as u64 == number(wanted))
    }

    // Whether something that is wanted is so; false for a word that means nothing.
    fn is_wanted(&mut self, word: &str, rest: &str) -> Result<bool, AllocError> {
        match word {
            "=" | "-" => {
                let mut piece = bytes_of(self.alloc, rest)?;
                if word == "=" {
                    piece.push(b'\n')?;
                }
                Ok(self.answer.is_next(&piece))
            }
            "over" => Ok(self.answer.is_over()),
            "has" => Ok(self.answer.has(&bytes_of(self.alloc, rest)?)),
            "ends" => Ok(
                self.answer
                    .bytes
                    .as_slice()
                    .ends_with(&bytes_of(self.alloc, rest)?),
            ),
            "same" => Ok(self.answer.bytes == self.answer.kept),
            "lines" => {
                let (wanted, piece) = cut(rest);
                Ok(self.answer.lines_with(&bytes_of(self.alloc, piece)?) == number(wanted))
            }
            "written" => self.is_written(),
            "rule" => self.breaks(rest),
            _ => Ok(false),
        }
    }

    // Whether the case of the text is accepted and written, which is then the answer.
    fn is_written(&mut self) -> Result<bool, AllocError> {
        match written(self.alloc, &self.text)? {
            Some(sink) => {
                self.answer.take(sink.bytes())?;
                Ok(true)
            }
            None => Ok(false),
        }
    }

    // Whether a line breaks the rule that is named: a version, the line's number, the rule, and the line.
    fn breaks(&self, rest: &str) -> Result<bool, AllocError> {
        let (version, rest) = cut(rest);
        let (line, rest) = cut(rest);
        let (wanted, text) = cut(rest);
        let text = bytes_of(self.alloc, text)?;
        let found = rule(self.alloc, number(version), number(line), &text)?;
        Ok(found == number(wanted))
    }
}

// The words of a line.
fn words_of(alloc: Global, line: &str) -> Result<Vec<&str>, AllocError> {
    let mut words = Vec::new(alloc);
    for word in line.split_whitespace() {
        words.push(word)?;
    }
    Ok(words)
}

// What is told of something that is wanted.
fn judged(so: bool) -> Told {
    if so { Told::AsWanted } else { Told::Otherwise }
}
