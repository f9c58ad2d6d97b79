//! Sources and a sink over memory, that fail where they are told to.
ghost use Rattle.std.specs.Prelude.{◌≡◌, ◌↔◌, ℕ, ◌+◌, ◌-◌, ◌<◌, ◌≤◌, min, List, [], ◌++◌, Option};
ghost use Rattle.std.specs.Prelude.{Some, length, take, drop, vec_len, vec_capacity, Contains};
ghost use Rattle.std.specs.Prelude.{IsTrue, IsOk, IsErr, IfOk, IfSome, OnOk, OnErr};
ghost use Rattle.surge_io.specs.Bytes.{Appends, Takes};
ghost use Rattle.surge_io.specs.Faults.{Rose, raised, faults_after_read, faults_after_write};
ghost use Rattle.surge_io.specs.Memory.{Feed, Store};
ghost use Rattle.surge_io.specs.Readings.{Loses, given};

use super::sinks::Sink;
use super::sources::{Failed, Source};
use std::alloc::{AllocError, Global};
use std::marker::Model;

/// A source over bytes in memory, which gives them in pieces and fails exactly at the calls that it
/// was told.
#[derive(Drop)]
pub struct MemorySource {
    bytes: Vec<u8>,
    at: usize,
    piece: usize,
    failing: Vec<u64>,
    calls: u64,
    faults: u64,
}

impl Model for MemorySource {
    ghost Value = { Feed };

    ghost view = { λ s. record {
      left = drop s.at s.bytes.items;
      piece = s.piece;
      failing = s.failing.items;
      calls = s.calls;
      faults = s.faults;
    } };

    ghost invariant = { λ s. (s.at ≤ vec_len s.bytes) × (1 ≤ s.piece) };
}

impl MemorySource {
    /// A source that gives `bytes`, at most `piece` of them in a read, and fails at the calls that
    /// `failing` lists, counted from 1.
    pub fn over(bytes: Vec<u8>, piece: usize, failing: Vec<u64>) -> MemorySource
        requires { 1 ≤ piece }
        ensures { result
            ≡ record {
              left = bytes.items;
              piece = piece;
              failing = failing.items;
              calls = 0;
              faults = 0;
            } }
    {
        MemorySource {
            bytes,
            at: 0,
            piece,
            failing,
            calls: 0,
            faults: 0,
        }
    }
}

impl Source for MemorySource {
    ghost left = { λ s. Some s.left };

    ghost gives = { λ s room bytes t. Loses (Some s.left) (Some t.left) room bytes };

    ghost faults = { λ s. s.faults };

    fn read(&mut self, into: &mut [u8]) -> Result<usize, Failed>
        ensures count { IfOk result (λ n. n ≤ length into.old) }
        ensures gave { Loses (Some self.old.left) (Some self.new.left) (length into.old)
            (given result into.new) }
        ensures bytes { IfOk result (λ n. Takes n into.new (Some self.new.left) self.old.left) }
        ensures unchanged { OnErr result (self.new.left ≡ self.old.left) }
        ensures cause { OnErr result (Rose self.old.faults self.new.faults) }
        ensures later { self.old.faults ≤ self.new.faults }

        // Beyond every source: which calls fail, and how many bytes the others give.
        ensures fails { IsErr result ↔ Contains self.old.failing (raised self.old.calls) }
        ensures given { IfOk result
            (λ n. n ≡ min self.old.piece (min (length into.old) (length self.old.left))) }
        ensures calls { self.new.calls ≡ raised self.old.calls }
        ensures counted { self.new.faults ≡ faults_after_read result self.old.faults }
        ensures piece { self.new.piece ≡ self.old.piece }
        ensures failing { self.new.failing ≡ self.old.failing }
    {
        self.calls = self.calls.saturating_add(1);
        if is_listed(&self.failing, self.calls) {
            self.faults = self.faults.saturating_add(1);
            return Err(Failed);
        }
        let given = give(&self.bytes[self.at..], self.piece, into);
        self.at += given;
        Ok(given)
    }
}

/// A source over bytes in memory that never fails, so its count of faults is always 0.
#[derive(Drop)]
pub struct SteadySource {
    bytes: Vec<u8>,
    at: usize,
}

impl Model for SteadySource {
    ghost Value = { List ℕ };

    ghost view = { λ s. drop s.at s.bytes.items };

    ghost invariant = { λ s. s.at ≤ vec_len s.bytes };
}

impl SteadySource {
    /// A source that gives `bytes`.
    pub fn over(bytes: Vec<u8>) -> SteadySource
        ensures { result ≡ bytes.items }
    {
        SteadySource { bytes, at: 0 }
    }
}

impl Source for SteadySource {
    ghost left = { λ s. Some s };

    ghost gives = { λ s room bytes t. Loses (Some s) (Some t) room bytes };

    ghost faults = { λ _. 0 };

    fn read(&mut self, into: &mut [u8]) -> Result<usize, Failed>
        ensures count { IfOk result (λ n. n ≤ length into.old) }
        ensures gave { Loses (Some self.old) (Some self.new) (length into.old)
            (given result into.new) }
        ensures bytes { IfOk result (λ n. Takes n into.new (Some self.new) self.old) }

        // Beyond every source: no call fails, and each gives as many bytes as fit.
        ensures succeeds { IsOk result }
        ensures given { IfOk result (λ n. n ≡ min (length into.old) (length self.old)) }
    {
        let count = give(&self.bytes[self.at..], into.len(), into);
        self.at += count;
        Ok(count)
    }
}

/// A sink over memory, whose room is taken at once, and which fails exactly at the calls that it
/// was told.
#[derive(Drop)]
pub struct MemorySink {
    bytes: Vec<u8>,
    room: usize,
    failing: Vec<u64>,
    calls: u64,
    faults: u64,
}

impl Model for MemorySink {
    ghost Value = { Store };

    ghost view = { λ s. record {
      held = s.bytes.items;
      room = s.room;
      failing = s.failing.items;
      calls = s.calls;
      faults = s.faults;
    } };

    ghost invariant = { λ s. (vec_len s.bytes ≤ s.room) × (s.room ≤ vec_capacity s.bytes) };
}

impl MemorySink {
    /// An empty sink with room for `room` bytes, which fails at the calls that `failing` lists,
    /// counted from 1.
    pub fn make(alloc: Global, room: usize, failing: Vec<u64>) -> Result<MemorySink, AllocError>
        ensures { IfOk result (λ sink. sink
            ≡ record { held = []; room = room; failing = failing.items; calls = 0; faults = 0 }) }
    {
        let bytes = Vec::with_capacity(alloc, room)?;
        Ok(MemorySink {
            bytes,
            room,
            failing,
            calls: 0,
            faults: 0,
        })
    }

    /// The bytes that it holds.
    pub fn bytes(&self) -> &[u8]
        ensures { result.now ≡ self.now.held }
    {
        &self.bytes
    }
}

impl Sink for MemorySink {
    ghost held = { λ s. Some s.held };

    ghost faults = { λ s. s.faults };

    fn write(&mut self, bytes: &[u8]) -> Result<usize, Failed>
        ensures count { IfOk result (λ n. n ≤ length bytes.now) }
        ensures appended { IfOk result
            (λ n. Appends (Some self.old.held) (Some self.new.held) (take n bytes.now)) }
        ensures stuck { IfOk result
            (λ n. n ≡ 0 → 0 < length bytes.now → Rose self.old.faults self.new.faults) }
        ensures unchanged { OnErr result (Some self.new.held ≡ Some self.old.held) }
        ensures cause { OnErr result (Rose self.old.faults self.new.faults) }
        ensures later { self.old.faults ≤ self.new.faults }

        // Beyond every sink: which calls fail, and how many bytes the others take.
        ensures fails { IsErr result ↔ Contains self.old.failing (raised self.old.calls) }
        ensures taken { IfOk result
            (λ n. n ≡ min (length bytes.now) (self.old.room - length self.old.held)) }
        ensures calls { self.new.calls ≡ raised self.old.calls }
        ensures counted { self.new.faults ≡ faults_after_write result bytes.now self.old.faults }
        ensures room { self.new.room ≡ self.old.room }
        ensures failing { self.new.failing ≡ self.old.failing }
    {
        self.calls = self.calls.saturating_add(1);
        if is_listed(&self.failing, self.calls) {
            self.faults = self.faults.saturating_add(1);
            return Err(Failed);
        }
        let taken = bytes.len().min(self.room - self.bytes.len());
        append(&mut self.bytes, &bytes[..taken]);
        if taken == 0 && !bytes.is_empty() {
            self.faults = self.faults.saturating_add(1);
        }
        Ok(taken)
    }
}

// Whether the list of failing calls has this one.
fn is_listed(failing: &[u64], call: u64) -> bool
    ensures { IsTrue result ↔ Contains failing.now call }
{
    failing.contains(&call)
}

// Puts a first part of `left`, of at most `most` bytes, into the front of `into`, and answers its
// length.
fn give(left: &[u8], most: usize, into: &mut [u8]) -> usize
    ensures length { result ≡ min most (min (length into.old) (length left.now)) }
    ensures front { take result into.new ≡ take result left.now }
{
    let count = most.min(into.len().min(left.len()));
    into[..count].copy_from_slice(&left[..count]);
    count
}

// Appends to a vector that has the capacity for it.
fn append(bytes: &mut Vec<u8>, piece: &[u8])
    requires { vec_len bytes.old + length piece.now ≤ vec_capacity bytes.old }
    ensures items { bytes.new.items ≡ bytes.old.items ++ piece.now }
    ensures capacity { vec_capacity bytes.old ≤ vec_capacity bytes.new }
{
    let _ = bytes.extend_from_slice(piece);
}
