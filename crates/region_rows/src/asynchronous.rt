//! Rows of asynchronous runs: histories as they are opened and as they are used up, entries that a
//! gate counts, and two far regions that meet.
use crate::texts::{CAVITY, CHAIN, SEVEN};
use endhistory::History;
use histories::{Ends, open_histories};
use netfile::read_case;
use regionrun::{Gate, OpenGate, OpenStub, Survey, Workers, make_strands};
use regions::layout;
use scheme::{Physics, prepare};
use std::alloc::{AllocError, Global};
use std::sync::Wait;
use std::sync::atomic::{AtomicU64, Ordering};
use std::test::Fail;
use std::thread::Threads;
use surge_io::{MemorySink, MemorySource};
use surge_top::{Status, surge};
use workers::run_async;

// How long each of two regions waits for the other at most.
const TURNS: u64 = 50_000_000;

// A gate at which two regions wait for each other: region 0 of strand 0, and region 2 of strand 42,
// each for so many turns at most. It counts the entries, and which of the two saw the other come.
#[derive(Drop)]
struct Meeting {
    first: AtomicU64,
    last: AtomicU64,
    met: AtomicU64,
}

impl Meeting {
    fn new() -> Meeting {
        Meeting {
            first: AtomicU64::new(0),
            last: AtomicU64::new(0),
            met: AtomicU64::new(0),
        }
    }

    // Comes to the gate, and waits until the other has come.
    fn meet(&self, own: &AtomicU64, other: &AtomicU64) {
        own.store(1, Ordering::SeqCst);
        for _ in 0..TURNS {
            if other.load(Ordering::SeqCst) == 1 {
                self.met.fetch_add(1, Ordering::SeqCst);
                return;
            }
        }
    }
}

impl Gate for Meeting {
    type Stub = OpenStub;

    fn begin(&mut self, strand: u32) -> OpenStub {
        OpenStub { strand, entered: 0 }
    }

    fn enter(&self, stub: OpenStub) -> OpenStub {
        if stub.strand == 0 && stub.entered == 0 {
            self.meet(&self.first, &self.last);
        }
        if stub.strand == 42 && stub.entered == 2 {
            self.meet(&self.last, &self.first);
        }
        OpenStub {
            strand: stub.strand,
            entered: stub.entered + 1,
        }
    }
}

// A gate that delays each entry of one strand by so many turns.
#[derive(Drop)]
struct LastGate {
    strand: u32,
    turns: u64,
    counted: AtomicU64,
}

impl Gate for LastGate {
    type Stub = OpenStub;

    fn begin(&mut self, strand: u32) -> OpenStub {
        OpenStub { strand, entered: 0 }
    }

    fn enter(&self, stub: OpenStub) -> OpenStub {
        if stub.strand == self.strand {
            for _ in 0..self.turns {
                self.counted.fetch_add(1, Ordering::SeqCst);
            }
        }
        OpenStub {
            strand: stub.strand,
            entered: stub.entered + 1,
        }
    }
}

// What these words write over a text, with a gate, and the status.
fn written<R: Threads + Wait + AllocGlobal + Sync, G: Gate + Sync>(
    rt: &R,
    words: &[&str],
    text: &[u8],
    gate: &mut G,
) -> Result<(Status, MemorySink), AllocError> {
    let alloc: Global = rt.alloc();
    let mut source = MemorySource::over(text.to_vec(alloc)?, 64, Vec::new(alloc));
    let mut sink = MemorySink::make(alloc, 20_000, Vec::new(alloc))?;
    let status = surge(rt, words, &mut source, &mut sink, gate);
    Ok((status, sink))
}

// How often the two saw each other under these words, and the status.
fn met<R: Threads + Wait + AllocGlobal + Sync>(
    rt: &R,
    words: &[&str],
) -> Result<(Status, u64), AllocError> {
    let mut gate = Meeting::new();
    let (status, _) = written(rt, words, CHAIN, &mut gate)?;
    Ok((status, gate.met.load(Ordering::SeqCst)))
}

// Two workers: one is held at the first strand, and the other goes on to the last.
#[test]
fn far_regions_meet_in_a_run(rt: HostRuntime) -> Result<(), Fail> {
    let words = ["surge", "run", "--workers", "2", "--slots", "4"];
    let (status, met) = met(&rt, &words)?;
    assert_eq!(&rt; status, Status::Done);
    assert_eq!(&rt; met, 2);
    Ok(())
}

// In rounds, on one thread or two, region 2 of any strand comes after region 0 of all: none waits
// long enough.
#[test]
fn far_regions_do_not_meet_in_rounds(rt: HostRuntime) -> Result<(), Fail> {
    let (status, alone) = met(&rt, &["surge", "rounds", "--workers", "1"])?;
    assert_eq!(&rt; status, Status::Done);
    assert_eq!(&rt; alone, 1);
    let (status, beside) = met(&rt, &["surge", "rounds", "--workers", "2"])?;
    assert_eq!(&rt; status, Status::Done);
    assert_eq!(&rt; beside, 1);
    Ok(())
}

// The pipe's two ends and its middle are the strands 0 to 2: whichever comes last each time, 64 workers
// with one slot and windows of one step write what one thread writes in turns. At each entry of the
// strand the gate was passed slowly: 13 regions of an end, and 14 of the middle.
#[test]
fn any_strand_may_come_last(rt: HostRuntime) -> Result<(), Fail> {
    let words = [
        "surge",
        "run",
        "--workers",
        "64",
        "--slots",
        "1",
        "--window",
        "1",
    ];
    let (done, wanted) = written(
        &rt,
        &["surge", "rounds", "--workers", "1"],
        CAVITY,
        &mut OpenGate,
    )?;
    assert_eq!(&rt; done, Status::Done);
    for strand in 0..3 {
        let mut gate = LastGate {
            strand,
            turns: 10_000,
            counted: AtomicU64::new(0),
        };
        let (status, found) = written(&rt, &words, CAVITY, &mut gate)?;
        assert_eq!(&rt; status, Status::Done);
        assert!(&rt; found.bytes() == wanted.bytes());
        let entries = if strand == 2 { 14 } else { 13 };
        assert_eq!(&rt; gate.counted.load(Ordering::SeqCst), entries * 10_000);
    }
    Ok(())
}

// Whether so many blocks are published in a history, and each of its readers has passed as many.
fn is_used_up(history: &History, blocks: u64) -> bool {
    for reader in 0..history.sizes.readers {
        if history.passed(reader as u32) != blocks {
            return false;
        }
    }
    history.published() == blocks
}

// How many readers a strand has.
fn readers_of(ends: &Ends, strand: usize) -> Option<usize> {
    match ends.readers.get(strand) {
        Some(readers) => Some(readers.len()),
        None => None,
    }
}

// By hand: a pipe of 7 reaches, cut with windows of 4 steps, has a strand at each end and a section
// between them; each end has one side, the section two.
#[test]
fn histories_are_opened_and_used_up(rt: HostRuntime) -> Result<(), Fail> {
    let alloc = rt.alloc();
    let (case, mesh) = read_case(alloc, SEVEN)?;
    if !case.probes.as_slice().is_empty() {
        return Err(Fail::from("a probe"));
    }
    let table = prepare(alloc, &case, &mesh)?;
    let law = Physics::with_table(&case, &mesh, &table);
    let cut = layout(alloc, &case, &mesh, 4)?;
    let ends = open_histories(alloc, &law, &cut, &mesh, 1)?;
    assert_eq!(&rt; ends.histories.len(), 3);
    assert_eq!(&rt; ends.writers.len(), 3);
    assert_eq!(&rt; readers_of(&ends, 0), Some(1));
    assert_eq!(&rt; readers_of(&ends, 1), Some(1));
    assert_eq!(&rt; readers_of(&ends, 2), Some(2));
    let probes: Vec<u64> = Vec::new(alloc);
    let survey = Survey {
        case: &case,
        mesh: &mesh,
        layout: &cut,
        probes: &probes,
    };
    let mut gate = OpenGate;
    let strands = make_strands(alloc, &law, &survey, &mut gate)?;
    let workers = Workers { rt: &rt, count: 2 };
    let ran = run_async(&workers, &law, &survey, strands, 1, &gate)?;
    let mut computed = 0;
    for strand in &ran.strands {
        computed = strand
            .computed()
            .saturating_add(10u64.saturating_mul(computed));
    }
    assert_eq!(&rt; computed, 223);
    assert_eq!(&rt; ran.ends.histories.len(), 3);
    for history in &ran.ends.histories {
        assert!(&rt; is_used_up(history, 2));
    }
    Ok(())
}
