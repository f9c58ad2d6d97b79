//! Rows of the region engine: which strands are begun and which regions are entered, in what order.
use crate::texts::{CHAIN, SEVEN};
use regionrun::{Gate, OpenStub};
use std::alloc::{AllocError, Global};
use std::sync::Wait;
use std::sync::atomic::{AtomicU64, Ordering};
use std::test::Fail;
use std::thread::Threads;
use surge_io::{MemorySink, MemorySource};
use surge_top::{Status, surge};

// A gate for one thread. It counts the strands that are begun in order, and the entries, and keeps the digits of the last
// entries: one more than the number of the strand.
#[derive(Drop)]
struct Counting {
    begun: u32,
    entered: AtomicU64,
    order: AtomicU64,
}

impl Gate for Counting {
    type Stub = OpenStub;

    fn begin(&mut self, strand: u32) -> OpenStub {
        if strand == self.begun {
            self.begun = self.begun.saturating_add(1);
        }
        OpenStub { strand, entered: 0 }
    }

    fn enter(&self, stub: OpenStub) -> OpenStub {
        let digit = (stub.strand as u64).saturating_add(1);
        let entered = self.entered.load(Ordering::SeqCst).saturating_add(1);
        self.entered.store(entered, Ordering::SeqCst);
        let order = self.order.load(Ordering::SeqCst).saturating_mul(10);
        self.order
            .store(order.saturating_add(digit), Ordering::SeqCst);
        OpenStub {
            strand: stub.strand,
            entered: stub.entered + 1,
        }
    }
}

// The gate after these words over this text, and the status.
fn passed<R: Threads + Wait + AllocGlobal + Sync>(
    rt: &R,
    words: &[&str],
    text: &[u8],
) -> Result<(Status, Counting), AllocError> {
    let alloc: Global = rt.alloc();
    let mut source = MemorySource::over(text.to_vec(alloc)?, 64, Vec::new(alloc));
    let mut sink = MemorySink::make(alloc, 20_000, Vec::new(alloc))?;
    let mut gate = Counting {
        begun: 0,
        entered: AtomicU64::new(0),
        order: AtomicU64::new(0),
    };
    let status = surge(rt, words, &mut source, &mut sink, &mut gate);
    Ok((status, gate))
}

// By hand: nodes 0 and 1 have two regions and the section, 2, has three; in each region number the
// section goes before the nodes.
#[test]
fn one_section_is_entered_before_its_nodes(rt: HostRuntime) -> Result<(), Fail> {
    let (status, gate) = passed(&rt, &["surge", "rounds", "--window", "4"], SEVEN)?;
    assert_eq!(&rt; status, Status::Done);
    assert_eq!(&rt; gate.begun, 3);
    assert_eq!(&rt; gate.order.load(Ordering::SeqCst), 3_123_123);
    Ok(())
}

// By hand: windows of 2 steps make 5 windows; 22 stations of 5 regions and 21 sections of 6. In turns
// and by one worker that goes over the strands.
#[test]
fn each_region_is_entered_once(rt: HostRuntime) -> Result<(), Fail> {
    for command in ["rounds", "run"] {
        let (status, gate) = passed(&rt, &["surge", command, "--workers", "1"], CHAIN)?;
        assert_eq!(&rt; status, Status::Done);
        assert_eq!(&rt; gate.begun, 43);
        assert_eq!(&rt; gate.entered.load(Ordering::SeqCst), 236);
    }
    Ok(())
}
