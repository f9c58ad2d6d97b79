//! A history call by call, and a writer and three readers, each in a thread of its own.
ghost use Rattle.std.specs.Prelude.{◌≡◌, ◌+◌, ◌*◌, ◌<◌, ◌≤◌, true, length, All, IfOk};
ghost use Rattle.endhistory.specs.Blocks.{block, count_blocks};
ghost use Rattle.endhistory.specs.Seats.{IsAt, IsNewReader, IsNewWriter};
ghost use Rattle.endhistory.specs.Seats.{writing, reading, blocks_of};
ghost use Rattle.endhistory.specs.Steps.{IsFree};

use endhistory::{CountTag, History, Look, Reader, Vacancy, Writer};
use std::alloc::{AllocError, Global};
use std::sync::Wait;
use std::test::Fail;
use std::thread;
use std::thread::Threads;

const TAG: CountTag = CountTag {
    base: 100,
    width: 2,
    count: 2,
};

// Whether the reader is told that its next block is ready, and fetches these words.
fn reads(history: &History, reader: &mut Reader, want: [u64; 2]) -> bool
    requires at { IsAt history.now.table.shared.table_id history.now.sizes reader.old.seat }
    requires next { (history.now.sizes.width ≡ 2) × ((reading reader.old.seat).taken ≡ 0) }
    ensures at { IsAt history.now.table.shared.table_id history.now.sizes reader.new.seat }
    ensures passed { (reading reader.new.seat).taken ≡ 0 }
{
    let mut words = [0; 2];
    match history.look(reader) {
        Look::Ready => {
            history.fetch(reader, &mut words);
            history.pass(reader);
            words == want
        }
        Look::NotYet { published: _ } => false,
    }
}

// Whether the writer is told that it may publish its next block, which is these words.
fn writes(history: &History, writer: &mut Writer, words: &[u64]) -> bool
    requires at { IsAt history.now.table.shared.table_id history.now.sizes writer.old.seat }
    requires words { ((writing writer.old.seat).next < length (blocks_of writer.old.seat))
        × (words.now ≡ block (blocks_of writer.old.seat) (writing writer.old.seat).next) }
    ensures at { IsAt history.now.table.shared.table_id history.now.sizes writer.new.seat }
    ensures blocks { blocks_of writer.new.seat ≡ blocks_of writer.old.seat }
    ensures next { result ≡ true →
        (writing writer.new.seat).next ≡ (writing writer.old.seat).next + 1 }
{
    match history.vacancy(writer) {
        Vacancy::Free => {
            history.publish(writer, words);
            true
        }
        Vacancy::Held {
            reader: _,
            passed: _,
        } => false,
    }
}

#[test]
fn a_history_call_by_call(rt: HostRuntime) -> Result<(), Fail> {
    let (history, mut writer, mut readers) = History::make(rt.alloc(), &TAG, 1, 2, 2)?;
    let mut second = readers.pop().ok_or("two readers")?;
    let mut first = readers.pop().ok_or("two readers")?;
    assert!(rt; history.look(&mut first) == Look::NotYet { published: 0 });
    assert!(rt; writes(&history, &mut writer, &[100, 101]));
    assert!(rt;
        history.vacancy(&mut writer)
            == Vacancy::Held {
                reader: 0,
                passed: 0
            }
    );
    assert!(rt; reads(&history, &mut first, [100, 101]));
    assert!(rt;
        history.vacancy(&mut writer)
            == Vacancy::Held {
                reader: 1,
                passed: 0
            }
    );
    assert!(rt; reads(&history, &mut second, [100, 101]));
    assert!(rt; writes(&history, &mut writer, &[102, 103]));
    assert!(rt; reads(&history, &mut first, [102, 103]));
    assert!(rt; history.look(&mut first) == Look::NotYet { published: 2 });
    Ok(())
}

const LONG: CountTag = CountTag {
    base: 100,
    width: 8,
    count: 10_000,
};

// The words of one block of the tag.
fn count_words(tag: CountTag, number: u64, words: &mut [u64])
    requires tag { (tag.width ≡ 8) × (tag.base ≤ 100) × (tag.count ≤ 10000) }
    requires inside { (number < tag.count) × (length words.old ≡ 8) }
    ensures { words.new ≡ block (count_blocks tag.base tag.width tag.count) number }
{
    let start = tag.base + number * 8;
    for i in 0..words.len() {
        words[i] = start + i as u64;
    }
}

// Waits until the writer may publish its next block.
fn wait_free(rt: &impl Wait, history: &History, writer: &mut Writer)
    requires at { IsAt history.now.table.shared.table_id history.now.sizes writer.old.seat }
    ensures at { IsAt history.now.table.shared.table_id history.now.sizes writer.new.seat }
    ensures blocks { blocks_of writer.new.seat ≡ blocks_of writer.old.seat }
    ensures next { (writing writer.new.seat).next ≡ (writing writer.old.seat).next }
    ensures free { IsFree history.now.sizes (writing writer.new.seat) }
{
    for _ in rt.forever() {
        match history.vacancy(writer) {
            Vacancy::Free => return,
            Vacancy::Held {
                reader: _,
                passed: _,
            } => thread::yield_now(),
        }
    }
    unreachable!()
}

// Waits until the reader may fetch its next block.
fn wait_ready(rt: &impl Wait, history: &History, reader: &mut Reader)
    requires at { IsAt history.now.table.shared.table_id history.now.sizes reader.old.seat }
    ensures at { IsAt history.now.table.shared.table_id history.now.sizes reader.new.seat }
    ensures blocks { blocks_of reader.new.seat ≡ blocks_of reader.old.seat }
    ensures next { (reading reader.new.seat).next ≡ (reading reader.old.seat).next }
    ensures taken { (reading reader.new.seat).taken ≡ (reading reader.old.seat).taken }
    ensures ready { (reading reader.new.seat).next < (reading reader.new.seat).seen }
{
    for _ in rt.forever() {
        match history.look(reader) {
            Look::Ready => return,
            Look::NotYet { published: _ } => thread::yield_now(),
        }
    }
    unreachable!()
}

// Publishes all blocks of the tag.
fn produce(rt: &impl Wait, history: &History, writer: &mut Writer, tag: CountTag)
    requires tag { (tag.width ≡ 8) × (tag.base ≤ 100) × (tag.count ≤ 10000) }
    requires new { IsNewWriter history.now.table.shared.table_id history.now.sizes
        (count_blocks tag.base tag.width tag.count) writer.old.seat }
{
    let mut words = [0; 8];
    for number in 0..tag.count {
        wait_free(rt, history, writer);
        count_words(tag, number, &mut words);
        history.publish(writer, &words);
    }
}

// Whether all blocks that are fetched are those of the tag.
fn consume(rt: &impl Wait, history: &History, mut reader: Reader, tag: CountTag) -> bool
    requires tag { (tag.width ≡ 8) × (tag.base ≤ 100) × (tag.count ≤ 10000) }
    requires width { history.now.sizes.width ≡ 8 }
    requires new { IsNewReader history.now.table.shared.table_id history.now.sizes
        (count_blocks tag.base tag.width tag.count) reader.seat }
{
    let mut same = true;
    let mut want = [0; 8];
    let mut got = [0; 8];
    for number in 0..tag.count {
        wait_ready(rt, history, &mut reader);
        history.fetch(&mut reader, &mut got);
        count_words(tag, number, &mut want);
        history.pass(&mut reader);
        same = same && got == want;
    }
    same
}

// Whether each reader, in a thread of its own, fetches the tag's blocks.
fn consume_all<R: Threads + Wait + Sync>(
    rt: &R,
    history: &History,
    readers: Vec<Reader>,
    tag: CountTag,
) -> Result<bool, AllocError>
    requires tag { (tag.width ≡ 8) × (tag.base ≤ 100) × (tag.count ≤ 10000) }
    requires width { history.now.sizes.width ≡ 8 }
    requires new { All (λ r. IsNewReader history.now.table.shared.table_id history.now.sizes
        (count_blocks tag.base tag.width tag.count) r.seat) readers.items }
{
    let found = thread::map_vec(
        rt,
        readers,
        &|reader: Reader| -> bool
            requires tag { (tag.width ≡ 8) × (tag.base ≤ 100) × (tag.count ≤ 10000) }
            requires width { history.now.sizes.width ≡ 8 }
            requires new { IsNewReader history.now.table.shared.table_id history.now.sizes
                (count_blocks tag.base tag.width tag.count) reader.seat }
        { consume(rt, history, reader, tag) },
    )?;
    Ok(found.iter().all(|same| *same))
}

// Whether three readers fetch the tag's blocks through so many slots.
fn passes_through<R: Threads + Wait + Sync>(
    rt: &R,
    alloc: Global,
    slots: u64,
    tag: CountTag,
) -> Result<bool, AllocError>
    requires slots { (0 < slots) × (slots ≤ 8) }
    requires tag { (tag.width ≡ 8) × (tag.base ≤ 100) × (tag.count ≤ 10000) }
{
    let (history, mut writer, readers) = History::make(alloc, &tag, slots, 8, 3)?;
    let shared = &history;
    let own = &mut writer;
    let (_, same) = thread::join(
        rt,
        ||
            requires tag { (tag.width ≡ 8) × (tag.base ≤ 100) × (tag.count ≤ 10000) }
            requires new { IsNewWriter shared.now.table.shared.table_id shared.now.sizes
                (count_blocks tag.base tag.width tag.count) own.now.seat }
        { produce(rt, shared, own, tag) },
        move || -> Result<bool, AllocError>
            requires tag { (tag.width ≡ 8) × (tag.base ≤ 100) × (tag.count ≤ 10000) }
            requires width { shared.now.sizes.width ≡ 8 }
            requires new { All (λ r. IsNewReader shared.now.table.shared.table_id shared.now.sizes
                (count_blocks tag.base tag.width tag.count) r.seat) readers.items }
        { consume_all(rt, shared, readers, tag) },
    );
    same
}

#[test]
fn a_writer_and_three_readers(rt: HostRuntime) -> Result<(), Fail> {
    for slots in [1, 2, 8] {
        assert!(rt; passes_through(&rt, rt.alloc(), slots, LONG)?);
    }
    Ok(())
}
