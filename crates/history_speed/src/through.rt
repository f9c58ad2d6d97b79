//! Blocks through one history, on one thread and on two.
ghost use Rattle.std.specs.Prelude.{◌≡◌, ◌+◌, ◌<◌, length, replicate, MatchBool, true};
ghost use Rattle.history_speed.specs.Same.{StandsToWrite, StandsToRead};

use endhistory::{History, Look, Reader, Vacancy, Writer};
use std::sync::Wait;
use std::thread;
use std::thread::Threads;

/// What goes through a history: `count` blocks of the same words.
#[derive(Drop)]
pub(crate) struct Blocks<'a> {
    pub(crate) words: &'a [u64],
    pub(crate) count: u64,
}

// Whether the block was published.
fn write_one(history: &History, writer: &mut Writer, words: &[u64], number: u64, count: u64) -> bool
    requires stands { StandsToWrite history.now.table.shared.table_id history.now.sizes count number
        writer.old.seat }
    requires words { (number < count) × (words.now ≡ replicate history.now.sizes.width 7) }
    ensures { MatchBool result
        (StandsToWrite history.now.table.shared.table_id history.now.sizes count
        (number + 1) writer.new.seat)
        (StandsToWrite history.now.table.shared.table_id history.now.sizes count number
        writer.new.seat) }
{
    let _ = (number, count);
    match history.vacancy(writer) {
        Vacancy::Free => {
            history.publish(writer, words);
            true
        }
        Vacancy::Held {
            reader: _,
            passed: _,
        } => false,
    }
}

// Whether the block was fetched.
fn read_one(
    history: &History,
    reader: &mut Reader,
    into: &mut [u64],
    number: u64,
    count: u64,
) -> bool
    requires stands { StandsToRead history.now.table.shared.table_id history.now.sizes count number
        reader.old.seat }
    requires wide { length into.old ≡ history.now.sizes.width }
    ensures { MatchBool result
        (StandsToRead history.now.table.shared.table_id history.now.sizes count
        (number + 1) reader.new.seat)
        (StandsToRead history.now.table.shared.table_id history.now.sizes count number
        reader.new.seat) }
{
    let _ = (number, count);
    match history.look(reader) {
        Look::Ready => {
            history.fetch(reader, into);
            history.pass(reader);
            true
        }
        Look::NotYet { published: _ } => false,
    }
}

fn write_next(
    rt: &impl Wait,
    history: &History,
    writer: &mut Writer,
    words: &[u64],
    number: u64,
    count: u64,
)
    requires stands { StandsToWrite history.now.table.shared.table_id history.now.sizes count number
        writer.old.seat }
    requires words { (number < count) × (words.now ≡ replicate history.now.sizes.width 7) }
    ensures { StandsToWrite history.now.table.shared.table_id history.now.sizes count
        (number + 1) writer.new.seat }
{
    for _ in rt.forever() {
        if write_one(history, writer, words, number, count) {
            return;
        }
        thread::yield_now();
    }
    unreachable!()
}

fn read_next(
    rt: &impl Wait,
    history: &History,
    reader: &mut Reader,
    into: &mut [u64],
    number: u64,
    count: u64,
)
    requires stands { StandsToRead history.now.table.shared.table_id history.now.sizes count number
        reader.old.seat }
    requires wide { length into.old ≡ history.now.sizes.width }
    ensures { StandsToRead history.now.table.shared.table_id history.now.sizes count
        (number + 1) reader.new.seat }
{
    for _ in rt.forever() {
        if read_one(history, reader, into, number, count) {
            return;
        }
        thread::yield_now();
    }
    unreachable!()
}

fn write_all(rt: &impl Wait, history: &History, writer: &mut Writer, words: &[u64], count: u64)
    requires stands { StandsToWrite history.now.table.shared.table_id history.now.sizes count 0
        writer.old.seat }
    requires words { words.now ≡ replicate history.now.sizes.width 7 }
    ensures { StandsToWrite history.now.table.shared.table_id history.now.sizes count count
        writer.new.seat }
{
    for number in 0..count {
        write_next(rt, history, writer, words, number, count);
    }
}

fn read_all(rt: &impl Wait, history: &History, reader: &mut Reader, into: &mut [u64], count: u64)
    requires stands { StandsToRead history.now.table.shared.table_id history.now.sizes count 0
        reader.old.seat }
    requires wide { length into.old ≡ history.now.sizes.width }
    ensures { StandsToRead history.now.table.shared.table_id history.now.sizes count count
        reader.new.seat }
{
    for number in 0..count {
        read_next(rt, history, reader, into, number, count);
    }
}

/// All blocks on one thread, one after another; whether each went through at once.
pub(crate) fn on_one_thread(
    history: &History,
    writer: &mut Writer,
    reader: &mut Reader,
    words: &[u64],
    into: &mut [u64],
    count: u64,
) -> bool
    requires writer { StandsToWrite history.now.table.shared.table_id history.now.sizes count 0
        writer.old.seat }
    requires reader { StandsToRead history.now.table.shared.table_id history.now.sizes count 0
        reader.old.seat }
    requires words { words.now ≡ replicate history.now.sizes.width 7 }
    requires wide { length into.old ≡ history.now.sizes.width }
    ensures { result ≡ true →
        (StandsToWrite history.now.table.shared.table_id history.now.sizes count count
        writer.new.seat)
        × (StandsToRead history.now.table.shared.table_id history.now.sizes count count
        reader.new.seat) }
{
    for number in 0..count {
        if !write_one(history, writer, words, number, count) {
            return false;
        }
        if !read_one(history, reader, into, number, count) {
            return false;
        }
    }
    true
}

/// All blocks from a writer in one thread to a reader in another.
pub(crate) fn on_two_threads<R: Threads + Wait + Sync>(
    rt: &R,
    history: &History,
    writer: &mut Writer,
    reader: &mut Reader,
    blocks: &Blocks,
    into: &mut [u64],
)
    requires writer { StandsToWrite history.now.table.shared.table_id history.now.sizes
        blocks.now.count 0 writer.old.seat }
    requires reader { StandsToRead history.now.table.shared.table_id history.now.sizes
        blocks.now.count 0 reader.old.seat }
    requires words { blocks.now.words.now ≡ replicate history.now.sizes.width 7 }
    requires wide { length into.old ≡ history.now.sizes.width }
{
    let words = blocks.words;
    let count = blocks.count;
    thread::join(
        rt,
        ||
            requires stands { StandsToWrite history.now.table.shared.table_id history.now.sizes
                count 0 writer.now.seat }
            requires words { words.now ≡ replicate history.now.sizes.width 7 }
        { write_all(rt, history, writer, words, count) },
        ||
            requires stands { StandsToRead history.now.table.shared.table_id history.now.sizes count
                0 reader.now.seat }
            requires wide { length into.now ≡ history.now.sizes.width }
        { read_all(rt, history, reader, into, count) },
    );
}

/// As many plain copies of the words; the sum of the words that were found last keeps each copy.
pub(crate) fn by_copies(words: &mut [u64], into: &mut [u64], count: u64) -> u64
    requires { (length into.old ≡ length words.old) × (0 < length words.old) }
{
    let mut kept = 0u64;
    for number in 0..count {
        words[0] = number;
        into.copy_from_slice(words);
        kept = kept.wrapping_add(into[(number % into.len() as u64) as usize]);
    }
    kept
}
