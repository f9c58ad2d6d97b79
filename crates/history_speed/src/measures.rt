//! Three figures for blocks of one width.
ghost use Rattle.std.specs.Prelude.{◌≡◌, ◌<◌, ◌≤◌, ◌^◌};

use crate::same::Same;
use crate::through::{Blocks, by_copies, on_one_thread, on_two_threads};
use endhistory::{History, Reader, Writer};
use std::io;
use std::sync::Wait;
use std::thread::Threads;
use std::time::{Clock, Duration, Instant};

const SLOTS: u64 = 8;

// Blocks a second.
fn rate(count: u64, time: Duration) -> u128
    requires { count ≤ 2 ^ 30 }
{
    count as u128 * 1_000_000 / time.as_micros().max(1)
}

/// Writes how many blocks of a width a second went through a history on one
/// thread, through one on two threads, and by plain copies.
pub(crate) fn measure<R: Threads + Wait + Clock + Print + AllocGlobal + Sync>(
    rt: &R,
    width: u64,
    count: u64,
) -> io::Result<()>
    requires { (0 < width) × (width ≤ 512) × (count ≤ 2 ^ 30) }
{
    let one = time_one_thread(rt, width, count)?;
    let two = time_two_threads(rt, width, count)?;
    let copy = time_copies(rt, width, count)?;
    let (one, two, copy) = (rate(count, one), rate(count, two), rate(count, copy));
    println!(rt;
        "width {width}: one thread {one}, two threads {two}, plain copies {copy} blocks a second"
    )?;
    Ok(())
}

fn time_one_thread<R: Clock + AllocGlobal>(rt: &R, width: u64, count: u64) -> io::Result<Duration>
    requires { (0 < width) × (width ≤ 512) × (count ≤ 2 ^ 30) }
{
    let words = vec![in rt.alloc(); 7; width as usize]?;
    let mut into = vec![in rt.alloc(); 0; width as usize]?;
    let (history, mut writer, mut readers) = History::make(
        rt.alloc(),
        &Same { count, width },
        SLOTS,
        width,
        1,
    )?;
    let Some(mut reader) = readers.pop() else {
        return Err(io::Error::from(io::ErrorKind::Other));
    };
    let start = Instant::now(rt)?;
    if !on_one_thread(&history, &mut writer, &mut reader, &words, &mut into, count) {
        return Err(io::Error::from(io::ErrorKind::Other));
    }
    start.elapsed(rt)
}

fn time_two_threads<R: Threads + Wait + Clock + AllocGlobal + Sync>(
    rt: &R,
    width: u64,
    count: u64,
) -> io::Result<Duration>
    requires { (0 < width) × (width ≤ 512) × (count ≤ 2 ^ 30) }
{
    let words = vec![in rt.alloc(); 7; width as usize]?;
    let mut into = vec![in rt.alloc(); 0; width as usize]?;
    let (history, mut writer, mut readers) = History::make(
        rt.alloc(),
        &Same { count, width },
        SLOTS,
        width,
        1,
    )?;
    let Some(mut reader) = readers.pop() else {
        return Err(io::Error::from(io::ErrorKind::Other));
    };
    let start = Instant::now(rt)?;
    let blocks = Blocks {
        words: &words,
        count,
    };
    on_two_threads(rt, &history, &mut writer, &mut reader, &blocks, &mut into);
    start.elapsed(rt)
}

fn time_copies<R: Clock + AllocGlobal + Print>(
    rt: &R,
    width: u64,
    count: u64,
) -> io::Result<Duration>
    requires { (0 < width) × (width ≤ 512) × (count ≤ 2 ^ 30) }
{
    let mut words = vec![in rt.alloc(); 7; width as usize]?;
    let mut into = vec![in rt.alloc(); 0; width as usize]?;
    let start = Instant::now(rt)?;
    let kept = by_copies(&mut words, &mut into, count);
    let time = start.elapsed(rt)?;
    println!(rt; "kept {kept}")?;
    Ok(time)
}
