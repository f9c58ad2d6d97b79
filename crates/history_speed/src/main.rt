//! Measures how many blocks a second go through one bounded history, beside a
//! plain copy of the same words. `history_speed COUNT` writes the figures for
//! blocks of 64 and of 512 words; with no word it does nothing.
#![tactic(auto)]

mod measures;
mod same;
mod through;

use std::{env, io};

// The most blocks of one measurement.
const MOST: u64 = 1 << 30;

fn main(rt: HostRuntime) -> io::Result<()> {
    let mut count = 0;
    for word in env::args(&rt)? {
        if let Ok(number) = word.as_str().parse::<u64>() {
            count = number;
        }
    }
    let count = count.min(MOST);
    if count > 0 {
        measures::measure(&rt, 64, count)?;
        measures::measure(&rt, 512, count)?;
    }
    Ok(())
}
