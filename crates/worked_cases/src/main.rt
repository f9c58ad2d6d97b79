//! Whole cases against answers that were worked out by hand or by another program. The rows stand in the file
//! `stdin`, which says how they are read, so that no proof goes over a text.
#![tactic(auto)]

mod answers;
mod calls;
mod rows;
mod texts;

use rows::Row;
use std::io;

fn main(rt: HostRuntime) -> io::Result<()> {
    let mut row = Row::new(rt.alloc());
    let mut rows = 0u64;
    let mut wanted = 0u64;
    let mut others = 0u64;
    for line in rt.lines(rt.alloc()) {
        let line = line?;
        let line = line.as_str();
        match row.go_on(&rt, line)? {
            rows::Told::Begins => rows = rows.saturating_add(1),
            rows::Told::Nothing => {}
            rows::Told::AsWanted => wanted = wanted.saturating_add(1),
            rows::Told::Otherwise => {
                others = others.saturating_add(1);
                println!(rt; "row {rows}, not as wanted: {line}")?;
            }
        }
    }
    println!(rt; "{rows} rows, {wanted} as wanted, {others} otherwise")
}
