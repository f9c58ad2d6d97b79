//! The whole text, line by line.
ghost use Rattle.std.specs.Prelude.{◌≡◌, ◌≤◌, ◌<◌, ◌++◌, ◌^◌, IfOk, OnOk};
ghost use Rattle.drill.specs.Network.{drill_text, junctions_text, next, pipes_text};

use crate::lines::{junction_line, pipe_line};
use std::alloc::{AllocError, Global};

// The lines before those of junctions and pipes.
const HEADING: &[u8] = b"surge 1\nstep 0.01\nsteps 2000\nflows D 0 0 0.1 0.01\nreservoir J0 0 80\n";

// How many junctions and how many pipes a drill has.
const COUNT: u64 = 100;

/// The text of the network that is made from a number: a reservoir at the head of a chain of 100
/// pipes, whose lengths and diameters are drawn. The error is want of memory.
pub fn drill_text(alloc: Global, number: u32) -> Result<Vec<u8>, AllocError>
    ensures { IfOk result (λ text. text.items ≡ drill_text number) }
{
    let mut text = Vec::new(alloc);
    text.extend_from_slice(HEADING)?;
    add_junctions(&mut text, COUNT)?;
    add_pipes(&mut text, number, COUNT)?;
    Ok(text)
}

// Adds the lines of so many junctions.
fn add_junctions(text: &mut Vec<u8>, count: u64) -> Result<(), AllocError>
    requires { count ≤ 1_000 }
    ensures { OnOk result (text.new.items ≡ text.old.items ++ junctions_text count) }
{
    for i in 0..count {
        let line = junction_line(i + 1);
        text.extend_from_slice(line.as_bytes())?;
    }
    Ok(())
}

// Adds the lines of so many pipes, each by the next number that is drawn.
fn add_pipes(text: &mut Vec<u8>, number: u32, count: u64) -> Result<(), AllocError>
    requires { count ≤ 1_000 }
    ensures { OnOk result (text.new.items ≡ text.old.items ++ pipes_text number count) }
{
    let mut drawn = number as u64;
    for i in 0..count {
        drawn = next(drawn);
        let line = pipe_line(i + 1, drawn);
        text.extend_from_slice(line.as_bytes())?;
    }
    Ok(())
}

// The number that is drawn behind this one.
#[tactic(auto, unfolding(crate::specs::Network::next))]
fn next(drawn: u64) -> u64
    requires { drawn < 2 ^ 32 }
    ensures value { result ≡ next drawn }
    ensures few { result < 2 ^ 32 }
{
    (drawn * 1_103_515_245 + 12_345) % 2_147_483_648
}
