//! How a strand that is held is advanced.
ghost use Rattle.std.specs.Prelude.{◌≡◌, length};
ghost use Rattle.runners.specs.Runners.{IsGood, number_in};
ghost use Rattle.runners.specs.Tags.{HasRoom};

use case_model::Law;
use claimboard::Item;
use regionrun::Gate;
use runners::{Advance, RunTag, Runner};

/// The most regions that are computed in one claim.
const MOST_IN_A_CLAIM: u32 = 16;

/// Computes up to so many regions of a runner, until one can't be entered or all are computed.
/// Whether there was one.
pub(crate) fn burst<'a, 'h, L: Law, G: Gate>(
    tag: &RunTag<'a, 'h, L>,
    gate: &G,
    runner: &mut Runner<'a, 'h, L, G::Stub>,
    scratch: &mut [u64],
) -> bool
    requires good { IsGood L.meaning G.Stub.strand_of G.Stub.entered_of tag.now runner.old }
    requires room { HasRoom tag.now.layout.now tag.now.mesh.now (length scratch.old) }
    ensures good { IsGood L.meaning G.Stub.strand_of G.Stub.entered_of tag.now runner.new }
    ensures number { number_in runner.new ≡ number_in runner.old }
    ensures room { length scratch.new ≡ length scratch.old }
{
    let mut moved = false;
    for _ in 0..MOST_IN_A_CLAIM {
        if runner.finished() {
            break;
        }
        match runner.advance(tag, gate, scratch) {
            Advance::Left => moved = true,
            Advance::NoBlock { .. } | Advance::NoSlot { .. } => break,
        }
    }
    moved
}
