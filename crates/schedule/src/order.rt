//! The order of regions.
ghost use Rattle.std.specs.Prelude.{◌≡◌, ◌+◌, ◌*◌, ◌/◌, ◌<◌, ◌≤◌, ◌↔◌, IsTrue, MatchOption, IfSome};
ghost use Rattle.schedule.specs.Countings.{net_in, state_in};
ghost use Rattle.schedule.specs.Order.{turn_count, AreLeftOf, AreLeftBefore, IsUnleft, IsPlaced};

use crate::counts::Counts;

/// A place in the order of regions: a turn, those of the sections or of the stations of one region
/// number, and a strand.
#[derive(Clone, Copy, Debug)]
pub(crate) struct Place {
    pub turn: u64,
    pub strand: u32,
}

/// The first place, from this on, whose region isn't left; past the last turn where all are left.
pub(crate) fn next_unleft(counts: &Counts, from: Place) -> Place
    requires before { AreLeftBefore (net_in counts.now)
        (state_in counts.now) from.turn from.strand }
    requires most { from.turn ≤ turn_count (net_in counts.now) }
    ensures { IsPlaced (net_in counts.now) (state_in counts.now) result.turn result.strand }
{
    let mut strand = from.strand;
    for turn in from.turn..2 * counts.windows() + 1 {
        match first_in_turn(counts, turn, strand) {
            Some(strand) => return Place { turn, strand },
            None => strand = 0,
        }
    }
    Place {
        turn: 2 * counts.windows() + 1,
        strand: 0,
    }
}

/// The first strand, from this on, that has a region of the turn that isn't left.
fn first_in_turn(counts: &Counts, turn: u64, from: u32) -> Option<u32>
    requires { turn < turn_count (net_in counts.now) }
    ensures none { MatchOption result
        (AreLeftOf (net_in counts.now) (state_in counts.now) turn from (net_in counts.now).strands)
        (λ x. AreLeftOf (net_in counts.now) (state_in counts.now) turn from x) }
    ensures some { IfSome result (λ x. IsUnleft (net_in counts.now) (state_in counts.now) turn x) }
{
    for strand in from..counts.strands() {
        if is_unleft(counts, turn, strand) {
            return Some(strand);
        }
    }
    None
}

/// Whether the strand has a region of the turn that isn't left.
fn is_unleft(counts: &Counts, turn: u64, strand: u32) -> bool
    requires { strand < (net_in counts.now).strands }
    ensures { IsTrue result ↔ IsUnleft (net_in counts.now) (state_in counts.now) turn strand }
{
    let stations = turn % 2 == 1;
    counts.is_section(strand) != stations && counts.left(strand) <= turn / 2
}
