//! The rule of division on a valve: its loss against the impedance of the pipes that end there.
ghost use Rattle.std.specs.Prelude.{◌≡◌, ◌+ℤ◌, ◌*◌, ◌≤◌, [], ◌∷◌, pos};
ghost use Rattle.case_model.specs.Limits.{IsValve, IsWithin};
ghost use Rattle.case_model.specs.Refusals.{is_over as is_over_of, valve_over as valve_over_of};
ghost use Rattle.reaches.specs.Decided.{AreDecided};

use crate::pipes::Decided;
use crate::quotients::{product, size};
use case_model::End;

/// Whether a valve with these ends is over its limit; not judged where a pipe of it is refused.
pub(crate) fn valve_over(decided: &Decided, q0: i64, h0: i64, ends: &[End]) -> bool
    requires decided { AreDecided decided.now.case.now decided.now.pipes.now }
    requires valve { IsValve q0 h0 }
    ensures { result ≡ valve_over_of decided.now.case.now q0 h0 ends.now }
{
    match ends {
        [] => false,
        [end] => match decided.division(end.pipe) {
            Some(division) => is_over(q0, h0, division.b),
            None => false,
        },
        [one, other] => over_both(decided, q0, h0, one, other),
        [_, _, _, ..] => false,
    }
}

// Whether a valve between the ends of two pipes is over its limit.
fn over_both(decided: &Decided, q0: i64, h0: i64, one: &End, other: &End) -> bool
    requires decided { AreDecided decided.now.case.now decided.now.pipes.now }
    requires valve { IsValve q0 h0 }
    ensures { result ≡ valve_over_of decided.now.case.now q0 h0 (one.now ∷ other.now ∷ []) }
{
    match (decided.division(one.pipe), decided.division(other.pipe)) {
        (Some(one), Some(other)) => is_over(q0, h0, sum(one.b, other.b)),
        (Some(_), None) => false,
        (None, _) => false,
    }
}

fn sum(one: i64, other: i64) -> i64
    requires one_in { IsWithin (pos 0) (pos 10_000_000_000_000) one }
    requires other_in { IsWithin (pos 0) (pos 10_000_000_000_000) other }
    ensures value { result ≡ one +ℤ other }
    ensures range { IsWithin (pos 0) (pos 20_000_000_000_000) result }
{
    one + other
}

// Whether b*q0^2 is over 2*h0*10^24.
#[tactic(auto, unfolding(case_model::specs::Refusals::is_over))]
fn is_over(q0: i64, h0: i64, b: i64) -> bool
    requires valve { IsValve q0 h0 }
    requires b { IsWithin (pos 0) (pos 20_000_000_000_000) b }
    ensures { result ≡ is_over_of q0 h0 b }
{
    let loss = loss(size(b), size(q0));
    let allowed = product(size(h0), 2_000_000_000_000) * 1_000_000_000_000;
    loss > allowed
}

fn loss(b: u64, q0: u64) -> u128
    requires b_in { b ≤ 20_000_000_000_000 }
    requires q0_in { q0 ≤ 1_000_000_000_000 }
    ensures { result ≡ b * q0 * q0 }
{
    b as u128 * q0 as u128 * q0 as u128
}
