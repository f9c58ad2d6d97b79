//! What division asks of a pipe: its reaches, their adjustment, its coefficients.
ghost use Rattle.std.specs.Prelude.{◌≡◌, ◌*◌, ◌<◌, ◌≤◌, pos};
ghost use Rattle.case_model.specs.Limits.{IsPipe, IsWithin};
ghost use Rattle.case_model.specs.Formulas.{nearest_reaches as nearest_of, reach_count as count_of};
ghost use Rattle.case_model.specs.Division.{is_count as is_count_of, is_adjusted as is_adjusted_of};
ghost use Rattle.case_model.specs.Division.{are_accepted};

use crate::quotients::{product, quotient, size};
use case_model::Pipe;

/// The count of reaches of a pipe at a time step in 1e-6 s.
#[tactic(auto, unfolding(case_model::specs::Formulas::reach_count))]
pub(crate) fn reach_count(pipe: &Pipe, dt: i64) -> u64
    requires pipe { IsPipe pipe.now }
    requires dt { IsWithin (pos 1) (pos 1_000_000) dt }
    ensures value { result ≡ count_of dt pipe.now }
    ensures few { result ≤ 1_000_000_000_000 }
{
    nearest_reaches(size(pipe.length), size(pipe.speed), size(dt))
}

#[tactic(auto, unfolding(case_model::specs::Formulas::nearest_reaches))]
fn nearest_reaches(length: u64, speed: u64, dt: u64) -> u64
    requires length_in { length ≤ 1_000_000_000 }
    requires some_speed { 10_000 ≤ speed }
    requires few_speed { speed ≤ 2_000_000 }
    requires some_dt { 1 ≤ dt }
    requires few_dt { dt ≤ 1_000_000 }
    ensures value { pos result ≡ nearest_of (pos length) (pos speed) (pos dt) }
    ensures few { result ≤ 1_000_000_000_000 }
{
    quotient(length as u128 * 1_000_000, product(speed, dt)) as u64
}

/// Whether a count of reaches is accepted.
pub(crate) fn is_count(reaches: u64) -> bool
    ensures { result ≡ is_count_of reaches }
{
    2 <= reaches && reaches <= 65_536
}

/// Whether a count of reaches adjusts the wave speed of a pipe by no more than the tolerance.
#[tactic(auto, unfolding(case_model::specs::Division::is_adjusted))]
pub(crate) fn is_adjusted(pipe: &Pipe, dt: i64, tolerance: i64, reaches: u64) -> bool
    requires pipe { IsPipe pipe.now }
    requires dt { IsWithin (pos 1) (pos 1_000_000) dt }
    requires tolerance { IsWithin (pos 0) (pos 500) tolerance }
    requires few { reaches ≤ 65_536 }
    ensures { result ≡ is_adjusted_of dt tolerance reaches pipe.now }
{
    let length = size(pipe.length);
    let passed = passed(reaches, size(pipe.speed), size(dt));
    let rest = (length * 1_000_000).abs_diff(passed);
    rest as u128 * 1_000 <= product(size(tolerance), passed)
}

// The length in 1e-9 m that a wave passes in so many time steps.
fn passed(reaches: u64, speed: u64, dt: u64) -> u64
    requires few_reaches { reaches ≤ 65_536 }
    requires few_speed { speed ≤ 2_000_000 }
    requires few_dt { dt ≤ 1_000_000 }
    ensures value { result ≡ reaches * speed * dt }
    ensures most { result ≤ 131_072_000_000_000_000 }
{
    reaches * speed * dt
}

/// Whether an impedance and a friction, cut to one more than their most, are within their limits.
#[tactic(auto, unfolding(case_model::specs::Division::are_accepted))]
pub(crate) fn are_coefficients(b: i64, r: i128) -> bool
    ensures { result ≡ are_accepted b r }
{
    100_000 <= b && b <= 10_000_000_000_000 && 0 <= r && r <= 100_000_000_000_000_000_000
}
