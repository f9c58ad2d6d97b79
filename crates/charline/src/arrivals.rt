//! The characteristics that leave a point of a pipe, with friction taken explicitly or linearly.
ghost use Rattle.std.specs.Prelude.{
  ◌≡◌,
  ◌≤◌,
  ℤ,
  pos,
  ◌+ℤ◌,
  ◌-ℤ◌,
  ◌≤ℤ◌,
  unsigned_abs,
  IfSome,
};
ghost use Rattle.case_model.specs.declared.cases.Friction.TheVariants.{
  Explicit as ExplicitFriction,
  Linear as LinearFriction,
};
ghost use Rattle.case_model.specs.Range.{IsPoint};
ghost use Rattle.charline.specs.Characteristics.{
  IsArrival,
  IsImpedance,
  IsResistance,
  arrive_plus as plus_from,
  arrive_minus as minus_from,
  in_reach as reach_of,
  with_impedance as impeded,
};

use crate::impedances::friction_impedance;
use crate::losses::friction_head;
use crate::quotients::impedance_head;
use case_model::{Arrival, Friction, Point};

/// The characteristic that leaves a point downstream (C+), along a reach of impedance `b` (1e-6 s/m2)
/// and friction `r` (1e-12 s2/m5). None exactly where the point is Bad, or the characteristic is out of
/// range: its value over 10^13 in size, or its impedance over 10^13.
/// Wylie and Streeter, Fluid Transients in Systems, method of characteristics.
pub fn arrive_plus(friction: Friction, b: i64, r: i128, from: &Point) -> Option<Arrival>
    requires impedance { IsImpedance b }
    requires resistance { IsResistance r }
    requires from_in { IsPoint from.now }
    ensures value { result ≡ plus_from friction b r from.now }
    ensures range { IfSome result IsArrival }
{
    match friction {
        Friction::Explicit => with_impedance(b, explicit_plus(b, r, from)),
        Friction::Linear => linear_plus(b, r, from),
    }
}

/// The characteristic that leaves a point upstream (C-); otherwise as `arrive_plus`.
pub fn arrive_minus(friction: Friction, b: i64, r: i128, from: &Point) -> Option<Arrival>
    requires impedance { IsImpedance b }
    requires resistance { IsResistance r }
    requires from_in { IsPoint from.now }
    ensures value { result ≡ minus_from friction b r from.now }
    ensures range { IfSome result IsArrival }
{
    match friction {
        Friction::Explicit => with_impedance(b, explicit_minus(b, r, from)),
        Friction::Linear => linear_minus(b, r, from),
    }
}

fn with_impedance(b: i64, c: Option<i64>) -> Option<Arrival>
    requires impedance { IsImpedance b }
    requires value { IfSome c (λ c. unsigned_abs c ≤ 10_000_000_000_000) }
    ensures value { result ≡ impeded b c }
    ensures range { IfSome result IsArrival }
{
    match c {
        Some(c) => Some(Arrival { c, b }),
        None => None,
    }
}

/// The value of C+ with friction taken explicitly, where it is in range: its impedance is the pipe's.
#[tactic(auto, unfolding(crate::specs::Characteristics::arrive_plus))]
pub(crate) fn explicit_plus(b: i64, r: i128, from: &Point) -> Option<i64>
    requires impedance { IsImpedance b }
    requires resistance { IsResistance r }
    requires from_in { IsPoint from.now }
    ensures value { impeded b result ≡ plus_from ExplicitFriction b r from.now }
    ensures size { IfSome result (λ c. unsigned_abs c ≤ 10_000_000_000_000) }
{
    match from {
        Point::Good { h, qd: q, .. } => {
            in_reach(less(*h + impedance_head(b, *q), friction_head(r, *q)))
        }
        Point::Bad => None,
    }
}

/// The value of C- with friction taken explicitly; otherwise as `explicit_plus`.
#[tactic(auto, unfolding(crate::specs::Characteristics::arrive_minus))]
pub(crate) fn explicit_minus(b: i64, r: i128, from: &Point) -> Option<i64>
    requires impedance { IsImpedance b }
    requires resistance { IsResistance r }
    requires from_in { IsPoint from.now }
    ensures value { impeded b result ≡ minus_from ExplicitFriction b r from.now }
    ensures size { IfSome result (λ c. unsigned_abs c ≤ 10_000_000_000_000) }
{
    match from {
        Point::Good { h, qu: q, .. } => {
            in_reach(more(*h - impedance_head(b, *q), friction_head(r, *q)))
        }
        Point::Bad => None,
    }
}

/// C+ with friction taken linearly, where it is in range.
#[tactic(auto, unfolding(crate::specs::Characteristics::arrive_plus))]
pub(crate) fn linear_plus(b: i64, r: i128, from: &Point) -> Option<Arrival>
    requires impedance { IsImpedance b }
    requires resistance { IsResistance r }
    requires from_in { IsPoint from.now }
    ensures value { result ≡ plus_from LinearFriction b r from.now }
    ensures range { IfSome result IsArrival }
{
    match from {
        Point::Good { h, qd, .. } => {
            characteristic(*h + impedance_head(b, *qd), friction_impedance(b, r, *qd))
        }
        Point::Bad => None,
    }
}

/// C- with friction taken linearly, where it is in range.
#[tactic(auto, unfolding(crate::specs::Characteristics::arrive_minus))]
pub(crate) fn linear_minus(b: i64, r: i128, from: &Point) -> Option<Arrival>
    requires impedance { IsImpedance b }
    requires resistance { IsResistance r }
    requires from_in { IsPoint from.now }
    ensures value { result ≡ minus_from LinearFriction b r from.now }
    ensures range { IfSome result IsArrival }
{
    match from {
        Point::Good { h, qu, .. } => {
            characteristic(*h - impedance_head(b, *qu), friction_impedance(b, r, *qu))
        }
        Point::Bad => None,
    }
}

fn less(head: i64, loss: i128) -> i128
    requires head_in { unsigned_abs head ≤ 100_000_000_000_000_000 }
    requires loss_in { unsigned_abs loss ≤ 1_000_000_000_000_000_000_000 }
    ensures value { result ≡ head -ℤ loss }
{
    head as i128 - loss
}

fn more(head: i64, loss: i128) -> i128
    requires head_in { unsigned_abs head ≤ 100_000_000_000_000_000 }
    requires loss_in { unsigned_abs loss ≤ 1_000_000_000_000_000_000_000 }
    ensures value { result ≡ head +ℤ loss }
{
    head as i128 + loss
}

// A value in range, to stand with an impedance that is.
fn in_reach(c: i128) -> Option<i64>
    ensures value { (b : ℤ) → IsImpedance b → impeded b result ≡ reach_of c b }
    ensures size { IfSome result (λ c. unsigned_abs c ≤ 10_000_000_000_000) }
{
    if c.unsigned_abs() <= 10_000_000_000_000 {
        Some(c as i64)
    } else {
        None
    }
}

fn characteristic(c: i64, z: i64) -> Option<Arrival>
    requires low { pos 100_000 ≤ℤ z }
    ensures value { result ≡ reach_of c z }
    ensures range { IfSome result IsArrival }
{
    if c.unsigned_abs() <= 10_000_000_000_000 && z <= 10_000_000_000_000 {
        return Some(Arrival { c, b: z });
    }
    None
}
