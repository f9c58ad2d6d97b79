//! The interior law with the discrete vapour cavity, for each kind of friction.
ghost use Rattle.std.specs.Prelude.{
  ◌≡◌,
  ◌+◌,
  ◌*◌,
  ◌≤◌,
  pos,
  ◌+ℤ◌,
  ◌*ℤ◌,
  ◌≤ℤ◌,
  unsigned_abs,
  IfSome,
};
ghost use Rattle.std.specs.Int.{int_max};
ghost use Rattle.fixed_num.specs.Rounding.{rnd as rounded};
ghost use Rattle.case_model.specs.declared.cases.Friction.TheVariants.{
  Explicit as ExplicitFriction,
  Linear as LinearFriction,
};
ghost use Rattle.case_model.specs.declared.meshes.Arrival.{Arrival as Line};
ghost use Rattle.case_model.specs.Range.{IsPoint, point_of as made_of};
ghost use Rattle.charline.specs.Characteristics.{
  IsArrival,
  IsImpedance,
  IsResistance,
  with_impedance,
};
ghost use Rattle.charline.specs.Cavity.{IsRule, cavity_volume as volume_of};
ghost use Rattle.charline.specs.Interior.{
  inner_point as inner_of,
  meet_if as meet_of,
  meet as met_of,
  liquid as liquid_at,
  kept_or_closed as cavity_at,
  flow_before as before_of,
  flow_after as after_of,
  growth as growth_of,
  meeting_head as head_of,
  meeting_flow as flow_of,
};

use crate::arrivals::{explicit_minus, explicit_plus, linear_minus, linear_plus};
use crate::cavities::cavity_volume;
use crate::quotients::{driven_flow, half};
use case_model::{Arrival, CavityRule, Friction, Point, point_of};
use fixed_num::rnd;

/// What the interior law knows of a reach of a pipe.
#[derive(Clone, Copy, Debug)]
pub struct Reach {
    /// In which form friction is taken.
    pub friction: Friction,
    /// The impedance, in 1e-6 s/m2.
    pub b: i64,
    /// The friction, in 1e-12 s2/m5.
    pub r: i128,
}

/// The point of an inner place one step later, of its neighbours and itself: the interior law with
/// the discrete vapour cavity. Bad exactly where one of them is, a characteristic is out of range, or
/// a number of the result is. Wylie and Streeter, Fluid Transients in Systems, method of
/// characteristics and column separation.
pub fn inner_point(
    reach: &Reach,
    rule: &CavityRule,
    left: &Point,
    own: &Point,
    right: &Point,
) -> Point
    requires rule { IsRule rule.now }
    requires impedance { IsImpedance reach.now.b }
    requires resistance { IsResistance reach.now.r }
    requires left_in { IsPoint left.now }
    requires own_in { IsPoint own.now }
    requires right_in { IsPoint right.now }
    ensures { let reach = reach.now in
        result ≡ inner_of reach.friction rule.now reach.b reach.r left.now own.now right.now }
{
    match reach.friction {
        Friction::Explicit => explicit_point(rule, reach.b, reach.r, left, own, right),
        Friction::Linear => linear_point(rule, reach.b, reach.r, left, own, right),
    }
}

/// `inner_point` with friction taken explicitly: both characteristics have the pipe's impedance, so
/// that a half of their sum and one division by twice the impedance tell where they meet.
#[tactic(auto, unfolding(crate::specs::Interior::inner_point))]
pub fn explicit_point(
    rule: &CavityRule,
    b: i64,
    r: i128,
    left: &Point,
    own: &Point,
    right: &Point,
) -> Point
    requires rule { IsRule rule.now }
    requires impedance { IsImpedance b }
    requires resistance { IsResistance r }
    requires left_in { IsPoint left.now }
    requires own_in { IsPoint own.now }
    requires right_in { IsPoint right.now }
    ensures { result ≡ inner_of ExplicitFriction rule.now b r left.now own.now right.now }
{
    match own {
        Point::Good { qu, qd, v, .. } => {
            let plus = explicit_plus(b, r, left);
            let minus = explicit_minus(b, r, right);
            explicit_if(rule, b, plus, minus, &old_cavity(*qu, *qd, *v))
        }
        Point::Bad => Point::Bad,
    }
}

/// `inner_point` with friction taken linearly: each characteristic has an impedance of its own.
#[tactic(auto, unfolding(crate::specs::Interior::inner_point))]
pub fn linear_point(
    rule: &CavityRule,
    b: i64,
    r: i128,
    left: &Point,
    own: &Point,
    right: &Point,
) -> Point
    requires rule { IsRule rule.now }
    requires impedance { IsImpedance b }
    requires resistance { IsResistance r }
    requires left_in { IsPoint left.now }
    requires own_in { IsPoint own.now }
    requires right_in { IsPoint right.now }
    ensures { result ≡ inner_of LinearFriction rule.now b r left.now own.now right.now }
{
    match own {
        Point::Good { qu, qd, v, .. } => {
            let plus = linear_plus(b, r, left);
            let minus = linear_minus(b, r, right);
            linear_if(rule, plus, minus, &old_cavity(*qu, *qd, *v))
        }
        Point::Bad => Point::Bad,
    }
}

/// What a cavity keeps from the step before: its volume and its growth.
#[derive(Drop)]
pub(crate) struct Old {
    pub(crate) volume: i64,
    pub(crate) growth: i64,
}

pub(crate) fn old_cavity(qu: i64, qd: i64, volume: i64) -> Old
    requires up_in { unsigned_abs qu ≤ 1_000_000_000_000 }
    requires down_in { unsigned_abs qd ≤ 1_000_000_000_000 }
    ensures volume { result.volume ≡ volume }
    ensures growth { result.growth ≡ growth_of qu qd }
{
    Old {
        volume,
        growth: growth(qu, qd),
    }
}

fn explicit_if(rule: &CavityRule, b: i64, plus: Option<i64>, minus: Option<i64>, old: &Old) -> Point
    requires rule { IsRule rule.now }
    requires impedance { IsImpedance b }
    requires plus_in { IfSome plus (λ c. unsigned_abs c ≤ 10_000_000_000_000) }
    requires minus_in { IfSome minus (λ c. unsigned_abs c ≤ 10_000_000_000_000) }
    ensures { result
        ≡ meet_of rule.now (with_impedance b plus)
        (with_impedance b minus) old.now.volume old.now.growth }
{
    match (plus, minus) {
        (Some(plus), Some(minus)) => explicit_meet(
            rule,
            &Arrival { c: plus, b },
            &Arrival { c: minus, b },
            old,
        ),
        _ => Point::Bad,
    }
}

fn linear_if(rule: &CavityRule, plus: Option<Arrival>, minus: Option<Arrival>, old: &Old) -> Point
    requires rule { IsRule rule.now }
    requires plus_in { IfSome plus IsArrival }
    requires minus_in { IfSome minus IsArrival }
    ensures { result ≡ meet_of rule.now plus minus old.now.volume old.now.growth }
{
    match (plus, minus) {
        (Some(plus), Some(minus)) => linear_meet(rule, &plus, &minus, old),
        _ => Point::Bad,
    }
}

#[tactic(auto, unfolding(crate::specs::Interior::meet))]
fn explicit_meet(rule: &CavityRule, plus: &Arrival, minus: &Arrival, old: &Old) -> Point
    requires rule { IsRule rule.now }
    requires plus_in { IsArrival plus.now }
    requires minus_in { IsArrival minus.now }
    requires same { plus.now.b ≡ minus.now.b }
    ensures { result ≡ met_of rule.now plus.now minus.now old.now.volume old.now.growth }
{
    let head = halfway(plus, minus);
    if old.volume == 0 && head >= rule.hv {
        return liquid(head, meeting_flow(plus, minus));
    }
    with_cavity(rule, plus, minus, head, old)
}

#[tactic(auto, unfolding(crate::specs::Interior::meet))]
fn linear_meet(rule: &CavityRule, plus: &Arrival, minus: &Arrival, old: &Old) -> Point
    requires rule { IsRule rule.now }
    requires plus_in { IsArrival plus.now }
    requires minus_in { IsArrival minus.now }
    ensures { result ≡ met_of rule.now plus.now minus.now old.now.volume old.now.growth }
{
    let head = meeting_head(plus, minus);
    if old.volume == 0 && head >= rule.hv {
        return liquid(head, meeting_flow(plus, minus));
    }
    with_cavity(rule, plus, minus, head, old)
}

fn with_cavity(rule: &CavityRule, plus: &Arrival, minus: &Arrival, head: i64, old: &Old) -> Point
    requires rule { IsRule rule.now }
    requires plus_in { IsArrival plus.now }
    requires minus_in { IsArrival minus.now }
    requires head { head ≡ head_of plus.now minus.now }
    ensures { result ≡ cavity_at rule.now plus.now minus.now
        (volume_of rule.now old.now.volume old.now.growth
        (growth_of (before_of rule.now.hv plus.now) (after_of rule.now.hv minus.now))) }
{
    let before = flow_before(rule.hv, plus);
    let after = flow_after(rule.hv, minus);
    held(rule, plus, minus, head, old, before, after)
}

/// The point of a place whose liquid meets at a head, by the flows on its two sides where it is held
/// at the vapour head.
pub(crate) fn held(
    rule: &CavityRule,
    plus: &Arrival,
    minus: &Arrival,
    head: i64,
    old: &Old,
    before: i64,
    after: i64,
) -> Point
    requires rule { IsRule rule.now }
    requires plus_in { IsArrival plus.now }
    requires minus_in { IsArrival minus.now }
    requires head { head ≡ head_of plus.now minus.now }
    requires before { before ≡ before_of rule.now.hv plus.now }
    requires after { after ≡ after_of rule.now.hv minus.now }
    requires before_in { unsigned_abs before ≤ 200_000_000_000_000_000 }
    requires after_in { unsigned_abs after ≤ 200_000_000_000_000_000 }
    ensures { result ≡ cavity_at rule.now plus.now minus.now
        (volume_of rule.now old.now.volume old.now.growth
        (growth_of (before_of rule.now.hv plus.now) (after_of rule.now.hv minus.now))) }
{
    let volume = cavity_volume(rule, old.volume, old.growth, growth(before, after));
    if volume > 0 {
        return open_cavity(rule.hv, before, after, volume);
    }
    liquid(head.max(rule.hv), meeting_flow(plus, minus))
}

fn open_cavity(hv: i64, before: i64, after: i64, volume: i128) -> Point
    ensures { result ≡ made_of hv before after volume }
{
    point_of(hv as i128, before as i128, after as i128, volume)
}

fn growth(before: i64, after: i64) -> i64
    requires before_in { unsigned_abs before ≤ 200_000_000_000_000_000 }
    requires after_in { unsigned_abs after ≤ 200_000_000_000_000_000 }
    ensures { result ≡ growth_of before after }
{
    after - before
}

fn flow_before(hv: i64, plus: &Arrival) -> i64
    requires head_in { unsigned_abs hv ≤ 100_000_000_000 }
    requires plus_in { IsArrival plus.now }
    ensures value { result ≡ before_of hv plus.now }
    ensures size { unsigned_abs result ≤ 200_000_000_000_000_000 }
{
    driven_flow(plus.c - hv, plus.b)
}

fn flow_after(hv: i64, minus: &Arrival) -> i64
    requires head_in { unsigned_abs hv ≤ 100_000_000_000 }
    requires minus_in { IsArrival minus.now }
    ensures value { result ≡ after_of hv minus.now }
    ensures size { unsigned_abs result ≤ 200_000_000_000_000_000 }
{
    driven_flow(hv - minus.c, minus.b)
}

pub(crate) fn liquid(head: i64, flow: i64) -> Point
    ensures { result ≡ liquid_at head flow }
{
    point_of(head as i128, flow as i128, flow as i128, 0)
}

pub(crate) fn halfway(plus: &Arrival, minus: &Arrival) -> i64
    requires plus_in { IsArrival plus.now }
    requires minus_in { IsArrival minus.now }
    requires same { plus.now.b ≡ minus.now.b }
    ensures { result ≡ head_of plus.now minus.now }
{
    half(plus.c + minus.c)
}

#[tactic(auto, unfolding(crate::specs::Interior::meeting_head))]
fn meeting_head(plus: &Arrival, minus: &Arrival) -> i64
    requires plus_in { IsArrival plus.now }
    requires minus_in { IsArrival minus.now }
    ensures { result ≡ head_of plus.now minus.now }
{
    mean(
        weighted(plus.c, minus.b),
        weighted(minus.c, plus.b),
        plus.b + minus.b,
    )
}

fn mean(one: i128, two: i128, weight: i64) -> i64
    requires low { pos 200_000 ≤ℤ weight }
    requires high { weight ≤ℤ pos 20_000_000_000_000 }
    requires one_in { unsigned_abs one ≤ 100_000_000_000_000_000_000_000_000 }
    requires two_in { unsigned_abs two ≤ 100_000_000_000_000_000_000_000_000 }
    requires both { unsigned_abs one + unsigned_abs two ≤ 10_000_000_000_000 * unsigned_abs weight }
    ensures { result ≡ rounded (one +ℤ two) weight }
{
    rnd(one + two, weight as i128) as i64
}

fn weighted(c: i64, z: i64) -> i128
    requires value_in { unsigned_abs c ≤ 10_000_000_000_000 }
    requires impedance { IsImpedance z }
    ensures value { result ≡ c *ℤ z }
    ensures size { unsigned_abs result ≤ 10_000_000_000_000 * unsigned_abs z }
{
    c as i128 * z as i128
}

#[tactic(auto, unfolding(crate::specs::Interior::meeting_flow))]
pub(crate) fn meeting_flow(plus: &Arrival, minus: &Arrival) -> i64
    requires plus_in { IsArrival plus.now }
    requires minus_in { IsArrival minus.now }
    ensures { result ≡ flow_of plus.now minus.now }
{
    driven_flow(plus.c - minus.c, plus.b + minus.b)
}
