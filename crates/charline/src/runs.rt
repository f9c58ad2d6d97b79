//! Runs of inner places of a pipe without cavities, friction taken explicitly: each characteristic
//! once a place, in 64 bits.
ghost use Rattle.std.specs.Prelude.{
  ◌≡◌,
  ◌+◌,
  ◌*◌,
  ◌/◌,
  ◌%◌,
  ◌<◌,
  ◌≤◌,
  true,
  pos,
  ◌+ℤ◌,
  ◌-ℤ◌,
  ◌*ℤ◌,
  ◌≤ℤ◌,
  unsigned_abs,
  IfSome,
  Some,
};
ghost use Rattle.std.specs.Int.{int_shr};
ghost use Rattle.fixed_num.specs.Reciprocals.{upper};
ghost use Rattle.case_model.specs.declared.cases.Friction.TheVariants.{
  Explicit as ExplicitFriction,
};
ghost use Rattle.case_model.specs.Range.{IsPoint};
ghost use Rattle.case_model.specs.Runs.{calm_point};
ghost use Rattle.charline.specs.Characteristics.{driven_flow as driven_flow_of};
ghost use Rattle.charline.specs.Characteristics.{IsArrival, arrive_plus, arrive_minus};
ghost use Rattle.charline.specs.Runs.{IsPrepared, IsScaled, IsInverse, IsPlus, IsMinus};
ghost use Rattle.charline.specs.Runs.{IsRise, IsFarFromTie, IsDriven, IsCalmSpot};
ghost use Rattle.charline.specs.Characteristics.{impedance_head as impedance_head_of};
ghost use Rattle.charline.specs.Characteristics.{friction_head as friction_head_of};

use crate::losses::friction_head;
use crate::quotients::impedance_head;
use case_model::{Arrival, Point, Spot};
use fixed_num::{Guess, Reciprocal, billionth, half, mulhi, rnd};

// A rise of the head that is out of the range of characteristics.
const OUT: i64 = 1_000_000_000_000_000_000;

/// What a run of inner places of a pipe is computed with, friction taken explicitly.
#[derive(Clone, Copy, Debug)]
pub struct Prepared {
    /// The impedance, in 1e-6 s/m2.
    pub b: u64,
    /// The friction of a reach, in 1e-12 s2/m5.
    pub r: u64,
    /// The head (1e-6 m) from which on no place is held by its vapour head.
    pub top: i64,
    // Twice the impedance, as a divisor.
    twice: Reciprocal,
    // The greatest difference of two characteristics that is computed in 64 bits.
    most: i64,
    // Twice that, and how far a head may be over `top`.
    span: i64,
    room: i64,
    // The friction in units of 2^-80 of 1e12 s2/m5.
    scaled: u64,
    // The greatest flow that is computed in 64 bits.
    few: u64,
    // The inverse of the impedance, in 1e-16 m2/s.
    inverse: i64,
    // What quotients by the weights at its first end and at its last are guessed with.
    first: Guess,
    last: Guess,
    ghost spanned: { span ≡ most +ℤ most },
    ghost roomy: { room ≡ pos 100_000_000_000 -ℤ top },
    ghost limits: { IsPrepared b r most scaled few top twice.divisor },
    ghost inverted: { IsInverse b inverse },
}

/// The values of both characteristics that leave a place.
#[derive(Clone, Copy, Debug)]
pub struct Both {
    /// That of C+.
    pub plus: i64,
    /// That of C-.
    pub minus: i64,
}

impl Prepared {
    /// What a run is computed with, where no vapour head of its places is over `top`.
    pub fn of(b: u64, r: u64, top: i64) -> Prepared
        requires low { 100_000 ≤ b }
        requires high { b ≤ 10_000_000_000_000 }
        requires friction { r ≤ 7_000_000_000_000_000_000 }
        requires head { unsigned_abs top ≤ 100_000_000_000 }
        ensures impedance { result.b ≡ b }
        ensures resistance { result.r ≡ r }
        ensures top { result.top ≡ top }
    {
        let greatest = most(b);
        Prepared {
            b,
            r,
            top,
            twice: Reciprocal::of(twice(b)),
            most: greatest,
            span: doubled(greatest),
            room: over(top),
            scaled: scaled(r),
            few: few(b),
            inverse: inverse(b),
            first: Guess::none(),
            last: Guess::none(),
        }
    }

    /// What quotients by the weights at one of its ends are guessed with.
    pub fn guess(&self, at_last: bool) -> Guess {
        if at_last { self.last } else { self.first }
    }

    /// The same with another guess for one of its ends.
    pub fn guessing(&self, at_last: bool, guess: Guess) -> Prepared
        ensures impedance { result.b ≡ self.now.b }
        ensures resistance { result.r ≡ self.now.r }
        ensures top { result.top ≡ self.now.top }
    {
        let mut same = *self;
        if at_last {
            same.last = guess;
        } else {
            same.first = guess;
        }
        same
    }

    /// The inverse of the impedance, in 1e-16 m2/s: what arrives at a node counts by it.
    pub fn weight(&self) -> i64
        ensures { IsInverse self.now.b result }
    {
        self.inverse
    }

    /// The flow that a difference of heads drives through the impedance, where it is told to be in
    /// range.
    pub fn single_flow(&self, difference: i64) -> Option<i64>
        requires { unsigned_abs difference ≤ 2_000_000_000_000_000_000 }
        ensures value { let p = self.now in IfSome result (λ flow.
            flow ≡ driven_flow_of difference (pos p.b)) }
        ensures size { IfSome result (λ flow. unsigned_abs flow ≤ 1_000_000_000_000) }
    {
        let twofold = difference + difference;
        if is_small(twofold, self.most, self.span) {
            Some(self.flow(twofold))
        } else {
            None
        }
    }

    /// The values of both characteristics that leave a place without a cavity, each out of range where
    /// the characteristic is: one flow gives both.
    #[inline(always)]
    pub fn both(&self, from: &Spot) -> Both
        ensures plus { IsPlus self.now.b self.now.r (calm_point from.now) result.plus }
        ensures minus { IsMinus self.now.b self.now.r (calm_point from.now) result.minus }
    {
        let rise = self.rise(from.q);
        Both {
            plus: from.h + rise,
            minus: from.h - rise,
        }
    }

    /// What leaves a point downstream, as `arrive_plus` has it; None where that is to tell.
    #[tactic(auto, unfolding(crate::specs::Characteristics::arrive_plus))]
    pub fn plus_from(&self, from: &Point) -> Option<Arrival>
        requires { IsPoint from.now }
        ensures value { let p = self.now in IfSome result (λ arrival.
            arrive_plus ExplicitFriction (pos p.b) (pos p.r) from.now ≡ Some arrival) }
        ensures impedance { IfSome result (λ arrival. arrival.b ≡ pos self.now.b) }
        ensures range { IfSome result IsArrival }
    {
        match from {
            Point::Good { h, qd, .. } => self.arrival(self.both(&Spot { h: *h, q: *qd }).plus),
            Point::Bad => None,
        }
    }

    /// What leaves a point upstream, as `arrive_minus` has it; None where that is to tell.
    #[tactic(auto, unfolding(crate::specs::Characteristics::arrive_minus))]
    pub fn minus_from(&self, from: &Point) -> Option<Arrival>
        requires { IsPoint from.now }
        ensures value { let p = self.now in IfSome result (λ arrival.
            arrive_minus ExplicitFriction (pos p.b) (pos p.r) from.now ≡ Some arrival) }
        ensures impedance { IfSome result (λ arrival. arrival.b ≡ pos self.now.b) }
        ensures range { IfSome result IsArrival }
    {
        match from {
            Point::Good { h, qu, .. } => self.arrival(self.both(&Spot { h: *h, q: *qu }).minus),
            Point::Bad => None,
        }
    }

    // What has this value, if it is in range.
    fn arrival(&self, c: i64) -> Option<Arrival>
        ensures value { IfSome result (λ arrival. arrival.c ≡ c) }
        ensures impedance { IfSome result (λ arrival. arrival.b ≡ pos self.now.b) }
        ensures range { IfSome result IsArrival }
    {
        if c.unsigned_abs() <= 10_000_000_000_000 {
            Some(Arrival {
                c,
                b: self.b as i64,
            })
        } else {
            None
        }
    }

    /// Where two characteristics meet at a place without a cavity, at `top` or above and all in range;
    /// None where the full law is to tell.
    #[inline(always)]
    pub fn meeting(&self, plus: i64, minus: i64) -> Option<Spot>
        requires plus_in { unsigned_abs plus ≤ 2_000_000_000_000_000_000 }
        requires minus_in { unsigned_abs minus ≤ 2_000_000_000_000_000_000 }
        ensures { let p = self.now in IfSome result (IsCalmSpot p.b p.r p.top plus minus) }
    {
        self.driven(half(plus + minus), plus - minus)
    }

    // The place at a head between characteristics with this difference, if both are told to be small.
    #[inline(always)]
    fn driven(&self, head: i64, difference: i64) -> Option<Spot>
        requires head_in { unsigned_abs head ≤ 4_000_000_000_000_000_000 }
        requires difference_in { unsigned_abs difference ≤ 4_000_000_000_000_000_000 }
        ensures { let p = self.now in IfSome result (IsDriven p.b p.top p.most head difference) }
    {
        if is_small(difference, self.most, self.span) && is_head(head, self.top, self.room) {
            Some(self.spot(head, difference))
        } else {
            None
        }
    }

    #[inline(always)]
    fn spot(&self, head: i64, difference: i64) -> Spot
        requires head_in { unsigned_abs head ≤ 100_000_000_000 }
        requires difference_in { unsigned_abs difference ≤ unsigned_abs self.now.most }
        ensures head { result.h ≡ head }
        ensures flow { result.q ≡ driven_flow_of difference (pos (2 * self.now.b)) }
    {
        Spot {
            h: head,
            q: self.flow(difference),
        }
    }

    // The head that a flow stands for less that which friction takes from it, or one out of range.
    #[inline(always)]
    fn rise(&self, q: i64) -> i64
        requires { unsigned_abs q ≤ 1_000_000_000_000 }
        ensures size { unsigned_abs result ≤ 1_000_000_000_000_000_000 }
        ensures value { IsRise self.now.b self.now.r q result }
    {
        match self.quick_rise(q, q.unsigned_abs()) {
            Some(rise) => rise,
            None => self.full_rise(q),
        }
    }

    // The same by exact products, for great flows and for losses near a tie.
    #[cold]
    fn full_rise(&self, q: i64) -> i64
        requires { unsigned_abs q ≤ 1_000_000_000_000 }
        ensures size { unsigned_abs result ≤ 1_000_000_000_000_000_000 }
        ensures value { IsRise self.now.b self.now.r q result }
    {
        narrowed(impedance_head(self.b as i64, q) as i128 - friction_head(self.r as i128, q))
    }

    // The same where few products tell it; `size` is that of the flow.
    #[inline(always)]
    fn quick_rise(&self, q: i64, size: u64) -> Option<i64>
        requires size { size ≡ unsigned_abs q }
        ensures size { IfSome result (λ rise. unsigned_abs rise ≤ 1_000_000_000_000_000_000) }
        ensures value { IfSome result (λ rise.
            rise ≡ impedance_head_of (pos self.now.b) q -ℤ friction_head_of (pos self.now.r) q) }
    {
        if size > self.few {
            return None;
        }
        match self.quick_loss(q, size) {
            Some(loss) => Some(self.quick_head(q) - loss),
            None => None,
        }
    }

    #[tactic(auto, unfolding(crate::specs::Characteristics::impedance_head))]
    #[inline(always)]
    fn quick_head(&self, q: i64) -> i64
        requires { unsigned_abs q ≤ self.now.few }
        ensures value { result ≡ impedance_head_of (pos self.now.b) q }
        ensures size { unsigned_abs result ≤ 4_611_686_018 }
    {
        billionth(self.product(q))
    }

    fn product(&self, q: i64) -> i64
        requires { unsigned_abs q ≤ self.now.few }
        ensures value { result ≡ pos self.now.b *ℤ q }
        ensures size { unsigned_abs result < 4_611_686_018_427_387_904 }
    {
        self.b as i64 * q
    }

    // The loss is told to 72 units of 2^-16, which decides how it is rounded unless it lies that near
    // to a tie.
    #[inline(always)]
    fn quick_loss(&self, q: i64, size: u64) -> Option<i64>
        requires size { size ≡ unsigned_abs q }
        requires few { size ≤ self.now.few }
        ensures value { IfSome result (λ loss. loss ≡ friction_head_of (pos self.now.r) q) }
        ensures size { IfSome result (λ loss. unsigned_abs loss ≤ 281_474_976_710_656) }
    {
        decided(self.near_loss(q, size))
    }

    // The loss in units of 2^-16, with a half and 128 units added.
    #[inline(always)]
    fn near_loss(&self, q: i64, size: u64) -> i64
        requires size { size ≡ unsigned_abs q }
        requires few { size ≤ self.now.few }
        ensures value { result ≡ upper (q *ℤ pos size) (pos self.now.scaled) +ℤ pos 32_896 }
        ensures size { unsigned_abs result ≤ 4_611_686_018_427_420_800 }
    {
        mulhi(squared(q, size), self.scaled as i64) + 32_896
    }

    // The flow that a difference of characteristics drives through both impedances.
    #[tactic(auto, unfolding(crate::specs::Characteristics::driven_flow))]
    #[inline(always)]
    fn flow(&self, difference: i64) -> i64
        requires { unsigned_abs difference ≤ unsigned_abs self.now.most }
        ensures value { result ≡ driven_flow_of difference (pos (2 * self.now.b)) }
        ensures size { unsigned_abs result ≤ 1_000_000_000_000 }
    {
        self.twice.divided(difference * 1_000_000_000)
    }
}

// The inverse of an impedance, in 1e-16 m2/s.
fn inverse(b: u64) -> i64
    requires low { 100_000 ≤ b }
    requires high { b ≤ 10_000_000_000_000 }
    ensures { IsInverse b result }
{
    rnd(10_000_000_000_000_000_000_000, b as i128) as i64
}

fn twice(b: u64) -> i64
    requires { b ≤ 10_000_000_000_000 }
    ensures { result ≡ pos (2 * b) }
{
    2 * b as i64
}

fn most(b: u64) -> i64
    requires { b ≤ 10_000_000_000_000 }
    ensures low { pos 0 ≤ℤ result }
    ensures difference { unsigned_abs result ≤ 4_611_686_018 }
    ensures flow { unsigned_abs result ≤ 2_000 * b }
{
    (2_000 * b).min(4_611_686_018) as i64
}

fn doubled(most: i64) -> i64
    requires { unsigned_abs most ≤ 4_611_686_018 }
    ensures { result ≡ most +ℤ most }
{
    most + most
}

// How far a head may be over another one.
fn over(top: i64) -> i64
    requires { unsigned_abs top ≤ 100_000_000_000 }
    ensures { result ≡ pos 100_000_000_000 -ℤ top }
{
    100_000_000_000 - top
}

// A number up to this size: one comparison in place of two.
fn is_small(x: i64, most: i64, span: i64) -> bool
    requires x_in { unsigned_abs x ≤ 4_000_000_000_000_000_000 }
    requires most_in { unsigned_abs most ≤ 4_611_686_018 }
    requires some { pos 0 ≤ℤ most }
    requires span { span ≡ most +ℤ most }
    ensures { result ≡ true → unsigned_abs x ≤ unsigned_abs most }
{
    (x + most).cast_unsigned() <= span.cast_unsigned()
}

// A head from `top` on, in range.
fn is_head(head: i64, top: i64, room: i64) -> bool
    requires head_in { unsigned_abs head ≤ 4_000_000_000_000_000_000 }
    requires top_in { unsigned_abs top ≤ 100_000_000_000 }
    requires room { room ≡ pos 100_000_000_000 -ℤ top }
    ensures above { result ≡ true → top ≤ℤ head }
    ensures size { result ≡ true → unsigned_abs head ≤ 100_000_000_000 }
{
    (head - top).cast_unsigned() <= room.cast_unsigned()
}

fn narrowed(rise: i128) -> i64
    ensures size { unsigned_abs result ≤ 1_000_000_000_000_000_000 }
    ensures value { unsigned_abs result ≤ 100_000_000_000_000 → result ≡ rise }
{
    if rise.unsigned_abs() <= 100_000_000_000_000 {
        rise as i64
    } else {
        OUT
    }
}

fn scaled(r: u64) -> u64
    requires { r ≤ 7_000_000_000_000_000_000 }
    ensures { IsScaled r result }
{
    ((r as u128 * 11_150_372_599_265_311_570) >> 63) as u64
}

fn few(b: u64) -> u64
    requires { 100_000 ≤ b }
    ensures slow { result < 2_147_483_648 }
    ensures product { b * result < 4_611_686_018_427_387_904 }
{
    if b < 2_147_483_648 {
        2_147_483_647
    } else {
        few_of_many(b)
    }
}

#[cold]
fn few_of_many(b: u64) -> u64
    requires { 2_147_483_648 ≤ b }
    ensures slow { result < 2_147_483_648 }
    ensures product { b * result < 4_611_686_018_427_387_904 }
{
    4_611_686_018_427_387_903 / b
}

// A flow by its size.
fn squared(q: i64, size: u64) -> i64
    requires size { size ≡ unsigned_abs q }
    requires slow { size < 2_147_483_648 }
    ensures value { result ≡ q *ℤ pos size }
    ensures size { unsigned_abs result ≤ 4_611_686_018_427_387_904 }
{
    q * size as i64
}

// A number in units of 2^-16, with a half and 128 units added, rounded where it is not near a tie.
fn decided(near: i64) -> Option<i64>
    ensures far { IfSome result (λ loss. IsFarFromTie near) }
    ensures value { IfSome result (λ loss. loss ≡ int_shr near 16) }
{
    if near.cast_unsigned() % 65_536 >= 256 {
        Some(near >> 16)
    } else {
        None
    }
}
