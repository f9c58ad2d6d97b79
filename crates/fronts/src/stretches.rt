//! A stretch of places of a pipe, and the points that it keeps of them.
ghost use Rattle.std.specs.Prelude.{◌≡◌, ◌*◌, length};

use crate::cavities::Cavity;
use crate::pairs::Pair;
use crate::parts::{Parts, apart, are_none, clear};
use case_model::{Point, Spot};
use std::alloc::{AllocError, Global};

/// Places of a pipe that follow one another, each with two points: the last ones of an even and
/// of an odd step. How they are kept is known here alone; a point is found by its step and by the
/// count of places before it in the stretch.
#[derive(Drop, Debug)]
pub struct Stretch {
    /// The pipe.
    pub pipe: u32,
    /// The place of the pipe where the stretch begins.
    pub first: u32,
    /// The place number of that place.
    pub number: u64,
    pub(crate) count: usize,
    // Those of the even steps, and behind them those of the odd ones.
    pub(crate) spots: Vec<Spot>,
    // In the same order. They tell nothing while the stretch is calm: then no point has a cavity,
    // and none is Bad.
    pub(crate) cavities: Vec<Cavity>,
    pub(crate) calm: bool,
    ghost spots_each: { length spots.items ≡ 2 * count },
    ghost cavities_each: { length cavities.items ≡ 2 * count },
}

impl Stretch {
    ghost use Rattle.std.specs.Prelude.{ℕ, ◌+◌, ◌<◌, ◌==◌, true, false, not, Bool, IfOk};
    ghost use Rattle.case_model.specs.Meaning.{Meaning};
    ghost use Rattle.case_model.specs.Range.{IsPoint};
    ghost use Rattle.case_model.specs.Runs.{calm_point};
    ghost use Rattle.fronts.specs.Cavities.{volume_and_flow, with_cavity};
    ghost use Rattle.fronts.specs.Fronts.{Holds, Puts, spot};
    ghost use Rattle.fronts.specs.Pairs.{ArePut, first_of, second_of};
    ghost use Rattle.fronts.specs.Stretches.{AreSameKept, AreSamePlaces, count_of, is_even};
    ghost use Rattle.fronts.specs.Stretches.{kept, kept_in};
    ghost use Rattle.fronts.specs.Stretches.{point_in, slot as slot_of, IsPut, IsPutIn, IsSet};
    ghost use Rattle.fronts.specs.Stretches.{IsStretchOf};

    /// A stretch of so many places. What it keeps of them is to be put. The error is want of
    /// memory.
    #[tactic(auto, unfolding(crate::specs::Stretches::count_of))]
    pub fn make(
        alloc: Global,
        pipe: u32,
        first: u32,
        number: u64,
        count: usize,
    ) -> Result<Stretch, AllocError>
        ensures { IfOk result (IsStretchOf pipe first number count) }
    {
        let Some(both) = count.checked_mul(2) else {
            return Err(AllocError);
        };
        Ok(Stretch {
            pipe,
            first,
            number,
            count,
            spots: vec![in alloc; Spot { h: 0, q: 0 }; both]?,
            cavities: vec![in alloc; Cavity::none(); both]?,
            calm: true,
        })
    }

    /// How many places it has.
    #[tactic(auto, unfolding(crate::specs::Stretches::count_of))]
    pub fn count(&self) -> usize
        ensures { result ≡ count_of self.now }
    {
        self.count
    }

    /// The point of a place that is kept for the parity of a step.
    pub fn point(&self, step: u64, place: usize) -> Point
        requires { place < count_of self.now }
        ensures point { result ≡ kept self.now step place }
        ensures in_range { IsPoint result }
    {
        self.point_of(step % 2 == 0, place)
    }

    // The point of a place that is kept for the even steps, or for the odd ones.
    #[tactic(auto, unfolding(crate::specs::Stretches::count_of, crate::specs::Stretches::kept_in))]
    pub(crate) fn point_of(&self, even: bool, place: usize) -> Point
        requires { place < count_of self.now }
        ensures point { result ≡ kept_in self.now even place }
        ensures in_range { IsPoint result }
    {
        self.read(self.slot(even, place))
    }

    /// The points of a place that are kept for the parity of a step, and for that of the next one.
    #[inline(always)]
    pub fn pair(&self, step: u64, place: usize) -> Pair
        requires { place < count_of self.now }
        ensures first { first_of result ≡ kept self.now step place }
        ensures second { second_of result ≡ kept self.now (step + 1) place }
        ensures first_in_range { IsPoint (first_of result) }
        ensures second_in_range { IsPoint (second_of result) }
    {
        self.pair_of(step % 2 == 0, place)
    }

    // The same, of the even steps first, or of the odd ones.
    #[inline(always)]
    fn pair_of(&self, even: bool, place: usize) -> Pair
        requires { place < count_of self.now }
        ensures first { first_of result ≡ kept_in self.now even place }
        ensures second { second_of result ≡ kept_in self.now (not even) place }
        ensures first_in_range { IsPoint (first_of result) }
        ensures second_in_range { IsPoint (second_of result) }
    {
        if self.calm {
            Pair::Calm {
                first: self.calm_spot(even, place),
                second: self.calm_spot(!even, place),
            }
        } else {
            Pair::Other {
                first: self.point_of(even, place),
                second: self.point_of(!even, place),
            }
        }
    }

    // What a place of a calm stretch keeps for the even steps, or for the odd ones.
    #[tactic(auto, unfolding(crate::specs::Stretches::count_of, crate::specs::Stretches::kept_in))]
    fn calm_spot(&self, even: bool, place: usize) -> Spot
        requires calm { self.now.calm ≡ true }
        requires inside { place < count_of self.now }
        ensures { calm_point result ≡ kept_in self.now even place }
    {
        self.spot_at(self.slot(even, place))
    }

    #[tactic(auto, unfolding(crate::specs::Stretches::count_of, crate::specs::Stretches::point_in))]
    fn spot_at(&self, slot: usize) -> Spot
        requires calm { self.now.calm ≡ true }
        requires inside { slot < 2 * count_of self.now }
        ensures { calm_point result ≡ point_in self.now slot }
    {
        self.spots[slot]
    }

    // Where it is kept.
    #[tactic(auto, unfolding(crate::specs::Stretches::count_of))]
    pub(crate) fn slot(&self, even: bool, place: usize) -> usize
        requires { place < count_of self.now }
        ensures value { result ≡ slot_of (count_of self.now) even place }
        ensures inside { result < 2 * count_of self.now }
    {
        if even { place } else { self.count + place }
    }

    // Where the first of the points for the even steps is kept, or of those for the odd ones.
    #[tactic(auto, unfolding(crate::specs::Stretches::count_of))]
    pub(crate) fn start(&self, even: bool) -> usize
        ensures { result ≡ slot_of (count_of self.now) even 0 }
    {
        if even { 0 } else { self.count }
    }

    #[tactic(auto, unfolding(crate::specs::Stretches::count_of, crate::specs::Stretches::point_in))]
    fn read(&self, slot: usize) -> Point
        requires { slot < 2 * count_of self.now }
        ensures point { result ≡ point_in self.now slot }
        ensures in_range { IsPoint result }
    {
        if self.calm {
            return self.spots[slot].point();
        }
        self.cavities[slot].with(&self.spots[slot])
    }

    /// Keeps a point of a place for the parity of a step.
    pub fn put(&mut self, step: u64, place: usize, point: Point)
        requires inside { place < count_of self.old }
        requires in_range { IsPoint point }
        ensures put { IsPut step place point self.old self.new }
        ensures holds { (law : Meaning) (since front sooner later : ℕ → ℕ) →
            Puts step place (count_of self.old) since front sooner later →
            point ≡ spot law self.old step place →
            Holds law since front self.old → Holds law sooner later self.new }
    {
        self.put_of(step % 2 == 0, place, point);
    }

    // Keeps a point of a place for the even steps, or for the odd ones.
    pub(crate) fn put_of(&mut self, even: bool, place: usize, point: Point)
        requires inside { place < count_of self.old }
        requires in_range { IsPoint point }
        ensures { IsPutIn even place point self.old self.new }
    {
        let slot = self.slot(even, place);
        match Spot::of(&point) {
            Some(spot) => self.set_spot(slot, spot),
            None => self.set_other(slot, &point),
        }
    }

    /// Keeps the points of a place for the parity of a step, and for that of the next one.
    #[inline(always)]
    pub fn put_pair(&mut self, step: u64, place: usize, pair: Pair)
        requires inside { place < count_of self.old }
        requires first { IsPoint (first_of pair) }
        requires second { IsPoint (second_of pair) }
        ensures same { AreSamePlaces self.old self.new }
        ensures holds { (law : Meaning) (since front middle between sooner later : ℕ → ℕ) →
            Puts step place (count_of self.old) since front middle between →
            first_of pair ≡ spot law self.old step place →
            Puts (step + 1) place (count_of self.old) middle between sooner later →
            second_of pair ≡ spot law self.old (step + 1) place →
            Holds law since front self.old → Holds law sooner later self.new }
    {
        self.put_both(step % 2 == 0, place, pair);
    }

    // The same, of the even steps first, or of the odd ones.
    #[inline(always)]
    fn put_both(&mut self, even: bool, place: usize, pair: Pair)
        requires inside { place < count_of self.old }
        requires first { IsPoint (first_of pair) }
        requires second { IsPoint (second_of pair) }
        ensures { ArePut even place (first_of pair) (second_of pair) self.old self.new }
    {
        match pair {
            Pair::Calm { first, second } => self.put_spots(even, place, first, second),
            Pair::Other { first, second } => self.put_points(even, place, first, second),
        }
    }

    #[inline(always)]
    fn put_spots(&mut self, even: bool, place: usize, first: Spot, second: Spot)
        requires { place < count_of self.old }
        ensures { ArePut even place (calm_point first) (calm_point second) self.old self.new }
    {
        if self.calm {
            self.put_calm(even, place, first, second);
        } else {
            self.put_each(even, place, first, second);
        }
    }

    // As `put_spots`, in a calm stretch.
    #[inline(always)]
    fn put_calm(&mut self, even: bool, place: usize, first: Spot, second: Spot)
        requires inside { place < count_of self.old }
        requires calm { self.old.calm ≡ true }
        ensures { ArePut even place (calm_point first) (calm_point second) self.old self.new }
    {
        let here = self.slot(even, place);
        let there = self.slot(!even, place);
        self.set_calm(here, first);
        self.set_calm(there, second);
    }

    // As `put_spots`, where cavities are kept.
    #[cold]
    #[inline(never)]
    fn put_each(&mut self, even: bool, place: usize, first: Spot, second: Spot)
        requires { place < count_of self.old }
        ensures { ArePut even place (calm_point first) (calm_point second) self.old self.new }
    {
        self.put_spot(even, place, first);
        self.put_spot(!even, place, second);
    }

    // Points that may have a cavity, or be Bad.
    #[cold]
    #[inline(never)]
    fn put_points(&mut self, even: bool, place: usize, first: Point, second: Point)
        requires inside { place < count_of self.old }
        requires first { IsPoint first }
        requires second { IsPoint second }
        ensures { ArePut even place first second self.old self.new }
    {
        self.put_of(even, place, first);
        self.put_of(!even, place, second);
    }

    fn put_spot(&mut self, even: bool, place: usize, spot: Spot)
        requires { place < count_of self.old }
        ensures { IsPutIn even place (calm_point spot) self.old self.new }
    {
        let slot = self.slot(even, place);
        self.set_spot(slot, spot);
    }

    fn set_spot(&mut self, slot: usize, spot: Spot)
        requires { slot < 2 * count_of self.old }
        ensures { IsSet slot (calm_point spot) self.old self.new }
    {
        if self.calm {
            self.set_calm(slot, spot);
        } else {
            self.set_parts(
                slot,
                Parts {
                    spot,
                    cavity: Cavity::none(),
                },
            );
        }
    }

    // A point that has a cavity, or is Bad: the stretch isn't calm any more.
    #[cold]
    fn set_other(&mut self, slot: usize, point: &Point)
        requires inside { slot < 2 * count_of self.old }
        requires in_range { IsPoint point.now }
        ensures { IsSet slot point.now self.old self.new }
    {
        self.make_wild();
        self.set_parts(slot, apart(point));
    }

    // From now on the stretch may have cavities and Bad points.
    fn make_wild(&mut self)
        ensures kept { AreSameKept self.old self.new }
        ensures wild { self.new.calm ≡ false }
    {
        if self.calm {
            self.stir();
        }
    }

    #[tactic(auto, unfolding(crate::specs::Stretches::count_of))]
    #[inline(always)]
    pub(crate) fn set_calm(&mut self, slot: usize, spot: Spot)
        requires inside { slot < 2 * count_of self.old }
        requires calm { self.old.calm ≡ true }
        ensures set { IsSet slot (calm_point spot) self.old self.new }
        ensures calm { self.new.calm ≡ true }
    {
        self.spots[slot] = spot;
    }

    #[tactic(auto, unfolding(crate::specs::Stretches::count_of))]
    #[cold]
    #[inline(never)]
    fn set_parts(&mut self, slot: usize, parts: Parts)
        requires inside { slot < 2 * count_of self.old }
        requires wild { self.old.calm ≡ false }
        ensures { IsSet slot
            (with_cavity (calm_point parts.spot) (volume_and_flow parts.cavity))
            self.old self.new }
    {
        self.spots[slot] = parts.spot;
        self.cavities[slot] = parts.cavity;
    }

    // Tells of each point of a calm stretch that it has no cavity, so that one may come.
    fn stir(&mut self)
        requires { self.old.calm ≡ true }
        ensures kept { AreSameKept self.old self.new }
        ensures wild { self.new.calm ≡ false }
    {
        clear(&mut self.cavities);
        self.calm = false;
    }

    // Looks whether a stretch has become calm: no point has a cavity any more, and none is Bad.
    pub(crate) fn settle(&mut self)
        ensures { AreSameKept self.old self.new }
    {
        if !self.calm && are_none(&self.cavities) {
            self.calm = true;
        }
    }
}
