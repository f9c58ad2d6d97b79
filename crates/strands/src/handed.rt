//! Blocks: the points that one strand hands on to another. Those of a strand at rest are read
//! where they stand, in its stretch.
ghost use Rattle.std.specs.Prelude.{◌≡◌, ℕ, ◌+◌, ◌-◌, ◌*◌, ◌/◌, ◌^◌, ◌<◌, ◌≤◌, ◌==◌};
ghost use Rattle.std.specs.Prelude.{if◌then◌else◌, true, false};
ghost use Rattle.case_model.specs.Range.{IsPoint};
ghost use Rattle.case_model.specs.declared.points.Point.{Point as PointSeen};
ghost use Rattle.fronts.specs.Pairs.{first_of, second_of};
ghost use Rattle.fronts.specs.Stretches.{AreSamePlaces, count_of};
ghost use Rattle.strands.specs.Laid.{AreLaid};

use crate::besides::{place_beside, step_in};
use crate::blocks::from_end;
use case_model::Point;
use fronts::{Pair, Stretch};

/// The points that one strand hands on to another, in order: two at each distance from the
/// station, the earlier first.
pub trait Block: Copy {
    /// How many points there are.
    ghost size: { Self → ℕ };

    /// Which point has a number.
    ghost tells: { Self → ℕ → PointSeen → Type 0 };

    /// The point of a number.
    fn point(&self, number: usize) -> Point
        requires { number < size self.now }
        ensures point { (point : PointSeen) → tells self.now number point → result ≡ point }
        ensures in_range { IsPoint result };

    /// The points of two numbers that stand at one distance from the station.
    fn pair(&self, index: usize) -> Pair
        requires there { 2 * index + 1 < size self.now }
        requires fits { 2 * index + 1 < 2 ^ 64 }
        ensures first { (point : PointSeen) → tells self.now (2 * index) point →
            first_of result ≡ point }
        ensures second { (point : PointSeen) → tells self.now (2 * index + 1) point →
            second_of result ≡ point }
        ensures first_in_range { IsPoint (first_of result) }
        ensures second_in_range { IsPoint (second_of result) }
    {
        Pair::Other {
            first: self.point(2 * index),
            second: self.point(2 * index + 1),
        }
    }

    /// Lays the points at so many distances into as many places from the lowest on, upwards or
    /// downwards: the first point for the even steps, or for the odd ones. Where they don't stand
    /// so in a stretch it tells so, and changes nothing.
    #[inline(always)]
    fn lay(&self, stretch: &mut Stretch, up: bool, even: bool, lowest: usize, count: usize) -> bool
        requires there { 2 * count ≤ size self.now }
        requires inside { lowest + count ≤ count_of stretch.old }
        ensures same { AreSamePlaces stretch.old stretch.new }
        ensures laid { result ≡ true →
            AreLaid up even lowest count (tells self.now) stretch.old stretch.new }
        ensures left { result ≡ false → stretch.new ≡ stretch.old }
    {
        let _ = (up, even, lowest, count);
        let _ = stretch;
        false
    }
}

/// The block of a section for the station at its left or its right, over the window of so many
/// steps after `start`.
#[derive(Clone, Copy)]
pub struct SectionBlock<'a> {
    pub(crate) stretch: &'a Stretch,
    // 1 for the left and 0 for the right: after a flag a copy would have seven bytes to fill.
    pub(crate) left: u32,
    pub(crate) window: usize,
    pub(crate) start: u64,
    ghost long: { window + 1 ≤ count_of stretch.now },
    ghost room: { start + window < 2 ^ 64 },
}

impl<'a> SectionBlock<'a> {
    ghost use Rattle.case_model.specs.Meaning.{Meaning};
    ghost use Rattle.fronts.specs.Fronts.{Holds, ever, tent};
    ghost use Rattle.strands.specs.Blocks.{HasPoints, section_side, section_tells};

    /// The block of a section that is computed to its tent.
    pub(crate) fn lend(
        stretch: &'a Stretch,
        left: bool,
        window: usize,
        start: u64,
    ) -> SectionBlock<'a>
        requires long { window + 1 ≤ count_of stretch.now }
        requires room { start + window < 2 ^ 64 }
        ensures points { (law : Meaning) →
            Holds law ever (tent start (count_of stretch.now - 1)) stretch.now →
            HasPoints window (section_side law stretch.now left start) (section_tells result) }
        ensures size { result.window ≡ window }
    {
        SectionBlock {
            stretch,
            left: left as u32,
            window,
            start,
        }
    }
}

impl<'a> Block for SectionBlock<'a> {
    ghost use Rattle.strands.specs.Blocks.{section_tells};

    ghost size = { λ block. block.window };

    ghost tells = { section_tells };

    #[tactic(auto, unfolding(crate::specs::Blocks::section_tells))]
    fn point(&self, number: usize) -> Point {
        let place = from_end(self.left == 1, self.stretch.count() - 1, number / 2 + 1);
        let step = self.start + (number as u64).div_ceil(2);
        self.stretch.point(step, place)
    }

    #[tactic(auto, unfolding(crate::specs::Blocks::section_tells))]
    #[inline(always)]
    fn pair(&self, index: usize) -> Pair {
        let place = from_end(self.left == 1, self.stretch.count() - 1, index + 1);
        self.stretch.pair(self.start + index as u64, place)
    }

    #[inline(always)]
    fn lay(
        &self,
        stretch: &mut Stretch,
        up: bool,
        even: bool,
        lowest: usize,
        count: usize,
    ) -> bool {
        if up != (self.left == 1) || even != (self.start % 2 == 0) {
            return false;
        }
        let from = if up {
            1
        } else {
            self.stretch.count() - 1 - count
        };
        stretch.take(lowest, self.stretch, from, count);
        true
    }
}

/// The block of the station in place `at` of a stretch for the section at its right or its left,
/// over the window of so many steps after `start`: the points of the station and of its triangle.
#[derive(Clone, Copy)]
pub struct StationBlock<'a> {
    pub(crate) stretch: &'a Stretch,
    // 1 for the right and 0 for the left.
    pub(crate) right: u32,
    pub(crate) at: usize,
    pub(crate) window: usize,
    pub(crate) start: u64,
    ghost ahead: { at + (if right == 1 then (window - 1) / 2 else 0) < count_of stretch.now },
    ghost behind: { (if right == 1 then 0 else (window - 1) / 2) ≤ at },
    ghost room: { start + window < 2 ^ 64 },
}

impl<'a> StationBlock<'a> {
    ghost use Rattle.case_model.specs.Meaning.{Meaning};
    ghost use Rattle.fronts.specs.Fronts.{Holds};
    ghost use Rattle.strands.specs.Beside.{HasBeside, IsTriangle, inner_side, station_tells};
    ghost use Rattle.strands.specs.Blocks.{HasPoints};

    /// The block of a station that is computed to the end of the window.
    pub(crate) fn lend(
        stretch: &'a Stretch,
        right: bool,
        at: usize,
        window: usize,
        start: u64,
    ) -> StationBlock<'a>
        requires inside { HasBeside right at ((window - 1) / 2) (count_of stretch.now) }
        requires room { start + window < 2 ^ 64 }
        ensures points { (law : Meaning) (since front : ℕ → ℕ) →
            IsTriangle right at window start since front → Holds law since front stretch.now →
            HasPoints window (inner_side law stretch.now right at window start)
            (station_tells result) }
        ensures size { result.window ≡ window }
    {
        StationBlock {
            stretch,
            right: right as u32,
            at,
            window,
            start,
        }
    }
}

impl<'a> Block for StationBlock<'a> {
    ghost use Rattle.strands.specs.Beside.{station_tells};

    ghost size = { λ block. block.window };

    ghost tells = { station_tells };

    #[tactic(auto, unfolding(crate::specs::Beside::station_tells))]
    fn point(&self, number: usize) -> Point {
        let place = place_beside(self.stretch, self.right == 1, self.at, number / 2);
        let step = self.start + step_in(self.window, number) as u64;
        self.stretch.point(step, place)
    }

    #[tactic(auto, unfolding(crate::specs::Beside::station_tells))]
    #[inline(always)]
    fn pair(&self, index: usize) -> Pair {
        let place = place_beside(self.stretch, self.right == 1, self.at, index);
        self.stretch
            .pair(self.start + (self.window - 1 - index) as u64, place)
    }

    #[inline(always)]
    fn lay(
        &self,
        stretch: &mut Stretch,
        up: bool,
        even: bool,
        lowest: usize,
        count: usize,
    ) -> bool {
        if up != (self.right == 1) || even == ((self.start + self.window as u64) % 2 == 0) {
            return false;
        }
        let _ = self.stretch.count();
        let from = if up { self.at } else { self.at + 1 - count };
        stretch.take(lowest, self.stretch, from, count);
        true
    }
}
