//! How a stretch takes the points of another one's places over as they stand.
ghost use Rattle.std.specs.Prelude.{◌≡◌, ◌+◌, ◌≤◌, Bool, length, true};
ghost use Rattle.fronts.specs.Rows.{AreCopied, IsRowTaken, IsTaken};
ghost use Rattle.fronts.specs.Stretches.{count_of, slot as slot_of};

use crate::Stretch;
use case_model::Spot;

impl Stretch {
    /// Takes what another stretch keeps of so many places from place `from` on: from `place` on
    /// these points are kept here, each for the same steps.
    #[inline(always)]
    pub fn take(&mut self, place: usize, other: &Stretch, from: usize, count: usize)
        requires inside { place + count ≤ count_of self.old }
        requires there { from + count ≤ count_of other.now }
        ensures { IsTaken place other.now from count self.old self.new }
    {
        self.take_row(true, place, other, from, count);
        self.take_row(false, place, other, from, count);
    }

    // The same of the points for the even steps alone, or of those for the odd ones.
    #[inline(always)]
    fn take_row(&mut self, even: bool, place: usize, other: &Stretch, from: usize, count: usize)
        requires inside { place + count ≤ count_of self.old }
        requires there { from + count ≤ count_of other.now }
        ensures { IsRowTaken even place other.now from count self.old self.new }
    {
        if self.calm && other.calm {
            self.take_calm(even, place, other, from, count);
        } else {
            self.take_points(even, place, other, from, count);
        }
    }

    // As `take_row`, where both stretches are calm.
    #[tactic(auto, unfolding(crate::specs::Stretches::count_of))]
    #[inline(always)]
    fn take_calm(&mut self, even: bool, place: usize, other: &Stretch, from: usize, count: usize)
        requires calm { self.old.calm ≡ true }
        requires other_calm { other.now.calm ≡ true }
        requires inside { place + count ≤ count_of self.old }
        requires there { from + count ≤ count_of other.now }
        ensures { IsRowTaken even place other.now from count self.old self.new }
    {
        let here = self.start(even) + place;
        let there = other.start(even) + from;
        copy_spots(&mut self.spots, here, &other.spots, there, count);
    }

    // As `take_row`, place by place.
    #[cold]
    #[inline(never)]
    fn take_points(&mut self, even: bool, place: usize, other: &Stretch, from: usize, count: usize)
        requires inside { place + count ≤ count_of self.old }
        requires there { from + count ≤ count_of other.now }
        ensures { IsRowTaken even place other.now from count self.old self.new }
    {
        let _ = (self.count(), other.count());
        for index in 0..count {
            self.put_of(even, place + index, other.point_of(even, from + index));
        }
    }
}

// Writes so many spots of one list, from `from` on, over those of another one from `place` on.
#[inline(always)]
fn copy_spots(spots: &mut [Spot], place: usize, other: &[Spot], from: usize, count: usize)
    requires inside { place + count ≤ length spots.old }
    requires there { from + count ≤ length other.now }
    ensures { AreCopied place other.now from count spots.old spots.new }
{
    spots[place..place + count].copy_from_slice(&other[from..from + count]);
}
