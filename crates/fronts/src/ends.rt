//! The point of a place that is lent to a stretch, as a node lends those of its ends.
ghost use Rattle.std.specs.Prelude.{◌≡◌, ℕ, ◌*◌, ◌<◌, true};
ghost use Rattle.case_model.specs.Meaning.{Meaning};
ghost use Rattle.case_model.specs.Range.{IsPoint};
ghost use Rattle.case_model.specs.Runs.{calm_point};
ghost use Rattle.fronts.specs.Fronts.{Holds, Puts, spot};
ghost use Rattle.fronts.specs.Stretches.{count_of, IsPut, IsPutIn};

use crate::Stretch;
use case_model::{Point, Spot};

impl Stretch {
    /// As `put`, of a point that is lent: where neither it nor the stretch has a cavity, it is read
    /// where it stands.
    #[inline(always)]
    pub fn put_lent(&mut self, step: u64, place: usize, point: &Point)
        requires inside { place < count_of self.old }
        requires in_range { IsPoint point.now }
        ensures put { IsPut step place point.now self.old self.new }
        ensures holds { (law : Meaning) (since front sooner later : ℕ → ℕ) →
            Puts step place (count_of self.old) since front sooner later →
            point.now ≡ spot law self.old step place →
            Holds law since front self.old → Holds law sooner later self.new }
    {
        self.put_read(step % 2 == 0, place, point);
    }

    // Keeps a point that is lent for the even steps, or for the odd ones.
    #[inline(always)]
    fn put_read(&mut self, even: bool, place: usize, point: &Point)
        requires inside { place < count_of self.old }
        requires in_range { IsPoint point.now }
        ensures { IsPutIn even place point.now self.old self.new }
    {
        match Spot::of(point) {
            Some(spot) => self.put_still(even, place, spot),
            None => self.put_copied(even, place, point),
        }
    }

    // The same of one without a cavity.
    #[inline(always)]
    fn put_still(&mut self, even: bool, place: usize, spot: Spot)
        requires { place < count_of self.old }
        ensures { IsPutIn even place (calm_point spot) self.old self.new }
    {
        if self.calm {
            let slot = self.slot(even, place);
            self.set_calm(slot, spot);
        } else {
            self.put_copied(even, place, &spot.point());
        }
    }

    // A point that may have a cavity or be Bad, or that comes where cavities are kept.
    #[cold]
    #[inline(never)]
    fn put_copied(&mut self, even: bool, place: usize, point: &Point)
        requires inside { place < count_of self.old }
        requires in_range { IsPoint point.now }
        ensures { IsPutIn even place point.now self.old self.new }
    {
        self.put_of(even, place, *point);
    }
}
