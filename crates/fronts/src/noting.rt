//! How the points of a stretch are noted.
ghost use Rattle.std.specs.Prelude.{◌≡◌, ◌+◌, ◌-◌, ◌^◌, ◌<◌, ◌≤◌, true};
ghost use Rattle.envelope.specs.Cells.{AreInOneSpan};
ghost use Rattle.envelope.specs.Folds.{spans_of, Stands, IsSameFold};
ghost use Rattle.envelope.specs.Notings.{Noted, Agree, union};
ghost use Rattle.fronts.specs.Noted.{run_noted};
ghost use Rattle.fronts.specs.Stretches.{count_of};

use crate::Stretch;
use envelope::{Fold, stands_for_equal_maps};

impl Stretch {
    /// Notes the points of the places from `low` on and below `high` that are kept for a step. A
    /// step past the fold's last changes nothing.
    #[inline(always)]
    pub fn note(&self, fold: &mut Fold, step: u64, low: usize, high: usize)
        requires order { low ≤ high }
        requires inside { high ≤ count_of self.now }
        requires fits { self.now.number + high < 2 ^ 64 }
        requires span { AreInOneSpan (spans_of fold.old) (self.now.number + low) (high - low) }
        ensures stands { (map : Noted) → Stands fold.old map →
            Agree map (run_noted self.now step low high) →
            Stands fold.new (union map (run_noted self.now step low high)) }
        ensures same { IsSameFold fold.old fold.new }
    {
        if self.calm {
            self.note_spots(fold, step, low, high);
        } else {
            self.note_points(fold, step, low, high);
        }
    }

    // As `note`, of a calm stretch.
    #[tactic(auto, unfolding(crate::specs::Stretches::count_of))]
    #[inline(always)]
    fn note_spots(&self, fold: &mut Fold, step: u64, low: usize, high: usize)
        requires calm { self.now.calm ≡ true }
        requires order { low ≤ high }
        requires inside { high ≤ count_of self.now }
        requires fits { self.now.number + high < 2 ^ 64 }
        requires span { AreInOneSpan (spans_of fold.old) (self.now.number + low) (high - low) }
        ensures stands { (map : Noted) → Stands fold.old map →
            Agree map (run_noted self.now step low high) →
            Stands fold.new (union map (run_noted self.now step low high)) }
        ensures same { IsSameFold fold.old fold.new }
    {
        stands_for_equal_maps();
        let before = self.start(step % 2 == 0);
        fold.note_calm(
            step,
            self.number + low as u64,
            &self.spots[before + low..before + high],
        );
    }

    // As `note`, place by place.
    #[inline(never)]
    fn note_points(&self, fold: &mut Fold, step: u64, low: usize, high: usize)
        requires order { low ≤ high }
        requires inside { high ≤ count_of self.now }
        requires fits { self.now.number + high < 2 ^ 64 }
        requires span { AreInOneSpan (spans_of fold.old) (self.now.number + low) (high - low) }
        ensures stands { (map : Noted) → Stands fold.old map →
            Agree map (run_noted self.now step low high) →
            Stands fold.new (union map (run_noted self.now step low high)) }
        ensures same { IsSameFold fold.old fold.new }
    {
        stands_for_equal_maps();
        for place in low..high {
            fold.note(step, self.number + place as u64, &self.point(step, place));
        }
    }
}
