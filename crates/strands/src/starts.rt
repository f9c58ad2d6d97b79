//! The initial row in a stretch.
ghost use Rattle.std.specs.Prelude.{◌-◌};
ghost use Rattle.case_model.specs.Meaning.{Meaning};
ghost use Rattle.fronts.specs.Bands.{IsOnMesh};
ghost use Rattle.fronts.specs.Fronts.{Holds, ever, risen};
ghost use Rattle.fronts.specs.Stretches.{AreSamePlaces, count_of};

use crate::ranges::keeps_range;
use case_model::Law;
use fronts::Stretch;

// Puts the points of the initial row at all places.
pub(crate) fn put_starts<L: Law>(law: &L, stretch: &mut Stretch)
    requires on_mesh { IsOnMesh (L.meaning law.now) stretch.old }
    ensures same { AreSamePlaces stretch.old stretch.new }
    ensures holds { Holds (L.meaning law.now) ever (risen (count_of stretch.old - 1) 0)
        stretch.new }
{
    keeps_range(law);
    for place in 0..stretch.count() {
        let point = law.start_point(stretch.pipe, stretch.first + place as u32);
        stretch.put(0, place, point);
    }
}
