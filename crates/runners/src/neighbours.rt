//! The histories of strands and of their neighbours.
ghost use Rattle.std.specs.Prelude.{◌≡◌, ◌<◌, length, slice_index_or};
ghost use Rattle.regions.specs.Sides.{back_of, side_of, sides_of};
ghost use Rattle.runners.specs.Tags.{IsRunTag};

use crate::tags::RunTag;
use case_model::Law;
use endhistory::History;
use regions::sides_are_mutual;

// The neighbour of a strand at one of its sides: its number, which of its sides the strand is, and
// its history.
#[derive(Drop, Clone, Copy)]
pub(crate) struct Neighbour<'t> {
    pub(crate) strand: u32,
    pub(crate) back: u32,
    pub(crate) history: &'t History,
}

pub(crate) fn neighbour_at<'t, L: Law>(
    tag: &'t RunTag<L>,
    number: u32,
    side: usize,
) -> Neighbour<'t>
    requires tag { IsRunTag L.meaning tag.now }
    requires there { number < length tag.now.layout.now.shapes }
    requires side { side < sides_of tag.now.layout.now (L.meaning tag.now.law.now).mesh number }
    ensures strand { result.strand
        ≡ side_of tag.now.layout.now (L.meaning tag.now.law.now).mesh number side }
    ensures back { result.back
        ≡ back_of tag.now.layout.now (L.meaning tag.now.law.now).mesh number side }
    ensures there { result.strand < length tag.now.layout.now.shapes }
    ensures within { result.back
        < sides_of tag.now.layout.now (L.meaning tag.now.law.now).mesh result.strand }
    ensures history { result.history.now
        ≡ slice_index_or tag.now.histories.now result.strand result.history.now }
{
    sides_are_mutual();
    let link = tag.plan.link(number, side);
    Neighbour {
        strand: link.strand,
        back: link.back,
        history: &tag.histories[link.strand as usize],
    }
}

// The history of a strand itself.
pub(crate) fn own_history<'t, L>(tag: &'t RunTag<L>, number: u32) -> &'t History
    requires { number < length tag.now.histories.now }
    ensures { result.now ≡ slice_index_or tag.now.histories.now number result.now }
{
    &tag.histories[number as usize]
}
