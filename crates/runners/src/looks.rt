//! What the readers of a strand look at before a region is entered.
ghost use Rattle.std.specs.Prelude.{◌≡◌, ℕ, ◌<◌, ◌≤◌, length, MatchOption};
ghost use Rattle.endhistory.specs.Seats.{reading};
ghost use Rattle.endhistory.specs.Steps.{looked_view};
ghost use Rattle.regions.specs.Sides.{side_of, sides_of};
ghost use Rattle.runners.specs.Advances.{HasSeen, HaveSeen, IsLate};
ghost use Rattle.runners.specs.Ends.{AreReadersAt, IsReaderAt};
ghost use Rattle.runners.specs.Tags.{IsRunTag};

use crate::neighbours::neighbour_at;
use crate::tags::RunTag;
use case_model::Law;
use endhistory::{Look, Reader};

// Looks once at the published count of each neighbour, in order of sides, until one isn't over its
// reader's next block: that neighbour, and its count.
pub(crate) fn look_beside<L: Law>(
    tag: &RunTag<L>,
    number: u32,
    readers: &mut [Reader],
) -> Option<(u32, u64)>
    requires tag { IsRunTag L.meaning tag.now }
    requires there { number < length tag.now.layout.now.shapes }
    requires readers { (n : ℕ) × AreReadersAt (L.meaning tag.now.law.now) tag.now.layout.now
        tag.now.histories.now number n readers.old }
    ensures readers { (n : ℕ) →
        AreReadersAt (L.meaning tag.now.law.now) tag.now.layout.now tag.now.histories.now number n
        readers.old →
        AreReadersAt (L.meaning tag.now.law.now) tag.now.layout.now tag.now.histories.now number n
        readers.new }
    ensures answer { MatchOption result
        (HaveSeen (length readers.old) readers.old readers.new)
        (λ late. IsLate (L.meaning tag.now.law.now) tag.now.layout.now number late.0 late.1
        readers.old readers.new) }
{
    for side in 0..readers.len() {
        if let Some(late) = look_at(tag, number, side, &mut readers[side]) {
            return Some(late);
        }
    }
    None
}

// Looks at the published count of the neighbour at a side. Where it isn't over the reader's next
// block: the neighbour, and the count.
fn look_at<L: Law>(
    tag: &RunTag<L>,
    number: u32,
    side: usize,
    reader: &mut Reader,
) -> Option<(u32, u64)>
    requires tag { IsRunTag L.meaning tag.now }
    requires there { number < length tag.now.layout.now.shapes }
    requires side { side < sides_of tag.now.layout.now (L.meaning tag.now.law.now).mesh number }
    requires reader { (n : ℕ) × IsReaderAt (L.meaning tag.now.law.now) tag.now.layout.now
        tag.now.histories.now number side n reader.old }
    ensures reader { (n : ℕ) →
        IsReaderAt (L.meaning tag.now.law.now) tag.now.layout.now tag.now.histories.now number side
        n reader.old →
        IsReaderAt (L.meaning tag.now.law.now) tag.now.layout.now tag.now.histories.now number side
        n reader.new }
    ensures answer { MatchOption result
        (HasSeen (reading reader.old.seat) (reading reader.new.seat))
        (λ late.
        (side_of tag.now.layout.now (L.meaning tag.now.law.now).mesh number side ≡ late.0)
        × (reading reader.new.seat ≡ looked_view (reading reader.old.seat) late.1)
        × (late.1 ≤ (reading reader.old.seat).next)) }
{
    let beside = neighbour_at(tag, number, side);
    match beside.history.look(reader) {
        Look::Ready => None,
        Look::NotYet { published } => Some((beside.strand, published)),
    }
}
