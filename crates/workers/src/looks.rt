//! What a strand looks like to a worker that doesn't hold it. No clause rests on these looks: they
//! spare claims that nothing would come of.
ghost use Rattle.std.specs.Prelude.{◌<◌, length};
ghost use Rattle.regions.specs.Sides.{sides_of};
ghost use Rattle.runners.specs.Tags.{IsRunTag};

use case_model::Law;
use claimboard::{Board, Item};
use endhistory::History;
use regions::{Layout, Shape, sides_are_mutual};
use runners::RunTag;

// The state word of a strand that no worker holds and that isn't finished.
const FREE: u64 = 0;

/// Whether no worker seems to hold an item of a board, and it isn't finished.
pub(crate) fn looks_free<T: Item>(board: &Board<T>, number: u32) -> bool
    requires { number < board.now.table.shared.table_id.slots }
{
    board.table.shared.peek(number as usize) == FREE
}

/// Whether a strand looks ready for its next region: each neighbour has published a block that the
/// strand hasn't passed, where the region needs one, and each reader of the strand has passed enough
/// that there is a slot for the next block, where one is left to write. A strand that can go on looks
/// ready once what its neighbours did is seen, and a finished one doesn't.
pub(crate) fn looks_ready<L: Law>(tag: &RunTag<L>, number: u32) -> bool
    requires tag { IsRunTag L.meaning tag.now }
    requires there { number < length tag.now.layout.now.shapes }
{
    let own = &tag.histories[number as usize];
    let published = own.published();
    let needs = published > 0 || !is_section(tag.layout, number);
    let writes = published < tag.layout.windows;
    for side in 0..own.sizes.readers {
        if needs && !has_block(tag, number, side) {
            return false;
        }
        if writes && !has_slot(own, side as u32, published) {
            return false;
        }
    }
    true
}

// Whether a strand is a section: its first region needs no block.
fn is_section(layout: &Layout, number: u32) -> bool
    requires { number < length layout.now.shapes }
{
    matches!(
        &layout.shapes.as_slice()[number as usize],
        Shape::OfSection { .. }
    )
}

// Whether the neighbour at a side has published a block that the strand hasn't passed.
fn has_block<L: Law>(tag: &RunTag<L>, number: u32, side: usize) -> bool
    requires tag { IsRunTag L.meaning tag.now }
    requires there { number < length tag.now.layout.now.shapes }
    requires side { side < sides_of tag.now.layout.now (L.meaning tag.now.law.now).mesh number }
{
    sides_are_mutual();
    let link = tag.plan.link(number, side);
    let beside = &tag.histories[link.strand as usize];
    beside.passed(link.back) < beside.published()
}

// Whether a reader has passed enough of so many published blocks that there is a slot for the next.
fn has_slot(history: &History, reader: u32, published: u64) -> bool
    requires { reader < history.now.sizes.readers }
{
    published.saturating_sub(history.passed(reader)) < history.sizes.slots as u64
}
