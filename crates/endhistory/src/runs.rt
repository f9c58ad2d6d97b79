//! Several steps of one seat in a row.
ghost use Rattle.std.specs.Prelude.{◌≡◌, ℕ, ◌+◌, ◌*◌, ◌%◌, ◌<◌, ◌≤◌, length, MatchBool};
ghost use Rattle.endhistory.specs.Blocks.{block, IsSizes, word_count};
ghost use Rattle.endhistory.specs.Steps.{IsFree};
ghost use Rattle.endhistory.specs.Seats.{IsAt, IsWriter, IsReader, WritesWith, ReadsWith, HasAsked};
ghost use Rattle.endhistory.specs.Seats.{writing, reading, blocks_of, filled_to, taken_to};
ghost use Rattle.endhistory.specs.Answers.{Finds};

use crate::answers::Vacancy;
use crate::steps::{Check, Fill, Place, Take, Top};
use crate::views::Sizes;

// The word at which the slot of this block begins.
pub(crate) fn slot_start(sizes: Sizes, next: u64) -> usize
    requires { IsSizes sizes }
    ensures start { result ≡ 1 + sizes.readers + next % sizes.slots * sizes.width }
    ensures within { result + sizes.width ≤ word_count sizes }
{
    1 + sizes.readers + (next % sizes.slots as u64) as usize * sizes.width
}

// Whether a reader that has passed so many blocks holds the slot of the next one.
pub(crate) fn holds_slot(sizes: Sizes, next: u64, passed: u64) -> bool
    requires { IsSizes sizes }
    ensures { MatchBool result (passed + sizes.slots ≤ next) (next < passed + sizes.slots) }
{
    let slots = sizes.slots as u64;
    slots <= next && passed <= next - slots
}

// Asks the readers in order whether the slot of the next block is free.
pub(crate) fn check_all(top: &Top, seat: &mut Place, sizes: Sizes, next: u64) -> Vacancy
    requires at { IsAt top.now.table_id sizes seat.old × IsSizes sizes × (sizes ≡ top.now.key) }
    requires writer { IsWriter seat.old × (next ≡ (writing seat.old).next)
        × (length (writing seat.old).known ≡ sizes.readers) }
    ensures seat { WritesWith seat.old (writing seat.new) seat.new }
    ensures asked { (count : ℕ) × HasAsked sizes (writing seat.old) (writing seat.new) count }
    ensures answer { Finds sizes result (writing seat.old) (writing seat.new) }
{
    for reader in 0..sizes.readers {
        let passed = top.load::<Check>(seat, 1 + reader);
        if holds_slot(sizes, next, passed) {
            return Vacancy::Held {
                reader: reader as u32,
                passed,
            };
        }
    }
    Vacancy::Free
}

// Stores the words of the next block into its slot.
pub(crate) fn fill_all(top: &Top, seat: &mut Place, sizes: Sizes, next: u64, words: &[u64])
    requires at { IsAt top.now.table_id sizes seat.old × IsSizes sizes × (sizes ≡ top.now.key) }
    requires writer { IsWriter seat.old × (next ≡ (writing seat.old).next)
        × ((writing seat.old).filled ≡ 0) }
    requires free { IsFree sizes (writing seat.old) }
    requires words { (next < length (blocks_of seat.old))
        × (words.now ≡ block (blocks_of seat.old) next) × (length words.now ≡ sizes.width) }
    ensures { WritesWith seat.old (filled_to (writing seat.old) sizes.width) seat.new }
{
    let start = slot_start(sizes, next);
    for (i, word) in words.iter().enumerate() {
        top.store::<Fill>(seat, start + i, *word);
    }
}

// Loads the words of the next block from its slot.
pub(crate) fn take_all(top: &Top, seat: &mut Place, sizes: Sizes, next: u64, into: &mut [u64])
    requires at { IsAt top.now.table_id sizes seat.old × IsSizes sizes × (sizes ≡ top.now.key) }
    requires reader { IsReader seat.old × (next ≡ (reading seat.old).next)
        × ((reading seat.old).taken ≡ 0) × ((reading seat.old).next < (reading seat.old).seen) }
    requires wide { (length into.old ≡ sizes.width)
        × (length (block (blocks_of seat.old) next) ≡ sizes.width) }
    ensures seat { ReadsWith seat.old (taken_to (reading seat.old) sizes.width) seat.new }
    ensures words { into.new ≡ block (blocks_of seat.old) next }
{
    let start = slot_start(sizes, next);
    for i in 0..into.len() {
        into[i] = top.load::<Take>(seat, start + i);
    }
}
