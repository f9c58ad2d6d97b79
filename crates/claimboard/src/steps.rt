//! The kinds of step of a board, as `specs/Steps.antt` says them.
ghost use Rattle.std.specs.Prelude.{◌≡◌, ℕ, ◌^◌, ◌<◌, true, false, [], ◌∷◌, Some, None};
ghost use Rattle.claimboard.specs.Items.{IsItem};
ghost use Rattle.claimboard.specs.Steps.{peeked, claimed, taken_out, put_back, stored, dealing};
ghost use Rattle.claimboard.specs.Steps.{dealt_view, copy_of};

use crate::items::Item;
use crate::rule::{Place, Top};
use crate::views::View;
use atomic_table::{Play, Split};
use std::marker::PhantomData;

/// The state word of an item that is free.
pub(crate) const FREE: u64 = 0;
/// The state word of an item that is finished.
pub(crate) const FINISHED: u64 = 1;
/// The state word of an item that the seat of the number 0 holds.
pub(crate) const HELD: u64 = 2;

/// A load of a state word, which gives the word.
pub(crate) fn peek<T: Item>(top: &Top<T>, seat: &mut Place<T>, number: usize) -> u64
    requires seat { seat.old.table_id ≡ top.now.table_id }
    requires on_board { (number < top.now.table_id.slots)
        × (top.now.table_id.words ≡ top.now.table_id.slots) }
    ensures same { (seat.new.table_id ≡ seat.old.table_id) × (seat.new.id ≡ seat.old.id) }
    ensures peeked { peeked number seat.old.me result seat.new.me }
{
    top.load::<Peeked>(seat, number)
}

/// One compare-and-exchange of a state word, from free to held by the seat of the number `by`. It
/// gives the word that was found.
pub(crate) fn try_take<T: Item>(top: &Top<T>, seat: &mut Place<T>, number: usize, by: u64) -> u64
    requires seat { seat.old.table_id ≡ top.now.table_id }
    requires on_board { (number < top.now.table_id.slots)
        × (top.now.table_id.words ≡ top.now.table_id.slots) }
    requires empty_handed { (seat.old.me.0.item ≡ None) × (seat.old.me.1 ≡ []) }
    requires by { (seat.old.me.0.number ≡ Some by) × (by < 2 ^ 32) }
    ensures same { (seat.new.table_id ≡ seat.old.table_id) × (seat.new.id ≡ seat.old.id) }
    ensures claimed { claimed T.number_of T.is_finished T.is_good number
        seat.old.me result seat.new.me }
{
    top.compare_exchange::<Claimed<T>>(seat, number, FREE, by + HELD)
}

/// The slot exchange that takes the item out of the slot in hand.
pub(crate) fn take_out<T: Item>(top: &Top<T>, seat: &mut Place<T>, number: usize) -> T
    requires seat { seat.old.table_id ≡ top.now.table_id }
    requires in_hand { (x : T) × (seat.old.me.1 ≡ (number, Some x) ∷ []) }
    ensures same { (seat.new.table_id ≡ seat.old.table_id) × (seat.new.id ≡ seat.old.id) }
    ensures out { taken_out number seat.old.me result seat.new.me }
{
    top.exchange(seat, number, None).unwrap()
}

/// The slot exchange that puts the item into the slot in hand, which is empty.
pub(crate) fn put_in<T: Item>(top: &Top<T>, seat: &mut Place<T>, number: usize, item: T)
    requires seat { seat.old.table_id ≡ top.now.table_id }
    requires in_hand { seat.old.me.1 ≡ (number, None) ∷ [] }
    ensures same { (seat.new.table_id ≡ seat.old.table_id) × (seat.new.id ≡ seat.old.id) }
    ensures put { put_back number seat.old.me item seat.new.me }
{
    drop(top.exchange(seat, number, Some(item)));
}

/// A store of free. The item is in the slot in hand, and isn't finished.
pub(crate) fn free<T: Item>(top: &Top<T>, seat: &mut Place<T>, number: usize)
    requires seat { seat.old.table_id ≡ top.now.table_id }
    requires on_board { (number < top.now.table_id.slots)
        × (top.now.table_id.words ≡ top.now.table_id.slots) }
    requires held { (seat.old.me.0.item ≡ Some number)
        × ((n : ℕ) × (seat.old.me.0.number ≡ Some n)) }
    requires in_slot { (x : T) × (seat.old.me.1 ≡ (number, Some x) ∷ [])
        × IsItem T.number_of T.is_finished T.is_good top.now.key.value number false x }
    ensures same { (seat.new.table_id ≡ seat.old.table_id) × (seat.new.id ≡ seat.old.id) }
    ensures stored { stored seat.old.me seat.new.me }
{
    top.store::<Stored>(seat, number, FREE);
}

/// A store of finished. The item is in the slot in hand, and is finished.
pub(crate) fn mark_finished<T: Item>(top: &Top<T>, seat: &mut Place<T>, number: usize)
    requires seat { seat.old.table_id ≡ top.now.table_id }
    requires on_board { (number < top.now.table_id.slots)
        × (top.now.table_id.words ≡ top.now.table_id.slots) }
    requires held { (seat.old.me.0.item ≡ Some number)
        × ((n : ℕ) × (seat.old.me.0.number ≡ Some n)) }
    requires in_slot { (x : T) × (seat.old.me.1 ≡ (number, Some x) ∷ [])
        × IsItem T.number_of T.is_finished T.is_good top.now.key.value number true x }
    ensures same { (seat.new.table_id ≡ seat.old.table_id) × (seat.new.id ≡ seat.old.id) }
    ensures stored { stored seat.old.me seat.new.me }
{
    top.store::<Stored>(seat, number, FINISHED);
}

/// What a load of a state word tells.
struct Peeked;

impl<T, G> Play<Option<T>, View<G>> for Peeked {
    ghost then = { λ st. peeked st.word };
}

/// What the compare-and-exchange of a claim tells.
struct Claimed<T> {
    item: PhantomData<T>,
}

impl<T: Item> Play<Option<T>, View<T::Tag>> for Claimed<T> {
    ghost then = { λ st. claimed T.number_of T.is_finished T.is_good st.word };
}

/// What a store of free or of finished tells.
struct Stored;

impl<T, G> Play<Option<T>, View<G>> for Stored {
    ghost then = { λ _ m _ m'. stored m m' };
}

/// A seat with the next number is split off.
pub(crate) struct Deal;

impl<G> Split<View<G>> for Deal {
    ghost left = { dealing };

    ghost right = { dealt_view };
}

/// A copy of what the seat knows to be finished is split off.
pub(crate) struct CopyKnown;

impl<G> Split<View<G>> for CopyKnown {
    ghost left = { λ v. v };

    ghost right = { copy_of };
}
