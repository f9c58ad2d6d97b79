//! The calls on a board, each with a seat.
ghost use Rattle.std.specs.Prelude.{◌≡◌, ◌<◌, true, false, Some, None, IfSome, IfNone, IsTrue};
ghost use Rattle.claimboard.specs.Views.{view, IsOf, IsSameSeat, found_view, holding};
ghost use Rattle.claimboard.specs.Views.{finished_word, Has, KnowsAll, OnlyLoaded, FoundUnfinished};
ghost use Rattle.claimboard.specs.Answers.{Answers};

use super::Board;
use crate::claims::Claim;
use crate::items::Item;
use crate::rule::{Place, Top};
use crate::seats::{BoardSeat, Done};
use crate::steps::{
    CopyKnown, FINISHED, FREE, free, mark_finished, peek, put_in, take_out, try_take,
};

impl<T: Item> Board<T> {
    /// Claims the item of a number for a seat that holds none, by one exchange of its state word.
    /// Held gives the item, which no other seat holds. Busy: that word held another seat's number.
    /// Finished: it was finished.
    pub fn claim(&self, seat: &mut BoardSeat<T>, number: u32) -> Claim<T>
        requires seat { IsOf self.now.table.shared.table_id
            self.now.table.shared.key.value seat.old.seat }
        requires on_board { number < self.now.table.shared.table_id.slots }
        requires empty_handed { (view seat.old.seat).item ≡ None }
        ensures seat { IsOf self.now.table.shared.table_id
            self.now.table.shared.key.value seat.new.seat }
        ensures same { IsSameSeat seat.old.seat seat.new.seat }
        ensures found { view seat.new.seat ≡ found_view (view seat.old.seat) number
            (view seat.new.seat).found_word (view seat.new.seat).item }
        ensures answer { Answers T.number_of T.is_finished T.is_good
            self.now.table.shared.key.value number result (view seat.new.seat) }
        ensures stays_finished { Has number (view seat.old.seat).finished
            → (view seat.new.seat).found_word ≡ finished_word }
    {
        let shared = &self.table.shared;
        let place = number as usize;
        let found = try_take(shared, &mut seat.seat, place, seat.number);
        if found == FREE {
            return Claim::Held(take_out(shared, &mut seat.seat, place));
        }
        if found == FINISHED {
            return Claim::Finished;
        }
        Claim::Busy
    }

    /// Puts the item that the seat holds back into its slot, and then frees it.
    pub fn give_back(&self, seat: &mut BoardSeat<T>, item: T)
        requires seat { IsOf self.now.table.shared.table_id
            self.now.table.shared.key.value seat.old.seat }
        requires held { (view seat.old.seat).item ≡ Some (T.number_of item) }
        requires good { T.is_good self.now.table.shared.key.value item }
        requires not_finished { T.is_finished item ≡ false }
        ensures seat { IsOf self.now.table.shared.table_id
            self.now.table.shared.key.value seat.new.seat }
        ensures same { IsSameSeat seat.old.seat seat.new.seat }
        ensures view { view seat.new.seat ≡ holding (view seat.old.seat) None }
    {
        let shared = &self.table.shared;
        let number = item.number() as usize;
        put_in(shared, &mut seat.seat, number, item);
        free(shared, &mut seat.seat, number);
    }

    /// Puts the finished item that the seat holds back into its slot, and then says that it is
    /// finished.
    pub fn finish(&self, seat: &mut BoardSeat<T>, item: T)
        requires seat { IsOf self.now.table.shared.table_id
            self.now.table.shared.key.value seat.old.seat }
        requires held { (view seat.old.seat).item ≡ Some (T.number_of item) }
        requires good { T.is_good self.now.table.shared.key.value item }
        requires finished { T.is_finished item ≡ true }
        ensures seat { IsOf self.now.table.shared.table_id
            self.now.table.shared.key.value seat.new.seat }
        ensures same { IsSameSeat seat.old.seat seat.new.seat }
        ensures view { view seat.new.seat ≡ holding (view seat.old.seat) None }
    {
        let shared = &self.table.shared;
        let place = item.number() as usize;
        put_in(shared, &mut seat.seat, place, item);
        mark_finished(shared, &mut seat.seat, place);
    }

    /// Loads the state words in order until one isn't finished. None: the word that was loaded
    /// last, in this call, wasn't.
    pub fn all_finished(&self, seat: &mut BoardSeat<T>) -> Option<Done<T>>
        requires { IsOf self.now.table.shared.table_id
            self.now.table.shared.key.value seat.old.seat }
        ensures seat { IsOf self.now.table.shared.table_id
            self.now.table.shared.key.value seat.new.seat }
        ensures same { IsSameSeat seat.old.seat seat.new.seat }
        ensures only_loaded { OnlyLoaded (view seat.old.seat) (view seat.new.seat) }
        ensures none { IfNone result (FoundUnfinished self.now.table.shared.table_id
            (view seat.old.seat) (view seat.new.seat)) }
        ensures some { IfSome result (λ d. d.seat.table_id ≡ self.now.table.shared.table_id) }
    {
        let shared = &self.table.shared;
        if !find_all_finished(shared, &mut seat.seat, self.table.slot_count()) {
            return None;
        }
        let seat = shared.split_seat::<CopyKnown>(&mut seat.seat);
        Some(Done { seat })
    }
}

/// Whether each state word was found finished. It stops at the first that wasn't.
fn find_all_finished<T: Item>(top: &Top<T>, seat: &mut Place<T>, count: usize) -> bool
    requires seat { seat.old.table_id ≡ top.now.table_id }
    requires words { top.now.table_id.words ≡ top.now.table_id.slots }
    requires count { count ≡ top.now.table_id.slots }
    ensures same { (seat.new.table_id ≡ seat.old.table_id) × (seat.new.id ≡ seat.old.id)
        × (seat.new.me.1 ≡ seat.old.me.1) }
    ensures only_loaded { OnlyLoaded (view seat.old) (view seat.new) }
    ensures all { IsTrue result → KnowsAll top.now.table_id seat.new }
    ensures not_all { (result ≡ false) →
        FoundUnfinished top.now.table_id (view seat.old) (view seat.new) }
{
    for i in 0..count {
        if peek(top, seat, i) != FINISHED {
            return false;
        }
    }
    true
}
