//! Making a board and its seats.
ghost use Rattle.std.specs.Prelude.{◌≡◌, ◌<◌, ◌≤◌, false, length, map, Some, IfOk, All};
ghost use Rattle.claimboard.specs.Items.{AreItems};
ghost use Rattle.claimboard.specs.Seats.{AreFresh};
ghost use Rattle.claimboard.specs.Views.{view, IsOf, IsReady};

use crate::board::Board;
use crate::items::Item;
use crate::rule::{Place, Top};
use crate::seats::BoardSeat;
use crate::steps::Deal;
use atomic_table::{Refused, Table};
use std::alloc::{AllocError, Global};
use std::snapshot::Snapshot;

/// How many seats a board may have.
pub const MOST_SEATS: u32 = 64;

impl<T: Item> Board<T> {
    /// A board of the items, all of them free, and as many seats at it as are asked for.
    pub fn make(
        alloc: Global,
        tag: T::Tag,
        items: Vec<T>,
        seats: u32,
    ) -> Result<(Board<T>, Vec<BoardSeat<T>>), AllocError>
        requires some_items { 0 < length items.items }
        requires few_items { length items.items ≤ 1_048_576 }
        requires items { AreItems T.number_of T.is_finished T.is_good tag false items.items }
        requires some_seats { 0 < seats }
        requires few_seats { seats ≤ MOST_SEATS }
        ensures items { IfOk result (λ t. t.0.table.shared.table_id.slots ≡ length items.items) }
        ensures tag { IfOk result (λ t. t.0.table.shared.key.value ≡ tag) }
        ensures count { IfOk result (λ t. length t.1.items ≡ seats) }
        ensures seats { IfOk result (λ t.
            All (λ s. IsReady t.0.table.shared.table_id tag s.seat) t.1.items) }
        ensures fresh { IfOk result (λ t. AreFresh tag t.1.items) }
    {
        let words = vec![in alloc; 0u64; items.len()]?;
        let slots = shelve(alloc, items)?;
        let key = Snapshot::of(&tag);
        match Table::new(alloc, words.as_slice(), slots, &key) {
            Ok((table, mut dealer)) => {
                let seats = deal_seats::<T>(alloc, &table.shared, &mut dealer, seats)?;
                Ok((Board { table }, seats))
            }
            Err(Refused { slots: _ }) => Err(AllocError),
        }
    }
}

/// Each item in a slot.
fn shelve<T: Item>(alloc: Global, items: Vec<T>) -> Result<Vec<Option<T>>, AllocError>
    ensures { IfOk result (λ v. v.items ≡ map Some items.items) }
{
    items.into_iter().map(Some).collect(alloc)
}

/// Seats with the numbers 0, 1 and so on, split off the seat that deals them.
fn deal_seats<T: Item>(
    alloc: Global,
    top: &Top<T>,
    dealer: &mut Place<T>,
    seats: u32,
) -> Result<Vec<BoardSeat<T>>, AllocError>
    requires seat { IsOf top.now.table_id top.now.key.value dealer.old }
    requires words { 0 < top.now.table_id.words }
    requires deals { (view dealer.old).dealt ≡ Some 0 }
    ensures count { IfOk result (λ v. length v.items ≡ seats) }
    ensures seats { IfOk result (λ v.
        All (λ s. IsReady top.now.table_id top.now.key.value s.seat) v.items) }
    ensures fresh { IfOk result (λ v. AreFresh top.now.key.value v.items) }
{
    let mut dealt = Vec::with_capacity(alloc, seats as usize)?;
    for number in 0..seats {
        let seat = top.split_seat::<Deal>(dealer);
        dealt.push(BoardSeat {
            seat,
            number: u64::from(number),
        })?;
    }
    Ok(dealt)
}
