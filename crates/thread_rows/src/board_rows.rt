//! A claim board call by call, and four workers in threads of their own.
ghost use Rattle.std.specs.Prelude.{◌≡◌, ◌==◌, ℕ, ◌<◌, ◌≤◌, IfOk, IfSome, length, slice_index_or};
ghost use Rattle.claimboard.specs.Views.{IsReady};

use claimboard::{Board, BoardSeat, Claim, Done, Item};
use std::alloc::{AllocError, Global};
use std::test::Fail;
use std::thread;

/// How often an item is advanced before it is finished.
const WHOLE: u32 = 100;
/// How often it is advanced, at most, in one claim.
const BURST: u32 = 7;
/// The items of the test across threads.
const ITEMS: u32 = 1_000;

/// An item that counts how often it was advanced.
#[derive(Drop)]
struct Tally {
    place: u32,
    count: u32,
}

impl Item for Tally {
    type Tag = ();

    ghost number_of = { λ t. t.place };

    ghost is_finished = { λ t. t.count == 100 };

    ghost is_good = { λ _ t. t.count ≤ 100 };

    fn number(&self) -> u32 {
        self.place
    }

    fn finished(&self) -> bool {
        self.count == WHOLE
    }
}

#[test]
fn claims_call_by_call(rt: HostRuntime) -> Result<(), Fail> {
    let (board, mut seats) = Board::make(rt.alloc(), (), tallies(rt.alloc(), 2)?, 2)?;
    let (Some(mut second), Some(mut first)) = (seats.pop(), seats.pop()) else {
        panic!(rt; "two seats")
    };
    let Claim::Held(item) = board.claim(&mut first, 0) else {
        panic!(rt; "seat 0 claims item 0")
    };
    assert!(rt; item.place == 0);
    let Claim::Busy = board.claim(&mut second, 0) else {
        panic!(rt; "item 0 is held by seat 0")
    };
    board.give_back(&mut first, item);
    let Claim::Held(mut item) = board.claim(&mut second, 0) else {
        panic!(rt; "seat 1 claims item 0")
    };
    item.count = WHOLE;
    board.finish(&mut second, item);
    let Claim::Finished = board.claim(&mut first, 0) else {
        panic!(rt; "item 0 is finished")
    };
    assert!(rt; board.all_finished(&mut first).is_none());
    let Claim::Held(mut item) = board.claim(&mut first, 1) else {
        panic!(rt; "seat 0 claims item 1")
    };
    assert!(rt; item.place == 1);
    item.count = WHOLE;
    board.finish(&mut first, item);
    let Some(done) = board.all_finished(&mut first) else {
        panic!(rt; "both items are finished")
    };
    let items = board.close(rt.alloc(), done)?;
    assert!(rt; items.len() == 2 && items[0].place == 0 && items[1].place == 1);
    Ok(())
}

#[test]
fn four_workers_share_the_items(rt: HostRuntime) -> Result<(), Fail> {
    let items = tallies(rt.alloc(), ITEMS)?;
    let (board, seats) = Board::make(rt.alloc(), (), items, 4)?;
    let shared = &board;
    let mut found = thread::map_vec(
        &rt,
        seats,
        &|seat: BoardSeat<Tally>| -> Option<Done<Tally>>
            requires seat { IsReady shared.now.table.shared.table_id
                shared.now.table.shared.key.value seat.seat }
            requires items { shared.now.table.shared.table_id.slots ≡ 1000 }
            ensures { IfSome result (λ d. d.seat.table_id
                ≡ shared.entry.now.table.shared.table_id) }
        { work(shared, seat) },
    )?;
    let Some(Some(done)) = found.pop() else {
        panic!(rt; "all items are finished")
    };
    let items = board.close(rt.alloc(), done)?;
    assert!(rt; items.len() == ITEMS as usize);
    for (place, item) in items.iter().enumerate() {
        assert!(rt; item.place as usize == place && item.count == WHOLE);
    }
    Ok(())
}

/// Goes over the items until all are finished.
fn work(board: &Board<Tally>, mut seat: BoardSeat<Tally>) -> Option<Done<Tally>>
    requires seat { IsReady board.now.table.shared.table_id
        board.now.table.shared.key.value seat.seat }
    requires items { board.now.table.shared.table_id.slots ≡ 1000 }
    ensures { IfSome result (λ d. d.seat.table_id ≡ board.now.table.shared.table_id) }
{
    for _ in 0..u64::MAX {
        go_over(board, &mut seat);
        if let Some(done) = board.all_finished(&mut seat) {
            return Some(done);
        }
    }
    None
}

/// One claim of each item.
fn go_over(board: &Board<Tally>, seat: &mut BoardSeat<Tally>)
    requires seat { IsReady board.now.table.shared.table_id
        board.now.table.shared.key.value seat.old.seat }
    requires items { board.now.table.shared.table_id.slots ≡ 1000 }
    ensures { IsReady board.now.table.shared.table_id
        board.now.table.shared.key.value seat.new.seat }
{
    for place in 0..ITEMS {
        advance(board, seat, place);
    }
}

/// Where the claim gives the item, it is advanced by a burst, and given back or finished.
fn advance(board: &Board<Tally>, seat: &mut BoardSeat<Tally>, number: u32)
    requires seat { IsReady board.now.table.shared.table_id
        board.now.table.shared.key.value seat.old.seat }
    requires on_board { number < board.now.table.shared.table_id.slots }
    ensures { IsReady board.now.table.shared.table_id
        board.now.table.shared.key.value seat.new.seat }
{
    let Claim::Held(mut item) = board.claim(seat, number) else {
        return;
    };
    burst(&mut item);
    if item.count == WHOLE {
        board.finish(seat, item);
    } else {
        board.give_back(seat, item);
    }
}

/// Some single advances, until the item is finished.
fn burst(item: &mut Tally)
    requires { item.old.count ≤ 100 }
    ensures place { item.new.place ≡ item.old.place }
    ensures count { item.new.count ≤ 100 }
{
    for _ in 0..BURST {
        if item.count < WHOLE {
            item.count += 1;
        }
    }
}

/// Items with the numbers 0, 1 and so on, none of which was advanced.
fn tallies(alloc: Global, count: u32) -> Result<Vec<Tally>, AllocError>
    ensures { IfOk result (λ v. (length v.items ≡ count) × ((i : ℕ) (d : Tally)
        → i < length v.items → slice_index_or v.items i d ≡ record { place = i; count = 0 })) }
{
    let mut items = Vec::with_capacity(alloc, count as usize)?;
    for place in 0..count {
        items.push_reserved(Tally { place, count: 0 });
    }
    Ok(items)
}
