//! What each worker of a run has of its own.
ghost use Rattle.std.specs.Prelude.{◌≡◌, ◌≤◌, length, All, IfOk, MatchOption};
ghost use Rattle.claimboard.specs.Views.{IsReady};

use claimboard::{Board, BoardSeat, Done, Item};
use std::alloc::{AllocError, Global};

/// What a worker has of its own: its seat at the board, room for the block of any strand, and the
/// knowledge that all items of the board are finished, once it has it.
#[derive(Drop)]
pub(crate) struct Hand<T: Item> {
    pub(crate) seat: BoardSeat<T>,
    pub(crate) scratch: Vec<u64>,
    pub(crate) done: Option<Done<T>>,
}

/// A worker for each seat at a board, each with room for so many words. The error is want of
/// memory.
pub(crate) fn seat_workers<T: Item>(
    alloc: Global,
    board: &Board<T>,
    mut seats: Vec<BoardSeat<T>>,
    words: usize,
) -> Result<Vec<Hand<T>>, AllocError>
    requires seats { All (λ s. IsReady board.now.table.shared.table_id
        board.now.table.shared.key.value s.seat) seats.items }
    ensures count { IfOk result (λ hands. length hands.items ≡ length seats.items) }
    ensures seats { IfOk result (λ hands. All (λ hand. IsReady board.now.table.shared.table_id
        board.now.table.shared.key.value hand.seat.seat) hands.items) }
    ensures room { IfOk result (λ hands. All (λ hand. length hand.scratch.items ≡ words)
        hands.items) }
{
    let _ = board;
    let mut hands = Vec::with_capacity(alloc, seats.len())?;
    while let Some(seat) = seats.pop() {
        let scratch = vec![in alloc; 0u64; words]?;
        hands.push(Hand {
            seat,
            scratch,
            done: None,
        })?;
    }
    Ok(hands)
}

/// What a worker knows once it has worked: that all items are finished.
pub(crate) fn take_done<T: Item>(board: &Board<T>, hand: Hand<T>) -> Done<T>
    requires done { MatchOption hand.done ⊥ (λ done. done.seat.table_id
        ≡ board.now.table.shared.table_id) }
    ensures { result.seat.table_id ≡ board.now.table.shared.table_id }
{
    let _ = board;
    let Hand { done, .. } = hand;
    done.unwrap()
}
