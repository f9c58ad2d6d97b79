//! The seats at a board.
ghost use Rattle.std.specs.Prelude.{◌≡◌, ℕ, ◌^◌, ◌<◌, Some};
ghost use Rattle.claimboard.specs.Views.{hand_of, KnowsAll};

use crate::items::Item;
use crate::views::View;
use atomic_table::Seat;

/// A worker's place at a board, with a number of its own. It holds at most one item.
#[derive(Drop)]
pub struct BoardSeat<T: Item> {
    pub seat: Seat<Option<T>, View<T::Tag>>,
    pub(crate) number: u64,
    ghost numbered: { (seat.me.0.number ≡ Some number) × (number < 2 ^ 32) },
    ghost in_hand: { seat.me.1 ≡ hand_of seat.me.0.item },
    ghost on_board: { (i : ℕ) → seat.me.0.item ≡ Some i → i < seat.table_id.slots },
}

/// The knowledge that every item of a board is finished.
#[derive(Drop)]
pub struct Done<T: Item> {
    pub seat: Seat<Option<T>, View<T::Tag>>,
    ghost all: { KnowsAll seat.table_id seat },
}
