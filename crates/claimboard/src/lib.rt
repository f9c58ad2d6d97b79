//! A claim board: items that workers claim, move out, give back and finish, each held by at most
//! one worker at any moment, without a lock.
//!
//! Each item has a state word and a slot of an `atomic_table`. Its rule stands in
//! `specs/Board.antt`, the kinds of step in `specs/Steps.antt`.
#![tactic(auto)]

mod board;
mod claims;
mod closing;
mod items;
mod laws;
mod making;
mod rule;
mod seats;
mod steps;
mod views;

pub use board::Board;
pub use claims::Claim;
pub use items::Item;
pub use laws::one_holder;
pub use making::MOST_SEATS;
pub use rule::Rule;
pub use seats::{BoardSeat, Done};
pub use views::View;
