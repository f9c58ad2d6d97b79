//! The rule of a board's table.
use crate::items::Item;
use crate::views::View;
use atomic_table::{Seat, Shared, TableRule};
use std::marker::PhantomData;
use std::snapshot::Snapshot;

/// The rule of a board over its table: `OneBoard` of `specs/Board.antt`.
pub struct Rule<T> {
    item: PhantomData<T>,
}

impl<T: Item> TableRule<Option<T>, View<T::Tag>, Snapshot<T::Tag>> for Rule<T> {
    ghost use Rattle.claimboard.specs.Board.{OneBoard};
    ghost use Rattle.claimboard.specs.Views.{first_view};

    ghost holds = { λ key. OneBoard T.number_of T.is_finished T.is_good key.value };

    ghost first = { λ key. first_view key.value };
}

/// The table as threads see it.
pub(crate) type Top<T> = Shared<
    Option<T>,
    View<<T as Item>::Tag>,
    Snapshot<<T as Item>::Tag>,
    Rule<T>,
>;

/// A seat at the table.
pub(crate) type Place<T> = Seat<Option<T>, View<<T as Item>::Tag>>;
