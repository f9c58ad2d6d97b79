//! The board.
ghost use Rattle.std.specs.Prelude.{◌≡◌, ◌^◌, ◌<◌};

use crate::items::Item;
use crate::rule::Rule;
use crate::views::View;
use atomic_table::Table;
use std::alloc::Global;
use std::snapshot::Snapshot;

mod calls;

/// A board of items, shared by the workers that have seats at it. Item i has state word i and
/// slot i.
#[derive(Drop)]
pub struct Board<T: Item> {
    pub table: Table<Option<T>, View<T::Tag>, Snapshot<T::Tag>, Rule<T>, Global>,
    ghost sized: { (table.shared.table_id.words ≡ table.shared.table_id.slots)
        × (0 < table.shared.table_id.slots) × (table.shared.table_id.slots < 2 ^ 32) },
}
