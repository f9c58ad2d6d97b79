//! Closing a board, which gives its items back.
ghost use Rattle.std.specs.Prelude.{◌≡◌, true, length, IfOk};
ghost use Rattle.claimboard.specs.Items.{AreItems};

use crate::board::Board;
use crate::items::Item;
use crate::seats::Done;
use std::alloc::{AllocError, Global};

impl<T: Item> Board<T> {
    /// Takes the board apart and gives its items in the order of their numbers, each once, all of
    /// them finished.
    pub fn close(self, alloc: Global, done: Done<T>) -> Result<Vec<T>, AllocError>
        requires { done.seat.table_id ≡ self.table.shared.table_id }
        ensures count { IfOk result (λ v. length v.items ≡ self.table.shared.table_id.slots) }
        ensures items { IfOk result (λ v. AreItems T.number_of T.is_finished T.is_good
            self.table.shared.key.value true v.items) }
    {
        let Board { table } = self;
        let Done { seat } = done;
        let count = table.slot_count();
        // Memory is taken while the table may still be dropped whole.
        let mut items = Vec::with_capacity(alloc, count)?;
        let mut closed = table.close_with(seat);
        for i in 0..count {
            items.push_reserved(closed.take(i).unwrap());
        }
        closed.free();
        Ok(items)
    }
}
