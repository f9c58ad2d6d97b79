//! What the rule of a board says of all its seats. The function here does nothing: its
//! contract is a law.
ghost use Rattle.claimboard.specs.Laws.{OneHolder, NumbersDiffer, FinishedIsHeldByNone};

use crate::items::Item;
use std::marker::PhantomData;

/// What the rule of a board says of all its seats: an item has one holder, a number one seat, and
/// what was found finished no seat holds again.
pub fn one_holder<T: Item>(items: PhantomData<T>)
    ensures holder { OneHolder T.number_of T.is_finished T.is_good }
    ensures numbers { NumbersDiffer T.number_of T.is_finished T.is_good }
    ensures finished { FinishedIsHeldByNone T.number_of T.is_finished T.is_good }
{
    let _ = items;
}
