//! What the seats of a board know.
use std::collections::LinkedList;

/// What the thread that has a seat knows. It is for clauses alone: no value of it is made.
pub struct View<G> {
    /// The tag of the board.
    pub tag: G,
    /// The seat's number. A split copy has none.
    pub number: Option<u64>,
    /// How many numbers were given out, where this seat deals them.
    pub dealt: Option<u64>,
    /// The number of the item that the seat holds.
    pub item: Option<u64>,
    /// How many state words the seat has loaded or exchanged.
    pub loads: u64,
    /// The item whose state word was found last.
    pub found_item: u64,
    /// That word.
    pub found_word: u64,
    /// The items whose word was found finished.
    pub finished: LinkedList<u64>,
}
