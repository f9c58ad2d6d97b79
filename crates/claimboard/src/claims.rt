//! What a claim answers.
/// What a claim found.
#[derive(Drop)]
pub enum Claim<T> {
    /// The item, which no other seat holds until this one gives it back.
    Held(T),
    /// Another seat held the item.
    Busy,
    /// The item is finished, and stays so.
    Finished,
}
