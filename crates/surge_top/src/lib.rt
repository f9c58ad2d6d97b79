//! The top call of `surge`: words and a case text in, the answer out, under the headline's clause.
#![tactic(auto)]

mod computing;
mod cutting;
mod folding;
mod laws;
mod rows;
mod running;
mod status;
mod top;

pub use command_words::{Command, Job, WordsFault, read_words};
pub use laws::{answers_are_of_their_commands, statuses_have_their_causes};
pub use status::Status;
pub use top::{surge, surge_plain};
