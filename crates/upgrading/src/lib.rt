//! The law that a case text and its upgrade have the same answer.
#![tactic(auto)]

mod alike;
mod answers;

pub use alike::upgraded_case_is_alike;
pub use answers::upgraded_text_answers_alike;
