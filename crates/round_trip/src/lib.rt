//! The law that the written text of a case reads back as that case.
#![tactic(auto)]

mod accepted;
mod law;
mod texts;

pub use accepted::{accepted_is_writable, accepted_text_reads_back, upgraded_text_reads_back};
pub use law::{written_case_is_its_lines, written_text_is_steady, written_text_reads_back};
pub use texts::{numbers_read_back, written_lines_are_its_fields};
