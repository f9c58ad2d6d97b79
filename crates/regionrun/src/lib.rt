//! The regions of all strands of a layout, one after another: which points each strand owns, what
//! strands hand to one another, and how each is computed region by region.
#![tactic(auto)]

mod bodies;
mod frontiers;
mod gates;
mod gathering;
mod lawful;
mod lent;
mod making;
mod one_strand;
mod probed;
mod ranges;
mod rounds;
mod serial;
mod sizes;
mod strand_folds;
mod surveys;
mod turns;
mod whole;
mod words;

pub use gates::{EntryStub, Gate, OpenGate, OpenStub};
pub use gathering::{gather, strand_folds_are_parts};
pub use lawful::layouts_are_lawful;
pub use making::make_strands;
pub use one_strand::Strand;
pub use rounds::{MOST_WORKERS, Workers, run_rounds};
pub use serial::run_serial;
pub use surveys::Survey;
pub use whole::compute;
