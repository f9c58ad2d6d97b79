//! Asynchronous runs: workers on threads claim the strands of a layout, advance each as far as its
//! neighbours' blocks and its own slots allow, and give it back, until all are finished.
#![tactic(auto)]

mod apart;
mod bursts;
mod computing;
mod crews;
mod hands;
mod looks;
mod making;
mod runs;
mod scans;
mod starts;
mod together;
mod working;

pub use computing::compute_async;
pub use runs::{Ran, run_async};
pub use together::run_runners;
