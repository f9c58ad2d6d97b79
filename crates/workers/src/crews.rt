//! What the workers of a run have in common.
use case_model::Law;
use claimboard::Board;
use crossbeam_deque::Stealer;
use regionrun::Gate;
use runners::{RunTag, Runner};

/// What all workers of a run share: what starts and pauses them, the tag of the runners, the board
/// on which these lie, the gate, and the starting numbers.
#[derive(Drop)]
pub(crate) struct Crew<'r, 'a, 'h, R, L: Law, G: Gate> {
    pub(crate) rt: &'r R,
    pub(crate) tag: &'r RunTag<'a, 'h, L>,
    pub(crate) board: &'r Board<Runner<'a, 'h, L, G::Stub>>,
    pub(crate) gate: &'r G,
    pub(crate) starts: &'r Stealer<u32>,
}
