//! What a node has at a step.
/// The state of one node at one step. Good where all its numbers are in range
/// (`IsState`), else Bad.
#[derive(Clone, Copy, Debug, PartialEq, Eq)]
pub enum NodeState {
    /// A state whose numbers are in range.
    Good {
        /// Head, in 1e-6 m, of a size up to 10^11.
        h: i64,
        /// Volume of a cavity or of gas, in 1e-9 m3, from 0 to 10^15.
        v: i64,
        /// Growth of a cavity, or inflow of a tank or vessel, in 1e-9 m3/s, of a size up to 10^16.
        g: i64,
    },
    /// A state that left the range, or was computed from one that did.
    Bad,
}
