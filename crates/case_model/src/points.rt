//! What a place of the mesh has at a step.
/// The state of one place of a pipe at one step. Good where all its numbers are in range
/// (`IsPoint`), else Bad.
#[derive(Clone, Copy, Debug, PartialEq, Eq)]
pub enum Point {
    /// A point whose numbers are in range.
    Good {
        /// Head, in 1e-6 m, of a size up to 10^11.
        h: i64,
        /// Flow on the upstream side, in 1e-9 m3/s, of a size up to 10^12.
        qu: i64,
        /// Flow on the downstream side, in 1e-9 m3/s, of a size up to 10^12.
        qd: i64,
        /// Volume of the vapour cavity, in 1e-9 m3, from 0 to 10^15.
        v: i64,
    },
    /// A point that left the range, or was computed from one that did.
    Bad,
}
