//! The mesh of a case, and what is handed over at its places.
use crate::List;

/// The most ends of a node, in any version of the case text.
pub const MOST_ENDS: usize = 16;

/// The division of one pipe into reaches.
#[derive(Clone, Copy, Debug, PartialEq, Eq)]
pub struct PipeMesh {
    /// Count of reaches; its places are 0 to this.
    pub reaches: u32,
    /// Characteristic impedance a/(g*A), in 1e-6 s/m2.
    pub b: i64,
    /// Friction of one reach, in 1e-12 s2/m5.
    pub r: i128,
    /// The place number of its place 0.
    pub base: u64,
}

/// An end of a pipe at a node.
#[derive(Clone, Copy, Debug, PartialEq, Eq)]
pub struct End {
    /// The index of the pipe.
    pub pipe: u32,
    /// Whether it is the last place of the pipe, and not place 0.
    pub at_last: bool,
}

/// The mesh of a case: its pipes in reaches, and for each node the pipe ends that meet there.
#[derive(Drop, Debug)]
pub struct Mesh {
    /// The pipes in file order.
    pub pipes: List<PipeMesh>,
    /// For each node its pipe ends, in file order of pipes.
    pub ends: List<List<End>>,
    /// Count of places: the nodes, then the places of each pipe.
    pub places: u64,
}

/// What arrives at a node along one pipe: the characteristic `h = c - b*q` with `q` into the node.
#[derive(Clone, Copy, Debug, PartialEq, Eq)]
pub struct Arrival {
    /// Characteristic value, in 1e-6 m.
    pub c: i64,
    /// Characteristic impedance, in 1e-6 s/m2.
    pub b: i64,
}

/// What the discrete vapour cavity of a place is computed with.
#[derive(Clone, Copy, Debug, PartialEq, Eq)]
pub struct CavityRule {
    /// Time step, in 1e-6 s.
    pub dt: i64,
    /// Weight of the new growth, in tenths.
    pub psi: i64,
    /// Vapour head of the place, in 1e-6 m.
    pub hv: i64,
}

/// What goes through a device between two pipes.
#[derive(Clone, Copy, Debug, PartialEq, Eq)]
pub enum Through {
    /// A flow within range.
    Good {
        /// Flow from the first end to the second, in 1e-9 m3/s.
        q: i64,
        /// Head at the first end, in 1e-6 m.
        h1: i64,
        /// Head at the second end, in 1e-6 m.
        h2: i64,
    },
    /// A number of the result left its range.
    Bad,
}
