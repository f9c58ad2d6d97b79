//! A case: what its text says, as plain types.
use crate::{List, Name};

/// How many probes and watches a case may have.
pub const MOST_PROBES: usize = 256;

/// A case: what its text says, in file order, with names resolved and defaults filled in.
#[derive(Drop, Debug)]
pub struct Case {
    /// Version of the case text, 1 or 2.
    pub version: u8,
    /// Time step, in 1e-6 s.
    pub dt: i64,
    /// Count of steps to compute.
    pub steps: u64,
    /// Vapour head above elevation, in 1e-6 m.
    pub vapour: i64,
    /// Weight psi of the new growth of a cavity, in tenths.
    pub weight: i64,
    /// Greatest adjustment of a wave speed, in 1e-3 of it.
    pub tolerance: i64,
    /// Probes are sampled at the steps that are multiples of this.
    pub every: u64,
    /// How friction is taken; explicitly in version 1.
    pub friction: Friction,
    /// Tables in file order.
    pub tables: List<Table>,
    /// Nodes in file order.
    pub nodes: List<Node>,
    /// Pipes in file order.
    pub pipes: List<Pipe>,
    /// Probes and watches in file order.
    pub probes: List<Probe>,
}

/// How the friction of a reach enters its characteristics.
#[derive(Clone, Copy, Debug, PartialEq, Eq)]
pub enum Friction {
    /// As a loss of head, by the flow at the point that the characteristic leaves.
    Explicit,
    /// As an impedance of the characteristic's own, by that flow.
    Linear,
}

/// A table of pairs, first numbers rising or falling as its kind asks.
#[derive(Drop, Debug)]
pub struct Table {
    /// Its name.
    pub name: Name,
    /// The line of the text that defines it, from 1.
    pub line: u32,
    /// What its numbers are.
    pub kind: TableKind,
    /// Its pairs in file order.
    pub points: List<(i64, i64)>,
}

/// What the pairs of a table are.
#[derive(Clone, Copy, Debug, PartialEq, Eq)]
pub enum TableKind {
    /// Time (1e-6 s) and head (1e-6 m).
    Heads,
    /// Time (1e-6 s) and flow (1e-9 m3/s).
    Flows,
    /// Time (1e-6 s) and opening (1e-6).
    Openings,
    /// Time (1e-6 s) and speed ratio (1e-6).
    Speeds,
    /// Flow (1e-9 m3/s) and pump head (1e-6 m).
    Curve,
    /// Gas volume (1e-9 m3) and head (1e-6 m).
    Gas,
}

/// A number that is fixed, or follows a time table.
#[derive(Clone, Copy, Debug, PartialEq, Eq)]
pub enum Value {
    /// The number, in the unit of what it stands for.
    Fixed(i64),
    /// The index of the table in the case.
    ByTable(u32),
}

/// A node of the network.
#[derive(Clone, Copy, Debug, PartialEq, Eq)]
pub struct Node {
    /// Its name.
    pub name: Name,
    /// The line of the text that defines it, from 1.
    pub line: u32,
    /// Elevation, in 1e-6 m.
    pub elevation: i64,
    /// What stands at the node.
    pub kind: NodeKind,
}

/// What stands at a node. `start` is the head at step 0, in 1e-6 m; `start2` that of the second
/// end where a node has two heads.
#[derive(Clone, Copy, Debug, PartialEq, Eq)]
pub enum NodeKind {
    /// A head that is given over time.
    Reservoir {
        /// Head, in 1e-6 m.
        head: Value,
    },
    /// A junction of pipes with a demand.
    Junction {
        /// Outflow, in 1e-9 m3/s.
        demand: Value,
        /// Head at step 0, in 1e-6 m.
        start: i64,
    },
    /// A valve that discharges from the end of a pipe.
    Discharge {
        /// Flow when open, in 1e-9 m3/s.
        q0: i64,
        /// Head loss at that flow, in 1e-6 m.
        h0: i64,
        /// Head at the outlet, in 1e-6 m.
        outlet: i64,
        /// Opening, in 1e-6.
        opening: Value,
        /// Head at step 0, in 1e-6 m.
        start: i64,
    },
    /// A valve between two pipes.
    Inline {
        /// Flow when open, in 1e-9 m3/s.
        q0: i64,
        /// Head loss at that flow, in 1e-6 m.
        h0: i64,
        /// Opening, in 1e-6.
        opening: Value,
        /// Head at step 0 at the first end, in 1e-6 m.
        start: i64,
        /// Head at step 0 at the second end, in 1e-6 m.
        start2: i64,
    },
    /// A pump between two pipes.
    Pump {
        /// The index of its curve among the tables.
        curve: u32,
        /// Speed ratio, in 1e-6.
        speed: Value,
        /// Head at step 0 at the first end, in 1e-6 m.
        start: i64,
        /// Head at step 0 at the second end, in 1e-6 m.
        start2: i64,
    },
    /// An open surge tank.
    Tank {
        /// Area of its surface, in 1e-6 m2.
        area: i64,
        /// Level at step 0, in 1e-6 m.
        start: i64,
    },
    /// A closed air vessel.
    Vessel {
        /// The index of its gas table among the tables.
        gas: u32,
        /// Gas volume at step 0, in 1e-9 m3.
        volume: i64,
    },
}

/// A pipe; its positive direction is from node `first` to node `last`.
#[derive(Clone, Copy, Debug, PartialEq, Eq)]
pub struct Pipe {
    /// Its name.
    pub name: Name,
    /// The line of the text that defines it, from 1.
    pub line: u32,
    /// The index of the node where it begins.
    pub first: u32,
    /// The index of the node where it ends.
    pub last: u32,
    /// Length, in 1e-3 m.
    pub length: i64,
    /// Diameter, in 1e-3 m.
    pub diameter: i64,
    /// Wave speed, in 1e-3 m/s.
    pub speed: i64,
    /// Friction factor, in 1e-6.
    pub friction: i64,
    /// Flow at step 0, in 1e-9 m3/s.
    pub flow: i64,
}

/// A place whose history is reported.
#[derive(Clone, Copy, Debug, PartialEq, Eq)]
pub struct Probe {
    /// The line of the text that asks for it, from 1.
    pub line: u32,
    /// Where it stands.
    pub at: ProbeAt,
}

/// Where a probe stands.
#[derive(Clone, Copy, Debug, PartialEq, Eq)]
pub enum ProbeAt {
    /// At a place of a pipe.
    OnPipe {
        /// The index of the pipe.
        pipe: u32,
        /// The place, from 0 at its first node to its count of reaches.
        place: u32,
    },
    /// At a node.
    OnNode {
        /// The index of the node.
        node: u32,
    },
}
