//! Strands, layouts and spots.
use case_model::List;

/// The most steps that a window has.
pub const WIDEST_WINDOW: u64 = 256;

/// What a strand is. `left` and `right` are numbers of strands.
#[derive(Clone, Copy, Debug, PartialEq, Eq)]
pub enum Shape {
    /// A node with all its pipe ends.
    OfNode {
        /// The index of the node.
        node: u32,
    },
    /// A place between two sections of a pipe.
    OfSeam {
        /// The index of the pipe.
        pipe: u32,
        /// Its place.
        place: u32,
        /// The section that ends there.
        left: u32,
        /// The section that begins there.
        right: u32,
    },
    /// The places of a pipe between two stations, which are nodes or seams.
    OfSection {
        /// The index of the pipe.
        pipe: u32,
        /// The place of its left station.
        place: u32,
        /// Its count of reaches.
        reaches: u32,
        /// Its left station.
        left: u32,
        /// Its right station.
        right: u32,
    },
}

/// How a mesh is cut into strands, and its steps into windows.
#[derive(Drop, Debug)]
pub struct Layout {
    /// How many steps a window has.
    pub window: u64,
    /// How many windows there are.
    pub windows: u64,
    /// The strands: nodes, then seams, then sections. A strand's number is its index here.
    pub shapes: List<Shape>,
}

/// What lies in a region at a step.
#[derive(Clone, Copy, Debug, PartialEq, Eq)]
pub enum Spot {
    /// A node.
    AtNode {
        /// The index of the node.
        node: u32,
    },
    /// A place of a pipe.
    Inside {
        /// The index of the pipe.
        pipe: u32,
        /// Its place, 0 to the count of reaches.
        place: u32,
    },
}
