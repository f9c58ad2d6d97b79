//! The neighbours of strands.
ghost use Rattle.std.specs.Prelude.{◌≡◌, ◌<◌, ◌==◌, ℕ, if◌then◌else◌, length};
ghost use Rattle.case_model.specs.Mesh.{ends_of as ends_are, end_node, end_index};
ghost use Rattle.regions.specs.declared.shapes.Shape.TheVariants.{OfNode};
ghost use Rattle.regions.specs.Cuts.{IsLimited};
ghost use Rattle.regions.specs.LaidOut.{IsLaidOut};
ghost use Rattle.regions.specs.Sides.{end_at as end_is, section_at_end as section_is};
ghost use Rattle.regions.specs.Sides.{shape_at as shape_is, side_of_station as side_is};
ghost use Rattle.regions.specs.Sides.{sides_of, side_of, back_of};

use crate::cuts::sections;
use crate::numbers::section_number;
use crate::{Layout, Shape};
use case_model::{End, Mesh, find_end};

impl Layout {
    /// How many neighbours a strand has: a node one for each of its ends, others two.
    #[tactic(auto, unfolding(crate::specs::Sides::sides_of))]
    pub fn sides(&self, mesh: &Mesh, strand: u32) -> u32
        requires inside { strand < length self.now.shapes }
        requires laid_out { IsLaidOut self.now mesh.now }
        ensures { result ≡ sides_of self.now mesh.now strand }
    {
        match self.shape_at(strand) {
            Shape::OfNode { node } => count_ends(mesh, node),
            Shape::OfSeam { .. } => 2,
            Shape::OfSection { .. } => 2,
        }
    }

    /// The neighbour of a strand at this index, by number: of a node the section at that end, of
    /// others the left and then the right one.
    #[tactic(auto, unfolding(crate::specs::Sides::side_of, crate::specs::Sides::sides_of))]
    pub fn side(&self, mesh: &Mesh, strand: u32, index: u32) -> u32
        requires inside { strand < length self.now.shapes }
        requires index { index < sides_of self.now mesh.now strand }
        requires laid_out { IsLaidOut self.now mesh.now }
        ensures { result ≡ side_of self.now mesh.now strand index }
    {
        match self.shape_at(strand) {
            Shape::OfNode { node } => section_at_end(mesh, self.window, end_at(mesh, node, index)),
            Shape::OfSeam { left, right, .. } => either(index, left, right),
            Shape::OfSection { left, right, .. } => either(index, left, right),
        }
    }

    /// At which index the neighbour of a strand has this strand, by the same end of a pipe.
    #[tactic(auto, unfolding(crate::specs::Sides::back_of, crate::specs::Sides::sides_of))]
    pub fn back(&self, mesh: &Mesh, strand: u32, index: u32) -> u32
        requires inside { strand < length self.now.shapes }
        requires index { index < sides_of self.now mesh.now strand }
        requires laid_out { IsLaidOut self.now mesh.now }
        ensures { result ≡ back_of self.now mesh.now strand index }
    {
        match self.shape_at(strand) {
            Shape::OfNode { node } => end_at(mesh, node, index).at_last as u32,
            Shape::OfSeam { .. } => either(index, 1, 0),
            Shape::OfSection {
                pipe,
                left,
                right,
                ..
            } => {
                if index == 0 {
                    self.side_of_station(mesh, pipe, false, left)
                } else {
                    self.side_of_station(mesh, pipe, true, right)
                }
            }
        }
    }

    // The shape of a strand; node 0 where there is none.
    pub(crate) fn shape_at(&self, strand: u32) -> Shape
        ensures { result ≡ shape_is self.now strand }
    {
        match self.shapes.as_slice().get(strand as usize) {
            Some(shape) => *shape,
            None => Shape::OfNode { node: 0 },
        }
    }

    // Which side of a station the section of this pipe is that ends there, at its last place or its
    // first.
    fn side_of_station(&self, mesh: &Mesh, pipe: u32, last: bool, station: u32) -> u32
        requires limits { IsLimited mesh.now }
        requires node { (node : ℕ) → shape_is self.now station ≡ OfNode node →
            node ≡ end_node mesh.now pipe last }
        ensures { result ≡ side_is mesh.now pipe last (shape_is self.now station) }
    {
        match self.shape_at(station) {
            Shape::OfNode { node } => index_at(mesh, node, pipe, last),
            Shape::OfSeam { .. } => if last { 0 } else { 1 },
            Shape::OfSection { .. } => 0,
        }
    }
}

// How many ends a node has.
fn count_ends(mesh: &Mesh, node: u32) -> u32
    requires { IsLimited mesh.now }
    ensures { result ≡ length (ends_are mesh.now node) }
{
    match mesh.ends.as_slice().get(node as usize) {
        Some(ends) => ends.as_slice().len() as u32,
        None => 0,
    }
}

// The end of a node at this index.
fn end_at(mesh: &Mesh, node: u32, index: u32) -> End
    requires { index < length (ends_are mesh.now node) }
    ensures end { result ≡ end_is mesh.now node index }
    ensures node { node < length mesh.now.ends }
{
    let ends = mesh.ends.as_slice()[node as usize].as_slice();
    ends[index as usize]
}

// Which of the ends of a node that of a pipe is.
fn index_at(mesh: &Mesh, node: u32, pipe: u32, last: bool) -> u32
    requires limits { IsLimited mesh.now }
    requires node { node ≡ end_node mesh.now pipe last }
    ensures { result ≡ end_index mesh.now pipe last }
{
    match mesh.ends.as_slice().get(node as usize) {
        Some(ends) => find_end(ends.as_slice(), pipe, last) as u32,
        None => 0,
    }
}

// The section at this end of a pipe.
fn section_at_end(mesh: &Mesh, window: u64, end: End) -> u32
    requires pipe { end.pipe < length mesh.now.pipes }
    requires limits { IsLimited mesh.now }
    ensures { result ≡ section_is mesh.now window end }
{
    let count = sections(window, mesh.pipes.as_slice()[end.pipe as usize].reaches);
    if end.at_last {
        section_number(mesh, window, end.pipe, count - 1)
    } else {
        section_number(mesh, window, end.pipe, 0)
    }
}

// The first for index 0, else the second.
fn either(index: u32, first: u32, second: u32) -> u32
    ensures { result ≡ (if index == 0 then first else second) }
{
    if index == 0 { first } else { second }
}
