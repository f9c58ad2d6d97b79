//! Where the ends of each pipe stand among those of the nodes.
ghost use Rattle.std.specs.Prelude.{◌≡◌, ◌≢◌, ℕ, ◌+◌, ◌<◌, ◌≤◌, IfOk, length, slice_index_or};
ghost use Rattle.case_model.specs.Joints.{IsJoinedTo, all_joints, no_joints};
ghost use Rattle.case_model.specs.Joints.{or_joint as joined_or, with_joint as joined_with};
ghost use Rattle.case_model.specs.Mesh.{ends_of, is_end as end_is_of};
ghost use Rattle.std.specs.List.{position_or_len};

use crate::{End, Mesh};
use std::alloc::{AllocError, Global};

/// Where an end of a pipe stands.
#[derive(Clone, Copy, Debug, PartialEq, Eq)]
pub struct Joint {
    /// The index of its node.
    pub node: usize,
    /// Which of that node's ends it is.
    pub index: usize,
}

/// Both ends of a pipe.
#[derive(Clone, Copy, Debug, PartialEq, Eq)]
pub struct PipeJoints {
    /// Its place 0.
    pub first: Joint,
    /// Its last place.
    pub last: Joint,
}

/// Both ends of each pipe, in file order, found in one pass over the ends of all nodes; the count of
/// nodes stands for the node of an end that no node has. Takes memory for them.
pub fn find_joints(alloc: Global, mesh: &Mesh) -> Result<Vec<PipeJoints>, AllocError>
    ensures { IfOk result (λ joints. joints.items ≡ all_joints mesh.now) }
{
    let nodes = mesh.ends.as_slice().len();
    let none = Joint {
        node: nodes,
        index: 0,
    };
    let neither = PipeJoints {
        first: none,
        last: none,
    };
    let mut joints = vec![in alloc; neither; mesh.pipes.as_slice().len()]?;
    for node in 0..nodes {
        join_node(&mut joints, mesh, node);
    }
    Ok(joints)
}

/// Which of the ends of one node that of a pipe is, at its last place or at place 0; their count where
/// none is.
pub fn find_end(ends: &[End], pipe: u32, last: bool) -> usize
    ensures first { result ≡ position_or_len (end_is_of pipe last) ends.now }
    ensures few { result ≤ length ends.now }
{
    for (index, end) in ends.iter().enumerate() {
        if is_end(end, pipe, last) {
            return index;
        }
    }
    ends.len()
}

fn is_end(end: &End, pipe: u32, last: bool) -> bool
    ensures { result ≡ end_is_of pipe last end.now }
{
    end.pipe == pipe && end.at_last == last
}

// Joins the ends of a node, after those of the nodes before it.
fn join_node(joints: &mut [PipeJoints], mesh: &Mesh, node: usize)
    requires there { node < length mesh.now.ends }
    requires before { IsJoinedTo mesh.now node 0 joints.old }
    ensures { IsJoinedTo mesh.now (node + 1) 0 joints.new }
{
    let nodes = mesh.ends.as_slice().len();
    let ends = mesh.ends.as_slice()[node].as_slice();
    for (index, end) in ends.iter().enumerate() {
        join_end(joints, nodes, end, Joint { node, index });
    }
}

// Joins an end of a pipe that was not joined before; `nodes` is the count of all nodes.
fn join_end(joints: &mut [PipeJoints], nodes: usize, end: &End, joint: Joint)
    ensures each { length joints.new ≡ length joints.old }
    ensures own { end.now.pipe < length joints.old →
        slice_index_or joints.new end.now.pipe no_joints
        ≡ joined_with nodes end.now.at_last joint
        (slice_index_or joints.old end.now.pipe no_joints) }
    ensures others { (p : ℕ) → p ≢ end.now.pipe →
        slice_index_or joints.new p no_joints ≡ slice_index_or joints.old p no_joints }
{
    let pipe = end.pipe as usize;
    if pipe < joints.len() {
        let both = joints[pipe];
        joints[pipe] = with_joint(both, nodes, end.at_last, joint);
    }
}

fn with_joint(both: PipeJoints, nodes: usize, last: bool, joint: Joint) -> PipeJoints
    ensures { result ≡ joined_with nodes last joint both }
{
    if last {
        PipeJoints {
            first: both.first,
            last: or_joint(nodes, both.last, joint),
        }
    } else {
        PipeJoints {
            first: or_joint(nodes, both.first, joint),
            last: both.last,
        }
    }
}

// The old joint, or else the new one.
fn or_joint(nodes: usize, old: Joint, new: Joint) -> Joint
    ensures { result ≡ joined_or nodes old new }
{
    if old.node == nodes { new } else { old }
}
