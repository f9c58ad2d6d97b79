//! The rules of division that a node breaks by itself.
ghost use Rattle.std.specs.Prelude.{◌≡◌, ◌<◌, length};
ghost use Rattle.case_model.specs.Limits.{IsKind, IsNode, IsRead};
ghost use Rattle.case_model.specs.Division.{node_ends, AreEnds};
ghost use Rattle.case_model.specs.Sets.{FindsLeast, any_below};
ghost use Rattle.case_model.specs.Bounds.{LeastOrNone};
ghost use Rattle.case_model.specs.Refusals.{breaks_node, node_rules, ends_suit};
ghost use Rattle.case_model.specs.Refusals.{exceeds as exceeds_of, is_joined as is_joined_of};
ghost use Rattle.case_model.specs.Refusals.{most_ends as most_ends_of, is_through as is_through_of};
ghost use Rattle.reaches.specs.Decided.{AreDecided};

use crate::pipes::Decided;
use crate::refusal::{Refusal, lesser, on};
use crate::valves::valve_over;
use crate::vessels::is_outside_gas;
use case_model::{End, List, Node, NodeKind};

/// The least refusal of single nodes, if any, with the ends at each node.
pub(crate) fn nodes_refusal(decided: &Decided, ends: &[List<End>]) -> Option<Refusal>
    requires read { IsRead decided.now.case.now }
    requires decided { AreDecided decided.now.case.now decided.now.pipes.now }
    requires ends { AreEnds decided.now.case.now ends.now }
    ensures { LeastOrNone
        (any_below (node_rules decided.now.case.now) (length decided.now.case.now.nodes)) result }
{
    let mut least = None;
    for node in 0..decided.case.nodes.as_slice().len() {
        least = lesser(
            least,
            node_refusal(decided, node as u32, ends[node].as_slice()),
        );
    }
    least
}

// The refusal of one node, if any.
fn node_refusal(decided: &Decided, node: u32, ends: &[End]) -> Option<Refusal>
    requires read { IsRead decided.now.case.now }
    requires decided { AreDecided decided.now.case.now decided.now.pipes.now }
    requires there { node < length decided.now.case.now.nodes }
    requires ends { ends.now ≡ node_ends decided.now.case.now node }
    ensures { LeastOrNone (node_rules decided.now.case.now node) result }
{
    let node = &decided.case.nodes.as_slice()[node as usize];
    on(node.line, judge(decided, node, ends))
}

// The least rule that a node with these ends breaks, if any.
#[tactic(auto, unfolding(case_model::specs::Refusals::breaks_node))]
fn judge(decided: &Decided, node: &Node, ends: &[End]) -> Option<u8>
    requires decided { AreDecided decided.now.case.now decided.now.pipes.now }
    requires node { IsNode decided.now.case.now.tables node.now }
    ensures { FindsLeast (breaks_node decided.now.case.now node.now ends.now) result }
{
    if !suits(most_ends(decided.case.version), &node.kind, ends) {
        return Some(11);
    }
    if exceeds(decided, &node.kind, ends) {
        return Some(15);
    }
    None
}

// The most ends of a node, by the version of the case text.
fn most_ends(version: u8) -> usize
    ensures { result ≡ most_ends_of version }
{
    if version == 1 { 8 } else { 16 }
}

// Whether these ends suit a node of this kind, which may have `most` where pipes meet.
#[tactic(auto, unfolding(case_model::specs::Refusals::ends_suit))]
fn suits(most: usize, kind: &NodeKind, ends: &[End]) -> bool
    ensures { result ≡ ends_suit most kind.now ends.now }
{
    match kind {
        NodeKind::Reservoir { .. } => is_joined(most, ends),
        NodeKind::Junction { .. } => is_joined(most, ends),
        NodeKind::Discharge { .. } => ends.len() == 1,
        NodeKind::Inline { .. } => is_through(ends),
        NodeKind::Pump { .. } => is_through(ends),
        NodeKind::Tank { .. } => is_joined(most, ends),
        NodeKind::Vessel { .. } => is_joined(most, ends),
    }
}

// Whether there is an end, and no more than `most`.
fn is_joined(most: usize, ends: &[End]) -> bool
    ensures { result ≡ is_joined_of most ends.now }
{
    1 <= ends.len() && ends.len() <= most
}

// Whether there are just a last end and a first end.
fn is_through(ends: &[End]) -> bool
    ensures { result ≡ is_through_of ends.now }
{
    match ends {
        [] => false,
        [_] => false,
        [one, other] => if one.at_last {
            !other.at_last
        } else {
            other.at_last
        },
        [_, _, _, ..] => false,
    }
}

// Whether a number of a node is out of its limits: that of a valve whose ends suit, or the volume
// of a vessel.
#[tactic(auto, unfolding(case_model::specs::Refusals::exceeds))]
fn exceeds(decided: &Decided, kind: &NodeKind, ends: &[End]) -> bool
    requires decided { AreDecided decided.now.case.now decided.now.pipes.now }
    requires kind { IsKind decided.now.case.now.tables kind.now }
    ensures { result ≡ exceeds_of decided.now.case.now kind.now ends.now }
{
    match kind {
        NodeKind::Reservoir { .. } => false,
        NodeKind::Junction { .. } => false,
        NodeKind::Discharge { q0, h0, .. } => {
            ends.len() == 1 && valve_over(decided, *q0, *h0, ends)
        }
        NodeKind::Inline { q0, h0, .. } => {
            is_through(ends) && valve_over(decided, *q0, *h0, ends)
        }
        NodeKind::Pump { .. } => false,
        NodeKind::Tank { .. } => false,
        NodeKind::Vessel { gas, volume } => is_outside_gas(decided.case, *gas, *volume),
    }
}
