//! A node with one head: its state and the flows into it.
ghost use Rattle.std.specs.Prelude.{◌≡◌, ◌≤◌, pos, unsigned_abs, length, replicate, All};
ghost use Rattle.std.specs.List.{list_all};
ghost use Rattle.case_model.specs.declared.states.NodeState.TheVariants.{Bad as BadState};
ghost use Rattle.charline.specs.Characteristics.{IsArrival};
ghost use Rattle.junctions.specs.Levels.{is_flow, inflows, state_at as state_of_node};
ghost use Rattle.junctions.specs.Levels.{filled as filled_at, flows_of};
ghost use Rattle.junctions.specs.Sums.{most_arrivals};

use crate::sums::write_inflows;
use case_model::{Arrival, NodeState, state_of};

/// The state of a node at a head (1e-6 m) with a volume (1e-9 m3) and a growth (1e-9 m3/s); `flows`
/// receives the flow into it along each arrival. Bad, with flows 0, where one of these numbers is out
/// of range.
#[tactic(auto, unfolding(crate::specs::Levels::state_at, crate::specs::Levels::flows_of))]
pub fn state_at(
    head: i128,
    volume: i128,
    growth: i128,
    arrivals: &[Arrival],
    flows: &mut [i64],
) -> NodeState
    requires few { length arrivals.now ≤ most_arrivals }
    requires each { length flows.old ≡ length arrivals.now }
    requires arrivals_in { All IsArrival arrivals.now }
    ensures state { result ≡ state_of_node head volume growth arrivals.now }
    ensures flows { flows.new ≡ flows_of result arrivals.now }
{
    if head.unsigned_abs() > 100_000_000_000 {
        return bad_state(flows);
    }
    write_inflows(head as i64, arrivals, flows);
    state_with_flows(head as i64, volume, growth, arrivals, flows)
}

/// As `state_at`, where `flows` already has the flow along each arrival at the head.
#[tactic(auto, unfolding(crate::specs::Levels::state_at, crate::specs::Levels::flows_of))]
pub fn state_with_flows(
    head: i64,
    volume: i128,
    growth: i128,
    arrivals: &[Arrival],
    flows: &mut [i64],
) -> NodeState
    requires written { flows.old ≡ inflows head arrivals.now }
    ensures state { result ≡ state_of_node head volume growth arrivals.now }
    ensures flows { flows.new ≡ flows_of result arrivals.now }
{
    if are_flows(flows) {
        match state_of(head as i128, volume, growth) {
            NodeState::Good { h, v, g } => return NodeState::Good { h, v, g },
            NodeState::Bad => {}
        }
    }
    bad_state(flows)
}

/// The state of a node at a head (1e-6 m) with a volume (1e-9 m3) that stores what flows into it: its
/// growth is the sum of `flows`, which are as of `state_at`. Bad as there.
#[tactic(auto, unfolding(crate::specs::Levels::state_at, crate::specs::Levels::flows_of))]
pub fn filled(head: i128, volume: i128, arrivals: &[Arrival], flows: &mut [i64]) -> NodeState
    requires few { length arrivals.now ≤ most_arrivals }
    requires each { length flows.old ≡ length arrivals.now }
    requires arrivals_in { All IsArrival arrivals.now }
    ensures state { result ≡ filled_at head volume arrivals.now }
    ensures flows { flows.new ≡ flows_of result arrivals.now }
{
    if head.unsigned_abs() > 100_000_000_000 {
        return bad_state(flows);
    }
    let inflow = write_inflows(head as i64, arrivals, flows);
    state_with_flows(head as i64, volume, inflow as i128, arrivals, flows)
}

/// The Bad state of a node, where every flow is 0.
pub fn bad_state(flows: &mut [i64]) -> NodeState
    ensures state { result ≡ BadState }
    ensures flows { flows.new ≡ replicate (length flows.old) (pos 0) }
{
    flows.fill(0);
    NodeState::Bad
}

fn are_flows(flows: &[i64]) -> bool
    ensures { result ≡ list_all is_flow flows.now }
{
    flows.iter().all(|q| q.unsigned_abs() <= 1_000_000_000_000)
}
