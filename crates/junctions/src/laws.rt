//! The laws of reservoirs and junctions.
ghost use Rattle.std.specs.Prelude.{◌≡◌, ◌<◌, ◌≤◌, ◌*◌, ◌==◌, ◌&&◌, ◌≤ℤ◌, int_le, pos};
ghost use Rattle.std.specs.Prelude.{◌-ℤ◌, ◌*ℤ◌};
ghost use Rattle.std.specs.Prelude.{unsigned_abs, length, All};
ghost use Rattle.fixed_num.specs.Rounding.{rnd as rounded};
ghost use Rattle.std.specs.Int.{int_max};
ghost use Rattle.case_model.specs.Limits.{IsHead, IsFlow};
ghost use Rattle.case_model.specs.Range.{IsState};
ghost use Rattle.charline.specs.Characteristics.{IsArrival};
ghost use Rattle.charline.specs.Cavity.{IsRule};
ghost use Rattle.junctions.specs.Levels.{inflows, flows_of};
ghost use Rattle.junctions.specs.Junctions.{
  reservoir_state,
  reservoir_flows,
  junction_head as head_of,
  junction_after as after_of,
  kept_or_closed as kept_of,
  junction_state,
  junction_flows,
};
ghost use Rattle.junctions.specs.Sums.{most_arrivals};

use crate::levels::{bad_state, state_at, state_with_flows};
use crate::means::mean;
use crate::sums::{weighted_sums, write_inflows};
use case_model::{Arrival, CavityRule, NodeState};
use charline::cavity_volume;
use fixed_num::Guess;

/// The state of a reservoir at its head (1e-6 m); `flows` receives the flow into it (1e-9 m3/s) along
/// each arrival. Bad, with flows 0, where a flow is out of range.
/// Wylie and Streeter, Fluid Transients in Systems, reservoir as a boundary.
#[tactic(auto, unfolding(crate::specs::Junctions::reservoir_state))]
pub fn reservoir(head: i64, arrivals: &[Arrival], flows: &mut [i64]) -> NodeState
    requires head_in { IsHead head }
    requires some { 0 < length arrivals.now }
    requires few { length arrivals.now ≤ most_arrivals }
    requires each { length flows.old ≡ length arrivals.now }
    requires arrivals_in { All IsArrival arrivals.now }
    ensures state { result ≡ reservoir_state head arrivals.now }
    ensures flows { flows.new ≡ reservoir_flows head arrivals.now }
{
    state_at(head as i128, 0, 0, arrivals, flows)
}

/// The state of a junction with a demand (1e-9 m3/s) from its old one: its head and its cavity;
/// `flows` as of a reservoir. Bad, with flows 0, where the old state is Bad or a number of the new one
/// is out of range. Wylie and Streeter, Fluid Transients in Systems, junction of pipes and column
/// separation.
#[tactic(auto, unfolding(crate::specs::Junctions::junction_state, crate::specs::Levels::flows_of))]
pub fn junction(
    rule: &CavityRule,
    demand: i64,
    own: &NodeState,
    arrivals: &[Arrival],
    flows: &mut [i64],
) -> NodeState
    requires rule { IsRule rule.now }
    requires demand_in { IsFlow demand }
    requires own_in { IsState own.now }
    requires some { 0 < length arrivals.now }
    requires few { length arrivals.now ≤ most_arrivals }
    requires each { length flows.old ≡ length arrivals.now }
    requires arrivals_in { All IsArrival arrivals.now }
    ensures state { result ≡ junction_state rule.now demand own.now arrivals.now }
    ensures flows { flows.new ≡ junction_flows rule.now demand own.now arrivals.now }
{
    match own {
        NodeState::Good { v, g, .. } => junction_after(rule, demand, *v, *g, arrivals, flows),
        NodeState::Bad => bad_state(flows),
    }
}

fn junction_after(
    rule: &CavityRule,
    demand: i64,
    volume: i64,
    growth: i64,
    arrivals: &[Arrival],
    flows: &mut [i64],
) -> NodeState
    requires rule { IsRule rule.now }
    requires demand_in { IsFlow demand }
    requires volume_in { unsigned_abs volume ≤ 1_000_000_000_000_000 }
    requires growth_in { unsigned_abs growth ≤ 10_000_000_000_000_000 }
    requires some { 0 < length arrivals.now }
    requires few { length arrivals.now ≤ most_arrivals }
    requires each { length flows.old ≡ length arrivals.now }
    requires arrivals_in { All IsArrival arrivals.now }
    ensures state { result
        ≡ after_of rule.now demand (head_of demand arrivals.now) volume growth arrivals.now }
    ensures flows { flows.new ≡ flows_of result arrivals.now }
{
    let head = junction_head(demand, arrivals);
    if is_liquid(volume, head, rule.hv) {
        return state_at(head as i128, 0, 0, arrivals, flows);
    }
    let now = demand - write_inflows(rule.hv, arrivals, flows);
    let after = cavity_volume(rule, volume, growth, now);
    kept_or_closed(rule.hv, head, now, after, arrivals, flows)
}

fn is_liquid(volume: i64, head: i64, hv: i64) -> bool
    ensures { result ≡ ((unsigned_abs volume == 0) && int_le hv head) }
{
    volume == 0 && head >= hv
}

fn kept_or_closed(
    hv: i64,
    head: i64,
    growth: i64,
    volume: i128,
    arrivals: &[Arrival],
    flows: &mut [i64],
) -> NodeState
    requires few { length arrivals.now ≤ most_arrivals }
    requires written { flows.old ≡ inflows hv arrivals.now }
    requires arrivals_in { All IsArrival arrivals.now }
    ensures state { result ≡ kept_of hv head growth volume arrivals.now }
    ensures flows { flows.new ≡ flows_of result arrivals.now }
{
    if volume > 0 {
        return state_with_flows(hv, volume, growth as i128, arrivals, flows);
    }
    state_at(head.max(hv) as i128, 0, 0, arrivals, flows)
}

#[tactic(auto, unfolding(crate::specs::Junctions::junction_head))]
fn junction_head(demand: i64, arrivals: &[Arrival]) -> i64
    requires demand_in { IsFlow demand }
    requires some { 0 < length arrivals.now }
    requires few { length arrivals.now ≤ most_arrivals }
    requires arrivals_in { All IsArrival arrivals.now }
    ensures value { result ≡ head_of demand arrivals.now }
    ensures size { unsigned_abs result ≤ 10_010_000_000_000_000 }
{
    let (heads, weights) = weighted_sums(arrivals);
    level(demand, heads, weights, Guess::none())
}

/// The head (1e-6 m) of a junction with a demand (1e-9 m3/s), by the sums over what arrives: that of
/// value times weight, and that of the weights.
pub fn level(demand: i64, heads: i128, weights: i128, guess: Guess) -> i64
    requires demand_in { IsFlow demand }
    requires low { pos 1_000_000_000 ≤ℤ weights }
    requires high { weights ≤ℤ pos 1_600_000_000_000_000_000 }
    requires heads_in { unsigned_abs heads ≤ 10_000_000_000_000 * unsigned_abs weights }
    ensures value { result
        ≡ rounded (heads -ℤ (demand *ℤ pos 10_000_000_000_000)) weights }
    ensures size { unsigned_abs result ≤ 10_010_000_000_000_000 }
{
    mean(heads - demand as i128 * 10_000_000_000_000, weights, guess)
}
