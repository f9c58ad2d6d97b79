//! Valves at the end of a pipe, with the discrete vapour cavity.
ghost use Rattle.std.specs.Prelude.{
  ◌≡◌,
  ◌≤◌,
  ◌==◌,
  ◌&&◌,
  int_le,
  pos,
  ◌-ℤ◌,
  unsigned_abs,
};
ghost use Rattle.std.specs.Int.{int_max};
ghost use Rattle.case_model.specs.Limits.{IsWithin, IsHead, IsValve};
ghost use Rattle.case_model.specs.Range.{IsState};
ghost use Rattle.charline.specs.Characteristics.{IsImpedance, IsArrival};
ghost use Rattle.charline.specs.Characteristics.{impedance_head as head_of_flow};
ghost use Rattle.charline.specs.Characteristics.{flow_in as flow_of};
ghost use Rattle.charline.specs.Cavity.{IsRule};
ghost use Rattle.valves.specs.Orifices.{IsOrifice};
ghost use Rattle.valves.specs.Discharges.{
  end_at as end_of,
  liquid_flow as liquid_flow_of,
  liquid_head as liquid_head_of,
  outflow as outflow_of,
  discharge_growth as growth_of,
  kept_or_closed as kept_of,
  discharge_after as after_of,
  discharge_end as discharge_of,
  discharge_state,
  discharge_flow,
};

use crate::devices::valve_flow;
use crate::orifices::{is_over, open_flow, orifice_flow, square_flow};
use case_model::{Arrival, CavityRule, NodeState, state_of};
use charline::{cavity_volume, driven_flow, impedance_head};
use fixed_num::rnd;

/// A valve: its flow when open (1e-9 m3/s), the head that it loses then, and the head of its outlet
/// (1e-6 m).
#[derive(Clone, Copy, Debug, PartialEq, Eq)]
pub struct Valve {
    /// Flow when open, in 1e-9 m3/s.
    pub q0: i64,
    /// Head lost at that flow, in 1e-6 m.
    pub h0: i64,
    /// Head of the outlet, in 1e-6 m.
    pub outlet: i64,
}

/// The state of a discharge valve at an opening (1e-6) from its old one: its head and its cavity;
/// `flow` receives the flow into the node (1e-9 m3/s). Bad, with the flow 0, exactly where the old state
/// is Bad, the valve is over its limit on its pipe (b*q0^2 over 2*h0*10^24), or a number of the new
/// state is out of range. Wylie and Streeter, Fluid Transients in Systems, valve
/// at the downstream end of a pipe and column separation.
#[tactic(auto, unfolding(crate::specs::Discharges::discharge_state))]
pub fn discharge(
    rule: &CavityRule,
    valve: &Valve,
    opening: i64,
    own: &NodeState,
    arrival: &Arrival,
    flow: &mut i64,
) -> NodeState
    requires rule { IsRule rule.now }
    requires outlet_in { IsHead valve.now.outlet }
    requires opening_in { IsWithin (pos 0) (pos 1_000_000) opening }
    requires own_in { IsState own.now }
    requires arrival_in { IsArrival arrival.now }
    requires valve_in { IsValve valve.now.q0 valve.now.h0 }
    ensures state { result ≡ discharge_state rule.now valve.now opening own.now arrival.now }
    ensures flow { flow.new ≡ discharge_flow rule.now valve.now opening own.now arrival.now }
{
    let (state, q) = discharge_end(rule, valve, opening, own, arrival);
    *flow = q;
    state
}

#[tactic(auto, unfolding(crate::specs::Discharges::discharge_end))]
fn discharge_end(
    rule: &CavityRule,
    valve: &Valve,
    opening: i64,
    own: &NodeState,
    arrival: &Arrival,
) -> (NodeState, i64)
    requires rule { IsRule rule.now }
    requires outlet_in { IsHead valve.now.outlet }
    requires opening_in { IsWithin (pos 0) (pos 1_000_000) opening }
    requires own_in { IsState own.now }
    requires arrival_in { IsArrival arrival.now }
    requires valve_in { IsValve valve.now.q0 valve.now.h0 }
    ensures { result ≡ discharge_of rule.now valve.now opening own.now arrival.now }
{
    match own {
        NodeState::Good { v, g, .. } => {
            if is_over(valve, arrival.b) {
                return (NodeState::Bad, 0);
            }
            let q = liquid_flow(valve, opening, arrival);
            let liquid = Liquid {
                q,
                head: liquid_head(arrival, q),
            };
            let old = Old {
                volume: *v,
                growth: *g,
            };
            discharge_after(rule, valve, opening, &liquid, &old, arrival)
        }
        NodeState::Bad => (NodeState::Bad, 0),
    }
}

// The flow through the valve and the head at it where no cavity is.
#[derive(Drop)]
struct Liquid {
    q: i64,
    head: i128,
}

// What a cavity keeps from the step before: its volume and its growth.
#[derive(Drop)]
struct Old {
    volume: i64,
    growth: i64,
}

fn liquid_flow(valve: &Valve, opening: i64, arrival: &Arrival) -> i64
    requires outlet_in { IsHead valve.now.outlet }
    requires opening_in { IsWithin (pos 0) (pos 1_000_000) opening }
    requires arrival_in { IsArrival arrival.now }
    requires valve_in { IsOrifice arrival.now.b valve.now.q0 valve.now.h0 }
    ensures value { result ≡ liquid_flow_of valve.now opening arrival.now }
    ensures size { unsigned_abs result ≤ 200_000_000_000_000_000 }
{
    valve_flow(arrival.b, valve, opening, arrival.c - valve.outlet)
}

fn liquid_head(arrival: &Arrival, q: i64) -> i128
    requires arrival_in { IsArrival arrival.now }
    requires flow_in { unsigned_abs q ≤ 200_000_000_000_000_000 }
    ensures { result ≡ liquid_head_of arrival.now q }
{
    less(arrival.c, any_impedance_head(arrival.b, q))
}

fn less(c: i64, head: i128) -> i128
    requires c_in { unsigned_abs c ≤ 10_000_000_000_000 }
    requires head_in { unsigned_abs head ≤ 10_000_000_000_000_000_000_000 }
    ensures { result ≡ c -ℤ head }
{
    c as i128 - head
}

fn any_impedance_head(b: i64, q: i64) -> i128
    requires impedance { IsImpedance b }
    requires flow_in { unsigned_abs q ≤ 200_000_000_000_000_000 }
    ensures value { result ≡ head_of_flow b q }
    ensures size { unsigned_abs result ≤ 10_000_000_000_000_000_000_000 }
{
    if q.unsigned_abs() <= 1_000_000_000_000 {
        impedance_head(b, q) as i128
    } else {
        wide_impedance_head(b, q)
    }
}

// A flow out of range is that of no state, but its head still tells whether a cavity opens.
#[tactic(auto, unfolding(charline::specs::Characteristics::impedance_head))]
fn wide_impedance_head(b: i64, q: i64) -> i128
    requires impedance { IsImpedance b }
    requires flow_in { unsigned_abs q ≤ 200_000_000_000_000_000 }
    ensures value { result ≡ head_of_flow b q }
    ensures size { unsigned_abs result ≤ 10_000_000_000_000_000_000_000 }
{
    rnd(b as i128 * q as i128, 1_000_000_000)
}

fn discharge_after(
    rule: &CavityRule,
    valve: &Valve,
    opening: i64,
    liquid: &Liquid,
    old: &Old,
    arrival: &Arrival,
) -> (NodeState, i64)
    requires rule { IsRule rule.now }
    requires outlet_in { IsHead valve.now.outlet }
    requires opening_in { IsWithin (pos 0) (pos 1_000_000) opening }
    requires volume_in { unsigned_abs old.now.volume ≤ 1_000_000_000_000_000 }
    requires growth_in { unsigned_abs old.now.growth ≤ 10_000_000_000_000_000 }
    requires arrival_in { IsArrival arrival.now }
    requires valve_in { IsOrifice arrival.now.b valve.now.q0 valve.now.h0 }
    ensures { result
        ≡ after_of rule.now valve.now opening liquid.now.q liquid.now.head old.now.volume
        old.now.growth arrival.now }
{
    if is_liquid(old.volume, liquid.head, rule.hv) {
        return end_at(liquid.head, 0, 0, liquid.q);
    }
    let inflow = inflow(arrival, rule.hv);
    let now = growth_at(valve, opening, rule.hv, inflow);
    let after = cavity_volume(rule, old.volume, old.growth, now);
    kept_or_closed(rule.hv, liquid, now, after, inflow)
}

fn is_liquid(volume: i64, head: i128, hv: i64) -> bool
    ensures { result ≡ ((unsigned_abs volume == 0) && int_le hv head) }
{
    volume == 0 && head >= hv as i128
}

fn inflow(arrival: &Arrival, hv: i64) -> i64
    requires head_in { IsHead hv }
    requires arrival_in { IsArrival arrival.now }
    ensures value { result ≡ flow_of hv arrival.now }
    ensures size { unsigned_abs result ≤ 200_000_000_000_000_000 }
{
    driven_flow(arrival.c - hv, arrival.b)
}

fn growth_at(valve: &Valve, opening: i64, hv: i64, inflow: i64) -> i64
    requires head_in { IsHead hv }
    requires outlet_in { IsHead valve.now.outlet }
    requires opening_in { IsWithin (pos 0) (pos 1_000_000) opening }
    requires flow { IsWithin (pos 0) (pos 1_000_000_000_000) valve.now.q0 }
    requires loss { IsWithin (pos 10_000) (pos 100_000_000_000) valve.now.h0 }
    requires inflow_in { unsigned_abs inflow ≤ 200_000_000_000_000_000 }
    ensures value { result ≡ outflow_of valve.now opening hv -ℤ inflow }
    ensures size { unsigned_abs result ≤ 400_000_000_000_000_000 }
{
    let square = square_flow(open_flow(valve.q0, opening), valve.h0);
    orifice_flow(square, hv - valve.outlet) - inflow
}

fn kept_or_closed(
    hv: i64,
    liquid: &Liquid,
    growth: i64,
    volume: i128,
    inflow: i64,
) -> (NodeState, i64)
    ensures { result ≡ kept_of hv liquid.now.q liquid.now.head growth volume inflow }
{
    if volume > 0 {
        return end_at(hv as i128, volume, growth as i128, inflow);
    }
    end_at(liquid.head.max(hv as i128), 0, 0, liquid.q)
}

fn end_at(head: i128, volume: i128, growth: i128, flow: i64) -> (NodeState, i64)
    ensures { result ≡ end_of head volume growth flow }
{
    if flow.unsigned_abs() <= 1_000_000_000_000 {
        match state_of(head, volume, growth) {
            NodeState::Good { h, v, g } => return (NodeState::Good { h, v, g }, flow),
            NodeState::Bad => {}
        }
    }
    (NodeState::Bad, 0)
}
