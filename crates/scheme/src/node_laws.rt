//! The law of a node, by its kind.
ghost use Rattle.std.specs.Prelude.{◌≡◌, ◌<◌, ◌≤◌, pos, unsigned_abs, IsTrue, length, [], ◌∷◌, All};
ghost use Rattle.std.specs.Prelude.{IfSome};
ghost use Rattle.case_model.specs.declared.cases.TableKind.TheVariants.{Curve, Gas};
ghost use Rattle.case_model.specs.Limits.{IsHead, IsFlow, IsWithin, IsKind, IsRead, IsTableOf};
ghost use Rattle.case_model.specs.Limits.{IsValve};
ghost use Rattle.case_model.specs.Mesh.{ends_of};
ghost use Rattle.case_model.specs.Parts.{node_at, table_at};
ghost use Rattle.case_model.specs.Range.{IsPoint, IsState};
ghost use Rattle.case_model.specs.Refusals.{is_through};
ghost use Rattle.charline.specs.Cavity.{IsRule};
ghost use Rattle.charline.specs.Characteristics.{IsArrival};
ghost use Rattle.junctions.specs.Junctions.{reservoir_state, reservoir_flows, junction_state};
ghost use Rattle.junctions.specs.Junctions.{junction_flows};
ghost use Rattle.junctions.specs.Sums.{most_arrivals};
ghost use Rattle.valves.specs.Discharges.{discharge_state, discharge_flow};
ghost use Rattle.valves.specs.Devices.{inline_through};
ghost use Rattle.pumps.specs.Pumps.{pump_through};
ghost use Rattle.vessels.specs.Vessels.{tank_state, tank_flows, vessel_state, vessel_flows};
ghost use Rattle.scheme.specs.Computable.{IsComputable, HasEnds, Suits};
ghost use Rattle.scheme.specs.Arrivals.{HasCoefficients, arrivals_from};
ghost use Rattle.scheme.specs.Ends.{end_points as points_of, side_one, side_two, through_state};
ghost use Rattle.scheme.specs.Ends.{through_points};
ghost use Rattle.scheme.specs.NodeLaws.{law_if, law_of_kind, node_law as law_of_node, sole};
ghost use Rattle.scheme.specs.NodeLaws.{valve_of};
ghost use Rattle.scheme.specs.Runs.{ArePrepared};

use crate::arrivals::gather;
use crate::calm_nodes::calm_law;
use crate::ends::{bad_points, end_points, pass, sides};
use crate::prepared::PreparedPipe;
use crate::values::{cavity_rule, demand_at, head_at, opening_at, speed_at};
use crate::valve_ends::valve_law;
use crate::vapour::node_vapour_head;
use case_model::{Arrival, Case, CavityRule, End, MOST_ENDS, Mesh, NodeKind, NodeState, Point};
use junctions::{junction, reservoir};
use pumps::pump_flow;
use valves::{Valve, discharge, inline};
use vessels::{tank, vessel};

/// A node at a step.
#[derive(Clone, Copy)]
pub(crate) struct NodeStep<'a> {
    /// The index of the node.
    pub(crate) node: u32,
    /// The step that is computed.
    pub(crate) step: u64,
    /// What is prepared for the first pipes of the mesh.
    pub(crate) table: &'a [PreparedPipe],
}

/// A node as its law sees it.
#[derive(Clone, Copy)]
pub(crate) struct NodeView<'a> {
    /// What it is.
    pub(crate) kind: &'a NodeKind,
    /// Its pipe ends.
    pub(crate) ends: &'a [End],
    /// The step that is computed.
    pub(crate) step: u64,
    /// Its state at the step before.
    pub(crate) own: &'a NodeState,
    /// What is prepared for the first pipes of the mesh.
    pub(crate) table: &'a [PreparedPipe],
}

/// The state of a node at a step, of its old state and the points beside it; `points` receives the
/// point of each of its ends. Bad exactly where something that it reads is, a characteristic is out of
/// range, a valve is over its limit, or a head, flow or volume of the result is out of range.
pub(crate) fn node_law(
    case: &Case,
    mesh: &Mesh,
    at: &NodeStep,
    own: &NodeState,
    near: &[Point],
    points: &mut [Point],
) -> NodeState
    requires fit { IsComputable case.now mesh.now }
    requires prepared { ArePrepared case.now mesh.now at.now.table.now }
    requires on_mesh { at.now.node < length mesh.now.ends }
    requires near_each { length near.now ≡ length (ends_of mesh.now at.now.node) }
    requires points_each { length points.old ≡ length (ends_of mesh.now at.now.node) }
    requires own_in { IsState own.now }
    requires near_in { All IsPoint near.now }
    ensures state { result
        ≡ (law_of_node case.now mesh.now at.now.node at.now.step own.now near.now).0 }
    ensures points { points.new
        ≡ (law_of_node case.now mesh.now at.now.node at.now.step own.now near.now).1 }
{
    match calm_node(case, mesh, at, own, near, points) {
        Some(state) => state,
        None => {
            // A copy of its own, which is not written where it is not needed.
            let held = *at;
            any_node(case, mesh, &held, own, near, points)
        }
    }
}

// The same where few products tell it.
#[inline(always)]
#[tactic(auto, unfolding(crate::specs::NodeLaws::node_law))]
fn calm_node(
    case: &Case,
    mesh: &Mesh,
    at: &NodeStep,
    own: &NodeState,
    near: &[Point],
    points: &mut [Point],
) -> Option<NodeState>
    requires fit { IsComputable case.now mesh.now }
    requires prepared { ArePrepared case.now mesh.now at.now.table.now }
    requires on_mesh { at.now.node < length mesh.now.ends }
    requires near_each { length near.now ≡ length (ends_of mesh.now at.now.node) }
    requires points_each { length points.old ≡ length (ends_of mesh.now at.now.node) }
    requires own_in { IsState own.now }
    requires near_in { All IsPoint near.now }
    ensures each { length points.new ≡ length (ends_of mesh.now at.now.node) }
    ensures state { IfSome result (λ state. state
        ≡ (law_of_node case.now mesh.now at.now.node at.now.step own.now near.now).0) }
    ensures points { IfSome result (λ state. points.new
        ≡ (law_of_node case.now mesh.now at.now.node at.now.step own.now near.now).1) }
{
    let view = NodeView {
        kind: &case.nodes.as_slice()[at.node as usize].kind,
        ends: mesh.ends.as_slice()[at.node as usize].as_slice(),
        step: at.step,
        own,
        table: at.table,
    };
    let hv = node_vapour_head(case, at.node);
    calm_law(case, mesh, hv, &view, near, points)
}

// The same of any node.
#[inline(never)]
#[tactic(auto, unfolding(crate::specs::NodeLaws::node_law))]
fn any_node(
    case: &Case,
    mesh: &Mesh,
    at: &NodeStep,
    own: &NodeState,
    near: &[Point],
    points: &mut [Point],
) -> NodeState
    requires fit { IsComputable case.now mesh.now }
    requires prepared { ArePrepared case.now mesh.now at.now.table.now }
    requires on_mesh { at.now.node < length mesh.now.ends }
    requires near_each { length near.now ≡ length (ends_of mesh.now at.now.node) }
    requires points_each { length points.old ≡ length (ends_of mesh.now at.now.node) }
    requires own_in { IsState own.now }
    requires near_in { All IsPoint near.now }
    ensures state { result
        ≡ (law_of_node case.now mesh.now at.now.node at.now.step own.now near.now).0 }
    ensures points { points.new
        ≡ (law_of_node case.now mesh.now at.now.node at.now.step own.now near.now).1 }
{
    let view = NodeView {
        kind: &case.nodes.as_slice()[at.node as usize].kind,
        ends: mesh.ends.as_slice()[at.node as usize].as_slice(),
        step: at.step,
        own,
        table: at.table,
    };
    let hv = node_vapour_head(case, at.node);
    law_at(case, mesh, hv, &view, near, points)
}

fn law_at(
    case: &Case,
    mesh: &Mesh,
    hv: i64,
    view: &NodeView,
    near: &[Point],
    points: &mut [Point],
) -> NodeState
    requires read { IsRead case.now }
    requires coefficients { HasCoefficients mesh.now }
    requires prepared { ArePrepared case.now mesh.now view.now.table.now }
    requires head_in { unsigned_abs hv ≤ 100_000_000_000 }
    requires kind_in { IsKind case.now.tables view.now.kind.now }
    requires has_ends { HasEnds view.now.kind.now view.now.ends.now }
    requires ends_in { All (λ e. e.pipe < length mesh.now.pipes) view.now.ends.now }
    requires own_in { IsState view.now.own.now }
    requires near_each { length near.now ≡ length view.now.ends.now }
    requires near_in { All IsPoint near.now }
    requires points_each { length points.old ≡ length view.now.ends.now }
    ensures state { result
        ≡ (law_if case.now hv view.now.kind.now view.now.step view.now.own.now view.now.ends.now
        (arrivals_from case.now.friction mesh.now view.now.ends.now near.now)).0 }
    ensures points { points.new
        ≡ (law_if case.now hv view.now.kind.now view.now.step view.now.own.now view.now.ends.now
        (arrivals_from case.now.friction mesh.now view.now.ends.now near.now)).1 }
{
    match valve_law(case, mesh, hv, view, near, points) {
        Some(state) => state,
        None => gathered_law(case, mesh, hv, view, near, points),
    }
}

// The same by what arrives along each end, in a frame of its own.
#[inline(never)]
fn gathered_law(
    case: &Case,
    mesh: &Mesh,
    hv: i64,
    view: &NodeView,
    near: &[Point],
    points: &mut [Point],
) -> NodeState
    requires read { IsRead case.now }
    requires coefficients { HasCoefficients mesh.now }
    requires prepared { ArePrepared case.now mesh.now view.now.table.now }
    requires head_in { unsigned_abs hv ≤ 100_000_000_000 }
    requires kind_in { IsKind case.now.tables view.now.kind.now }
    requires has_ends { HasEnds view.now.kind.now view.now.ends.now }
    requires ends_in { All (λ e. e.pipe < length mesh.now.pipes) view.now.ends.now }
    requires own_in { IsState view.now.own.now }
    requires near_each { length near.now ≡ length view.now.ends.now }
    requires near_in { All IsPoint near.now }
    requires points_each { length points.old ≡ length view.now.ends.now }
    ensures state { result
        ≡ (law_if case.now hv view.now.kind.now view.now.step view.now.own.now view.now.ends.now
        (arrivals_from case.now.friction mesh.now view.now.ends.now near.now)).0 }
    ensures points { points.new
        ≡ (law_if case.now hv view.now.kind.now view.now.step view.now.own.now view.now.ends.now
        (arrivals_from case.now.friction mesh.now view.now.ends.now near.now)).1 }
{
    let mut arrivals = [Arrival { c: 0, b: 0 }; MOST_ENDS];
    let arrivals = &mut arrivals[..view.ends.len()];
    if !gather(case, mesh, view.table, view.ends, near, arrivals) {
        bad_points(view.ends, points);
        return NodeState::Bad;
    }
    kind_law(case, hv, view, arrivals, points)
}

#[tactic(auto, unfolding(crate::specs::NodeLaws::law_of_kind))]
fn kind_law(
    case: &Case,
    hv: i64,
    view: &NodeView,
    arrivals: &[Arrival],
    points: &mut [Point],
) -> NodeState
    requires read { IsRead case.now }
    requires head_in { unsigned_abs hv ≤ 100_000_000_000 }
    requires kind_in { IsKind case.now.tables view.now.kind.now }
    requires suits { Suits view.now.kind.now view.now.ends.now }
    requires own_in { IsState view.now.own.now }
    requires some { 0 < length view.now.ends.now }
    requires few { length view.now.ends.now ≤ most_arrivals }
    requires each { length arrivals.now ≡ length view.now.ends.now }
    requires points_each { length points.old ≡ length view.now.ends.now }
    requires arrivals_in { All IsArrival arrivals.now }
    ensures state { result
        ≡ (law_of_kind case.now hv view.now.kind.now view.now.step view.now.own.now
        view.now.ends.now arrivals.now).0 }
    ensures points { points.new
        ≡ (law_of_kind case.now hv view.now.kind.now view.now.step view.now.own.now
        view.now.ends.now arrivals.now).1 }
{
    let ends = view.ends;
    match view.kind {
        NodeKind::Reservoir { head } => {
            reservoir_law(head_at(case, head, view.step), ends, arrivals, points)
        }
        NodeKind::Junction { demand, .. } => {
            let rule = cavity_rule(case, hv);
            let demand = demand_at(case, demand, view.step);
            junction_law(&rule, demand, view.own, ends, arrivals, points)
        }
        NodeKind::Discharge {
            q0,
            h0,
            outlet,
            opening,
            ..
        } => {
            let rule = cavity_rule(case, hv);
            let opened = Opened {
                valve: valve(*q0, *h0, *outlet),
                opening: opening_at(case, opening, view.step),
            };
            discharge_law(&rule, &opened, view.own, ends, arrivals, points)
        }
        NodeKind::Inline {
            q0,
            h0,
            opening,
            ..
        } => {
            let opening = opening_at(case, opening, view.step);
            inline_law(*q0, *h0, opening, ends, arrivals, points)
        }
        NodeKind::Pump { curve, speed, .. } => {
            let speed = speed_at(case, speed, view.step);
            pump_law(case, *curve, speed, ends, arrivals, points)
        }
        NodeKind::Tank { area, .. } => {
            tank_law(case.dt, *area, view.own, ends, arrivals, points)
        }
        NodeKind::Vessel { gas, .. } => { vessel_law(case, *gas, view.own, ends, arrivals, points) }
    }
}

/// A valve at an opening.
#[derive(Clone, Copy)]
pub(crate) struct Opened {
    /// The valve.
    pub(crate) valve: Valve,
    /// Its opening, in 1e-6.
    pub(crate) opening: i64,
}

/// A valve with its outlet at a head.
pub(crate) fn valve(q0: i64, h0: i64, outlet: i64) -> Valve
    ensures { result ≡ valve_of q0 h0 outlet }
{
    Valve { q0, h0, outlet }
}

fn reservoir_law(head: i64, ends: &[End], arrivals: &[Arrival], points: &mut [Point]) -> NodeState
    requires head_in { IsHead head }
    requires some { 0 < length ends.now }
    requires few { length ends.now ≤ most_arrivals }
    requires each { length arrivals.now ≡ length ends.now }
    requires points_each { length points.old ≡ length ends.now }
    requires arrivals_in { All IsArrival arrivals.now }
    ensures state { result ≡ reservoir_state head arrivals.now }
    ensures points { points.new ≡ points_of result ends.now (reservoir_flows head arrivals.now) }
{
    let mut flows = [0i64; MOST_ENDS];
    let flows = &mut flows[..ends.len()];
    let state = reservoir(head, arrivals, flows);
    end_points(&state, ends, flows, points);
    state
}

fn junction_law(
    rule: &CavityRule,
    demand: i64,
    own: &NodeState,
    ends: &[End],
    arrivals: &[Arrival],
    points: &mut [Point],
) -> NodeState
    requires rule { IsRule rule.now }
    requires demand_in { IsFlow demand }
    requires own_in { IsState own.now }
    requires some { 0 < length ends.now }
    requires few { length ends.now ≤ most_arrivals }
    requires each { length arrivals.now ≡ length ends.now }
    requires points_each { length points.old ≡ length ends.now }
    requires arrivals_in { All IsArrival arrivals.now }
    ensures state { result ≡ junction_state rule.now demand own.now arrivals.now }
    ensures points { points.new
        ≡ points_of result ends.now (junction_flows rule.now demand own.now arrivals.now) }
{
    let mut flows = [0i64; MOST_ENDS];
    let flows = &mut flows[..ends.len()];
    let state = junction(rule, demand, own, arrivals, flows);
    end_points(&state, ends, flows, points);
    state
}

/// A discharge valve at an opening, of what arrives along its only end.
#[inline(always)]
pub(crate) fn discharge_law(
    rule: &CavityRule,
    opened: &Opened,
    own: &NodeState,
    ends: &[End],
    arrivals: &[Arrival],
    points: &mut [Point],
) -> NodeState
    requires rule { IsRule rule.now }
    requires outlet_in { IsHead opened.now.valve.outlet }
    requires opening_in { IsWithin (pos 0) (pos 1_000_000) opened.now.opening }
    requires own_in { IsState own.now }
    requires one { length ends.now ≡ 1 }
    requires each { length arrivals.now ≡ length ends.now }
    requires points_each { length points.old ≡ length ends.now }
    requires arrivals_in { All IsArrival arrivals.now }
    requires valve_in { IsValve opened.now.valve.q0 opened.now.valve.h0 }
    ensures state { result
        ≡ discharge_state rule.now opened.now.valve opened.now.opening own.now (sole arrivals.now) }
    ensures points { points.new
        ≡ points_of result ends.now
        (discharge_flow rule.now opened.now.valve opened.now.opening own.now (sole arrivals.now)
        ∷ []) }
{
    let mut flows = [0i64];
    let arrival = first(arrivals);
    let state = discharge_end(
        rule,
        &opened.valve,
        opened.opening,
        own,
        &arrival,
        &mut flows,
    );
    end_points(&state, ends, &flows, points);
    state
}

fn discharge_end(
    rule: &CavityRule,
    valve: &Valve,
    opening: i64,
    own: &NodeState,
    arrival: &Arrival,
    flows: &mut [i64],
) -> NodeState
    requires rule { IsRule rule.now }
    requires outlet_in { IsHead valve.now.outlet }
    requires opening_in { IsWithin (pos 0) (pos 1_000_000) opening }
    requires own_in { IsState own.now }
    requires arrival_in { IsArrival arrival.now }
    requires valve_in { IsValve valve.now.q0 valve.now.h0 }
    requires one { length flows.old ≡ 1 }
    ensures state { result ≡ discharge_state rule.now valve.now opening own.now arrival.now }
    ensures flow { flows.new ≡ discharge_flow rule.now valve.now opening own.now arrival.now ∷ [] }
{
    discharge(rule, valve, opening, own, arrival, &mut flows[0])
}

fn first(arrivals: &[Arrival]) -> Arrival
    requires some { 0 < length arrivals.now }
    requires arrivals_in { All IsArrival arrivals.now }
    ensures value { result ≡ sole arrivals.now }
    ensures limits { IsArrival result }
{
    arrivals[0]
}

fn inline_law(
    q0: i64,
    h0: i64,
    opening: i64,
    ends: &[End],
    arrivals: &[Arrival],
    points: &mut [Point],
) -> NodeState
    requires opening_in { IsWithin (pos 0) (pos 1_000_000) opening }
    requires through { IsTrue (is_through ends.now) }
    requires each { length arrivals.now ≡ length ends.now }
    requires points_each { length points.old ≡ length ends.now }
    requires arrivals_in { All IsArrival arrivals.now }
    requires valve_in { IsValve q0 h0 }
    ensures state { result
        ≡ through_state
        (inline_through q0 h0 opening (side_one ends.now arrivals.now)
        (side_two ends.now arrivals.now)) }
    ensures points { points.new
        ≡ through_points
        (inline_through q0 h0 opening (side_one ends.now arrivals.now)
        (side_two ends.now arrivals.now)) ends.now }
{
    let (one, two) = sides(ends, arrivals);
    let valve = valve(q0, h0, 0);
    pass(&inline(&valve, opening, &one, &two), ends, points)
}

fn pump_law(
    case: &Case,
    curve: u32,
    speed: i64,
    ends: &[End],
    arrivals: &[Arrival],
    points: &mut [Point],
) -> NodeState
    requires read { IsRead case.now }
    requires curve_in { IsTableOf Curve case.now.tables curve }
    requires speed_in { IsWithin (pos 0) (pos 2_000_000) speed }
    requires through { IsTrue (is_through ends.now) }
    requires each { length arrivals.now ≡ length ends.now }
    requires points_each { length points.old ≡ length ends.now }
    requires arrivals_in { All IsArrival arrivals.now }
    ensures state { result
        ≡ through_state
        (pump_through (table_at case.now curve).points speed (side_one ends.now arrivals.now)
        (side_two ends.now arrivals.now)) }
    ensures points { points.new
        ≡ through_points
        (pump_through (table_at case.now curve).points speed (side_one ends.now arrivals.now)
        (side_two ends.now arrivals.now)) ends.now }
{
    let (one, two) = sides(ends, arrivals);
    let curve = case.tables.as_slice()[curve as usize].points.as_slice();
    pass(&pump_flow(curve, speed, &one, &two), ends, points)
}

fn tank_law(
    dt: i64,
    area: i64,
    own: &NodeState,
    ends: &[End],
    arrivals: &[Arrival],
    points: &mut [Point],
) -> NodeState
    requires dt_in { IsWithin (pos 1) (pos 1_000_000) dt }
    requires area_in { IsWithin (pos 1) (pos 1_000_000_000) area }
    requires own_in { IsState own.now }
    requires some { 0 < length ends.now }
    requires few { length ends.now ≤ most_arrivals }
    requires each { length arrivals.now ≡ length ends.now }
    requires points_each { length points.old ≡ length ends.now }
    requires arrivals_in { All IsArrival arrivals.now }
    ensures state { result ≡ tank_state dt area own.now arrivals.now }
    ensures points { points.new
        ≡ points_of result ends.now (tank_flows dt area own.now arrivals.now) }
{
    let mut flows = [0i64; MOST_ENDS];
    let flows = &mut flows[..ends.len()];
    let state = tank(dt, area, own, arrivals, flows);
    end_points(&state, ends, flows, points);
    state
}

fn vessel_law(
    case: &Case,
    gas: u32,
    own: &NodeState,
    ends: &[End],
    arrivals: &[Arrival],
    points: &mut [Point],
) -> NodeState
    requires read { IsRead case.now }
    requires gas_in { IsTableOf Gas case.now.tables gas }
    requires own_in { IsState own.now }
    requires some { 0 < length ends.now }
    requires few { length ends.now ≤ most_arrivals }
    requires each { length arrivals.now ≡ length ends.now }
    requires points_each { length points.old ≡ length ends.now }
    requires arrivals_in { All IsArrival arrivals.now }
    ensures state { result
        ≡ vessel_state case.now.dt (table_at case.now gas).points own.now arrivals.now }
    ensures points { points.new
        ≡ points_of result ends.now
        (vessel_flows case.now.dt (table_at case.now gas).points own.now arrivals.now) }
{
    let mut flows = [0i64; MOST_ENDS];
    let flows = &mut flows[..ends.len()];
    let gas = case.tables.as_slice()[gas as usize].points.as_slice();
    let state = vessel(case.dt, gas, own, arrivals, flows);
    end_points(&state, ends, flows, points);
    state
}
