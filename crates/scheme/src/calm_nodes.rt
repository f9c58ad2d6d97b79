//! Junctions of few ends that have no cavity and get none, by what is prepared for their pipes.
ghost use Rattle.std.specs.Prelude.{◌≡◌, ◌<◌, ◌≤◌, ◌*◌, ◌+ℤ◌, ◌≤ℤ◌, pos, unsigned_abs};
ghost use Rattle.std.specs.Prelude.{true, length, All, IfSome, Some};
ghost use Rattle.std.specs.List.{list_all};
ghost use Rattle.case_model.specs.Limits.{IsFlow, IsKind, IsRead};
ghost use Rattle.case_model.specs.Range.{IsPoint};
ghost use Rattle.case_model.specs.declared.cases.Case.{Case as CaseSeen};
ghost use Rattle.case_model.specs.declared.meshes.Mesh.{Mesh as MeshSeen};
ghost use Rattle.case_model.specs.declared.states.NodeState.TheVariants.{Good as GoodState};
ghost use Rattle.charline.specs.Characteristics.{IsArrival, flow_in};
ghost use Rattle.junctions.specs.Levels.{inflows, is_flow};
ghost use Rattle.junctions.specs.Sums.{sum_of, weight as weight_of, weighted_head};
ghost use Rattle.scheme.specs.Arrivals.{arrival_from as arrival_of, arrivals_from};
ghost use Rattle.scheme.specs.Arrivals.{impedance as impedance_of};
ghost use Rattle.scheme.specs.CalmNodes.{AreOfPipes, IsJunction, is_closed as is_closed_state};
ghost use Rattle.scheme.specs.Ends.{along as along_end, end_points as points_of};
ghost use Rattle.scheme.specs.Ends.{flowing as point_with};
ghost use Rattle.scheme.specs.NodeLaws.{law_if};
ghost use Rattle.scheme.specs.Runs.{ArePrepared};
ghost use Rattle.scheme.specs.Values.{rule_at};

use crate::arrivals::arrival_along;
use crate::node_laws::NodeView;
use crate::prepared::PreparedPipe;
use crate::values::demand_at;
use case_model::{Arrival, Case, End, Mesh, NodeKind, NodeState, Point};
use charline::Prepared;
use fixed_num::Guess;
use junctions::{level, weighted};

// The most ends of a node that is computed here.
const FEW: usize = 4;

// What settles the head of a junction beside what arrives.
#[derive(Clone, Copy)]
struct Held {
    // Its demand, in 1e-9 m3/s.
    demand: i64,
    // Its vapour head, in 1e-6 m.
    hv: i64,
}

// The sums over what arrives of value times weight, and of the weights.
#[derive(Clone, Copy)]
struct Sums {
    heads: i128,
    weights: i64,
}

// What arrives along an end, and its weight.
#[derive(Clone, Copy)]
struct Weighed {
    arrival: Arrival,
    weight: i64,
}

/// The state of a node by its law and the points of its ends; None where any node's law is to tell.
#[inline(always)]
pub(crate) fn calm_law(
    case: &Case,
    mesh: &Mesh,
    hv: i64,
    view: &NodeView,
    near: &[Point],
    points: &mut [Point],
) -> Option<NodeState>
    requires read { IsRead case.now }
    requires prepared { ArePrepared case.now mesh.now view.now.table.now }
    requires kind_in { IsKind case.now.tables view.now.kind.now }
    requires some { 0 < length view.now.ends.now }
    requires near_each { length near.now ≡ length view.now.ends.now }
    requires near_in { All IsPoint near.now }
    requires points_each { length points.old ≡ length view.now.ends.now }
    ensures each { length points.new ≡ length view.now.ends.now }
    ensures state { IfSome result (λ state. state
        ≡ (law_if case.now hv view.now.kind.now view.now.step view.now.own.now view.now.ends.now
        (arrivals_from case.now.friction mesh.now view.now.ends.now near.now)).0) }
    ensures points { IfSome result (λ state. points.new
        ≡ (law_if case.now hv view.now.kind.now view.now.step view.now.own.now view.now.ends.now
        (arrivals_from case.now.friction mesh.now view.now.ends.now near.now)).1) }
{
    match view.kind {
        NodeKind::Junction { demand, .. } => {
            if view.ends.len() > FEW || !is_closed(view.own) {
                return None;
            }
            let held = Held {
                demand: demand_at(case, demand, view.step),
                hv,
            };
            calm_junction(case, mesh, held, view, near, points)
        }
        _ => None,
    }
}

// Whether a node has no cavity.
fn is_closed(own: &NodeState) -> bool
    ensures { result ≡ is_closed_state own.now }
{
    match own {
        NodeState::Good { v, .. } => *v == 0,
        NodeState::Bad => false,
    }
}

// A junction that has no cavity, where it gets none.
#[inline(always)]
fn calm_junction(
    case: &Case,
    mesh: &Mesh,
    held: Held,
    view: &NodeView,
    near: &[Point],
    points: &mut [Point],
) -> Option<NodeState>
    requires prepared { ArePrepared case.now mesh.now view.now.table.now }
    requires demand_in { IsFlow held.demand }
    requires closed { is_closed_state view.now.own.now ≡ true }
    requires some { 0 < length view.now.ends.now }
    requires few { length view.now.ends.now ≤ 4 }
    requires near_each { length near.now ≡ length view.now.ends.now }
    requires near_in { All IsPoint near.now }
    requires points_each { length points.old ≡ length view.now.ends.now }
    ensures each { length points.new ≡ length view.now.ends.now }
    ensures junction { IfSome result (λ state.
        IsJunction (rule_at case.now held.hv) held.demand view.now.own.now view.now.ends.now
        (arrivals_from case.now.friction mesh.now view.now.ends.now near.now) state points.new) }
{
    let mut room = [Arrival { c: 0, b: 0 }; FEW];
    let arrivals = &mut room[..view.ends.len()];
    match gather_few(case, mesh, view.table, view.ends, near, arrivals) {
        Some(sums) => {
            let guess = guess_at(view.table, view.ends);
            let head = level(held.demand, sums.heads, sums.weights as i128, guess);
            if head < held.hv || head.unsigned_abs() > 100_000_000_000 {
                return None;
            }
            if put_level(case, mesh, view, arrivals, head, points) {
                Some(NodeState::Good {
                    h: head,
                    v: 0,
                    g: 0,
                })
            } else {
                None
            }
        }
        None => None,
    }
}

// What quotients by the weights of these ends are guessed with.
#[inline(always)]
fn guess_at(table: &[PreparedPipe], ends: &[End]) -> Guess {
    if let Some(end) = ends.first() {
        if let Some(PreparedPipe::Explicit(prepared)) = table.get(end.pipe as usize) {
            return prepared.guess(end.at_last);
        }
    }
    Guess::none()
}

// What arrives along each end, and the sums over it.
#[inline(always)]
fn gather_few(
    case: &Case,
    mesh: &Mesh,
    table: &[PreparedPipe],
    ends: &[End],
    near: &[Point],
    arrivals: &mut [Arrival],
) -> Option<Sums>
    requires prepared { ArePrepared case.now mesh.now table.now }
    requires some { 0 < length ends.now }
    requires few { length ends.now ≤ 4 }
    requires near_in { All IsPoint near.now }
    requires near_each { length near.now ≡ length ends.now }
    requires arrivals_each { length arrivals.old ≡ length ends.now }
    ensures each { length arrivals.new ≡ length ends.now }
    ensures arrived { IfSome result (λ sums.
        arrivals_from case.now.friction mesh.now ends.now near.now ≡ Some arrivals.new) }
    ensures arrivals_in { IfSome result (λ sums. All IsArrival arrivals.new) }
    ensures impedances { IfSome result (λ sums.
        AreOfPipes mesh.now ends.now arrivals.new (length ends.now)) }
    ensures heads { IfSome result (λ sums. sums.heads ≡ sum_of weighted_head arrivals.new) }
    ensures weights { IfSome result (λ sums. sums.weights ≡ sum_of weight_of arrivals.new) }
    ensures low { IfSome result (λ sums. pos 1_000_000_000 ≤ℤ sums.weights) }
    ensures high { IfSome result (λ sums. sums.weights ≤ℤ pos 1_600_000_000_000_000_000) }
    ensures size { IfSome result (λ sums.
        unsigned_abs sums.heads ≤ 10_000_000_000_000 * unsigned_abs sums.weights) }
{
    let mut sums = Sums {
        heads: 0,
        weights: 0,
    };
    for (i, end) in ends.iter().enumerate() {
        match weigh(table, end, &near[i]) {
            Some(weighed) => {
                arrivals[i] = weighed.arrival;
                sums = added(sums, weighed);
            }
            None => return None,
        }
    }
    Some(sums)
}

// The sums with what arrives along one end more.
fn added(sums: Sums, weighed: Weighed) -> Sums
    requires low { pos 0 ≤ℤ sums.weights }
    requires high { sums.weights ≤ℤ pos 1_500_000_000_000_000_000 }
    requires size { unsigned_abs sums.heads ≤ 10_000_000_000_000 * unsigned_abs sums.weights }
    requires arrival_in { IsArrival weighed.arrival }
    requires least { pos 1_000_000_000 ≤ℤ weighed.weight }
    requires most { weighed.weight ≤ℤ pos 100_000_000_000_000_000 }
    requires weight { weighed.weight ≡ weight_of weighed.arrival }
    ensures heads { result.heads ≡ sums.heads +ℤ weighted_head weighed.arrival }
    ensures weights { result.weights ≡ sums.weights +ℤ weight_of weighed.arrival }
    ensures size { unsigned_abs result.heads ≤ 10_000_000_000_000 * unsigned_abs result.weights }
{
    Sums {
        heads: sums.heads + weighted(weighed.arrival.c, weighed.weight),
        weights: sums.weights + weighed.weight,
    }
}

// What arrives along one end, where what is prepared for its pipe tells it.
#[inline(always)]
fn weigh(table: &[PreparedPipe], end: &End, point: &Point) -> Option<Weighed>
    requires point_in { IsPoint point.now }
    ensures value { (case : CaseSeen) (mesh : MeshSeen) → ArePrepared case mesh table.now →
        IfSome result (λ weighed.
        arrival_of case.friction mesh end.now point.now ≡ Some weighed.arrival) }
    ensures impedance { (case : CaseSeen) (mesh : MeshSeen) → ArePrepared case mesh table.now →
        IfSome result (λ weighed. weighed.arrival.b ≡ impedance_of mesh end.now.pipe) }
    ensures range { IfSome result (λ weighed. IsArrival weighed.arrival) }
    ensures weight { IfSome result (λ weighed. weighed.weight ≡ weight_of weighed.arrival) }
    ensures low { IfSome result (λ weighed. pos 1_000_000_000 ≤ℤ weighed.weight) }
    ensures high { IfSome result (λ weighed.
        weighed.weight ≤ℤ pos 100_000_000_000_000_000) }
{
    match table.get(end.pipe as usize) {
        Some(PreparedPipe::Explicit(prepared)) => match arrival_along(prepared, end, point) {
            Some(arrival) => Some(Weighed {
                arrival,
                weight: prepared.weight(),
            }),
            None => None,
        },
        _ => None,
    }
}

// The points of the ends of a node at a head without a cavity, if each flow is told to be in range.
#[inline(always)]
fn put_level(
    case: &Case,
    mesh: &Mesh,
    view: &NodeView,
    arrivals: &[Arrival],
    head: i64,
    points: &mut [Point],
) -> bool
    requires prepared { ArePrepared case.now mesh.now view.now.table.now }
    requires each { length arrivals.now ≡ length view.now.ends.now }
    requires arrivals_in { All IsArrival arrivals.now }
    requires impedances { let ends = view.now.ends.now in
        AreOfPipes mesh.now ends arrivals.now (length ends) }
    requires head_in { unsigned_abs head ≤ 100_000_000_000 }
    requires points_each { length points.old ≡ length view.now.ends.now }
    ensures each { length points.new ≡ length view.now.ends.now }
    ensures flows { result ≡ true → list_all is_flow (inflows head arrivals.now) ≡ true }
    ensures points { result ≡ true → points.new
        ≡ points_of (GoodState head (pos 0) (pos 0)) view.now.ends.now
        (inflows head arrivals.now) }
{
    for (i, end) in view.ends.iter().enumerate() {
        match flow_along(view.table, end, &arrivals[i], head) {
            Some(flow) => points[i] = level_point(head, end, flow),
            None => return false,
        }
    }
    true
}

// The flow into a node along one end at a head.
#[inline(always)]
fn flow_along(table: &[PreparedPipe], end: &End, arrival: &Arrival, head: i64) -> Option<i64>
    requires arrival_in { IsArrival arrival.now }
    requires head_in { unsigned_abs head ≤ 100_000_000_000 }
    ensures value { (case : CaseSeen) (mesh : MeshSeen) → ArePrepared case mesh table.now →
        arrival.now.b ≡ impedance_of mesh end.now.pipe →
        IfSome result (λ flow. flow ≡ flow_in head arrival.now) }
    ensures size { IfSome result (λ flow. unsigned_abs flow ≤ 1_000_000_000_000) }
{
    match table.get(end.pipe as usize) {
        Some(PreparedPipe::Explicit(prepared)) => flow_by(prepared, arrival, head),
        _ => None,
    }
}

// The same by what is prepared for its pipe.
#[inline(always)]
fn flow_by(prepared: &Prepared, arrival: &Arrival, head: i64) -> Option<i64>
    requires arrival_in { IsArrival arrival.now }
    requires head_in { unsigned_abs head ≤ 100_000_000_000 }
    ensures value { arrival.now.b ≡ pos prepared.now.b →
        IfSome result (λ flow. flow ≡ flow_in head arrival.now) }
    ensures size { IfSome result (λ flow. unsigned_abs flow ≤ 1_000_000_000_000) }
{
    prepared.single_flow(arrival.c - head)
}

// The point of an end at a head, of the flow into the node.
#[tactic(auto, unfolding(case_model::specs::Range::point_of))]
fn level_point(head: i64, end: &End, flow: i64) -> Point
    requires head_in { unsigned_abs head ≤ 100_000_000_000 }
    requires flow_in { unsigned_abs flow ≤ 1_000_000_000_000 }
    ensures { result ≡ point_with head (along_end end.now flow) }
{
    let q = if end.at_last { flow } else { -flow };
    Point::Good {
        h: head,
        qu: q,
        qd: q,
        v: 0,
    }
}
