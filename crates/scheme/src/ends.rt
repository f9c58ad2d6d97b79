//! The points of a node's pipe ends.
ghost use Rattle.std.specs.Prelude.{◌≡◌, IsTrue, length};
ghost use Rattle.case_model.specs.Refusals.{is_through};
ghost use Rattle.charline.specs.Characteristics.{IsArrival};
ghost use Rattle.std.specs.Prelude.{All};
ghost use Rattle.scheme.specs.Ends.{
  along as along_end,
  flowing as point_with,
  end_point as point_at,
  end_points as points_of,
  bad_points as bad_points_of,
  side_one,
  side_two,
  through_state as state_of_through,
  through_point as point_through,
  through_points as points_through,
};

use case_model::{Arrival, End, NodeState, Point, Through, point_of, state_of};

/// The points of the ends of a node with one head, of its state and the flow into it (1e-9 m3/s) along
/// each end. Every one Bad where the state is.
pub(crate) fn end_points(state: &NodeState, ends: &[End], flows: &[i64], points: &mut [Point])
    requires flows_each { length flows.now ≡ length ends.now }
    requires points_each { length points.old ≡ length ends.now }
    ensures { points.new ≡ points_of state.now ends.now flows.now }
{
    for (i, end) in ends.iter().enumerate() {
        points[i] = end_point(state, end, flows[i]);
    }
}

fn end_point(state: &NodeState, end: &End, flow: i64) -> Point
    ensures { result ≡ point_at state.now end.now flow }
{
    match state {
        NodeState::Good { h, .. } => flowing(*h, along(end, flow)),
        NodeState::Bad => Point::Bad,
    }
}

/// The flow along a pipe's positive direction, of a flow into the node at this end.
pub(crate) fn along(end: &End, flow: i64) -> i128
    ensures { result ≡ along_end end.now flow }
{
    if end.at_last {
        flow as i128
    } else {
        -(flow as i128)
    }
}

fn flowing(head: i64, flow: i128) -> Point
    ensures { result ≡ point_with head flow }
{
    point_of(head as i128, flow, flow, 0)
}

/// The points of the ends of a node that is Bad.
pub(crate) fn bad_points(ends: &[End], points: &mut [Point])
    requires { length points.old ≡ length ends.now }
    ensures { points.new ≡ bad_points_of ends.now }
{
    for (i, _end) in ends.iter().enumerate() {
        points[i] = Point::Bad;
    }
}

/// What arrives on the two sides of a node between two pipes: first along the pipe whose last place is
/// there.
pub(crate) fn sides(ends: &[End], arrivals: &[Arrival]) -> (Arrival, Arrival)
    requires through { IsTrue (is_through ends.now) }
    requires each { length arrivals.now ≡ length ends.now }
    requires arrivals_in { All IsArrival arrivals.now }
    ensures one { result.0 ≡ side_one ends.now arrivals.now }
    ensures two { result.1 ≡ side_two ends.now arrivals.now }
    ensures one_in { IsArrival result.0 }
    ensures two_in { IsArrival result.1 }
{
    if ends[0].at_last {
        (arrivals[0], arrivals[1])
    } else {
        (arrivals[1], arrivals[0])
    }
}

/// The state of a node between two pipes by what goes through it, and the points of its ends.
pub(crate) fn pass(through: &Through, ends: &[End], points: &mut [Point]) -> NodeState
    requires { length points.old ≡ length ends.now }
    ensures state { result ≡ state_of_through through.now }
    ensures points { points.new ≡ points_through through.now ends.now }
{
    for (i, end) in ends.iter().enumerate() {
        points[i] = through_point(through, end);
    }
    through_state(through)
}

fn through_state(through: &Through) -> NodeState
    ensures { result ≡ state_of_through through.now }
{
    match through {
        Through::Good { h1, .. } => state_of(*h1 as i128, 0, 0),
        Through::Bad => NodeState::Bad,
    }
}

fn through_point(through: &Through, end: &End) -> Point
    ensures { result ≡ point_through through.now end.now }
{
    match through {
        Through::Good { q, h1, h2 } => {
            let head = if end.at_last { *h1 } else { *h2 };
            flowing(head, *q as i128)
        }
        Through::Bad => Point::Bad,
    }
}
