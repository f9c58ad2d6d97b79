//! What arrives at a node along its pipe ends.
ghost use Rattle.std.specs.Prelude.{◌≡◌, ◌<◌, length, if◌then◌else◌, IfSome, IsTrue, All, pos};
ghost use Rattle.std.specs.Prelude.{Some, None, true, false};
ghost use Rattle.case_model.specs.declared.cases.Case.{Case as CaseSeen};
ghost use Rattle.case_model.specs.declared.cases.Friction.TheVariants.{
  Explicit as ExplicitFriction,
};
ghost use Rattle.case_model.specs.declared.meshes.Mesh.{Mesh as MeshSeen};
ghost use Rattle.case_model.specs.Range.{IsPoint};
ghost use Rattle.charline.specs.Characteristics.{IsArrival};
ghost use Rattle.scheme.specs.Arrivals.{
  HasCoefficients,
  arrival_from as arrival_of,
  arrivals_from,
  impedance as impedance_of,
  resistance as resistance_of,
};
ghost use Rattle.scheme.specs.Runs.{ArePrepared};

use crate::pipes::{impedance, resistance};
use crate::prepared::PreparedPipe;
use case_model::{Arrival, Case, End, Friction, Mesh, Point};
use charline::{Prepared, arrive_minus, arrive_plus};

/// What arrives at a node along its ends, from the points beside them, into `arrivals`. False where
/// one of the points is Bad or one characteristic is out of range.
pub(crate) fn gather(
    case: &Case,
    mesh: &Mesh,
    table: &[PreparedPipe],
    ends: &[End],
    near: &[Point],
    arrivals: &mut [Arrival],
) -> bool
    requires coefficients { HasCoefficients mesh.now }
    requires prepared { ArePrepared case.now mesh.now table.now }
    requires ends_in { All (λ e. e.pipe < length mesh.now.pipes) ends.now }
    requires near_in { All IsPoint near.now }
    requires near_each { length near.now ≡ length ends.now }
    requires arrivals_each { length arrivals.old ≡ length ends.now }
    ensures arrived { arrivals_from case.now.friction mesh.now ends.now near.now
        ≡ (if result then Some arrivals.new else None) }
    ensures arrivals_in { IsTrue result → All IsArrival arrivals.new }
{
    for (i, end) in ends.iter().enumerate() {
        if !put_arrival(case, mesh, table, end, &near[i], &mut arrivals[i]) {
            return false;
        }
    }
    true
}

// What arrives along one end, where it is in range. Each of both calls has its own write: where they
// share one, the processor waits for the first half of an arrival.
#[inline(always)]
fn put_arrival(
    case: &Case,
    mesh: &Mesh,
    table: &[PreparedPipe],
    end: &End,
    point: &Point,
    into: &mut Arrival,
) -> bool
    requires coefficients { HasCoefficients mesh.now }
    requires prepared { ArePrepared case.now mesh.now table.now }
    requires end_in { end.now.pipe < length mesh.now.pipes }
    requires point_in { IsPoint point.now }
    ensures value { result ≡ true →
        arrival_of case.now.friction mesh.now end.now point.now ≡ Some into.new }
    ensures range { result ≡ true → IsArrival into.new }
    ensures none { result ≡ false →
        arrival_of case.now.friction mesh.now end.now point.now ≡ None }
{
    match prepared_arrival(table, end, point) {
        Some(arrival) => {
            *into = arrival;
            true
        }
        None => match any_arrival(case.friction, mesh, end, point) {
            Some(arrival) => {
                *into = arrival;
                true
            }
            None => false,
        },
    }
}

/// Where what is prepared for the pipe tells it, by few products.
#[inline(always)]
pub(crate) fn prepared_arrival(table: &[PreparedPipe], end: &End, point: &Point) -> Option<Arrival>
    requires point_in { IsPoint point.now }
    ensures value { (case : CaseSeen) (mesh : MeshSeen) → ArePrepared case mesh table.now →
        IfSome result (λ arrival.
        arrival_of case.friction mesh end.now point.now ≡ Some arrival) }
    ensures range { IfSome result IsArrival }
{
    match table.get(end.pipe as usize) {
        Some(PreparedPipe::Explicit(prepared)) => arrival_along(prepared, end, point),
        _ => None,
    }
}

/// What arrives along an end of a pipe that is prepared; None where the law of any pipe is to tell.
#[inline(always)]
pub(crate) fn arrival_along(prepared: &Prepared, end: &End, point: &Point) -> Option<Arrival>
    requires point_in { IsPoint point.now }
    ensures value { (mesh : MeshSeen) → pos prepared.now.b ≡ impedance_of mesh end.now.pipe →
        pos prepared.now.r ≡ resistance_of mesh end.now.pipe →
        IfSome result (λ arrival.
        arrival_of ExplicitFriction mesh end.now point.now ≡ Some arrival) }
    ensures impedance { IfSome result (λ arrival. arrival.b ≡ pos prepared.now.b) }
    ensures range { IfSome result IsArrival }
{
    if end.at_last {
        prepared.plus_from(point)
    } else {
        prepared.minus_from(point)
    }
}

// The same by the law of any pipe.
#[inline(never)]
fn any_arrival(friction: Friction, mesh: &Mesh, end: &End, point: &Point) -> Option<Arrival>
    requires coefficients { HasCoefficients mesh.now }
    requires end_in { end.now.pipe < length mesh.now.pipes }
    requires point_in { IsPoint point.now }
    ensures value { result ≡ arrival_of friction mesh.now end.now point.now }
    ensures range { IfSome result IsArrival }
{
    let b = impedance(mesh, end.pipe);
    let r = resistance(mesh, end.pipe);
    if end.at_last {
        arrive_plus(friction, b, r, point)
    } else {
        arrive_minus(friction, b, r, point)
    }
}
