//! Devices between two pipes: the valve in a line, and what goes through a device.
ghost use Rattle.std.specs.Prelude.{◌≡◌, ◌≤◌, pos, ◌+ℤ◌, unsigned_abs};
ghost use Rattle.case_model.specs.Limits.{IsWithin, IsValve};
ghost use Rattle.charline.specs.Characteristics.{IsArrival};
ghost use Rattle.valves.specs.Orifices.{IsOrifice, valve_flow as valve_flow_of};
ghost use Rattle.valves.specs.Devices.{through_of as through_from, through as through_at};
ghost use Rattle.valves.specs.Devices.{inline_through};

use crate::discharges::Valve;
use crate::orifices::{half_flow, is_over, line_flow, open_flow, square_flow};
use case_model::{Arrival, Through};
use charline::impedance_head;

/// What goes through a valve in a line at an opening (1e-6), from pipe `one` to pipe `two`; the valve's
/// outlet head is not read. Bad exactly where the valve is over its limit (b*q0^2 over 2*h0*10^24, with
/// the sum of both impedances for b), or the flow or a head is out of range.
/// Wylie and Streeter, Fluid Transients in Systems, valve in a line.
#[tactic(auto, unfolding(crate::specs::Devices::inline_through))]
pub fn inline(valve: &Valve, opening: i64, one: &Arrival, two: &Arrival) -> Through
    requires opening_in { IsWithin (pos 0) (pos 1_000_000) opening }
    requires one_in { IsArrival one.now }
    requires two_in { IsArrival two.now }
    requires valve_in { IsValve valve.now.q0 valve.now.h0 }
    ensures { result ≡ inline_through valve.now.q0 valve.now.h0 opening one.now two.now }
{
    let b = one.b + two.b;
    if is_over(valve, b) {
        return Through::Bad;
    }
    let flow = valve_flow(b, valve, opening, one.c - two.c);
    through(one, two, flow as i128)
}

/// What goes through a device between two pipes with this flow (1e-9 m3/s) from `one` to `two`: the flow
/// and the heads on both sides. Bad where one of these is out of range.
#[tactic(auto, unfolding(crate::specs::Devices::through))]
pub fn through(one: &Arrival, two: &Arrival, flow: i128) -> Through
    requires one_in { IsArrival one.now }
    requires two_in { IsArrival two.now }
    ensures { result ≡ through_at one.now two.now flow }
{
    if flow.unsigned_abs() > 1_000_000_000_000 {
        return Through::Bad;
    }
    at_flow(one, two, flow as i64)
}

#[tactic(auto, unfolding(crate::specs::Devices::through))]
fn at_flow(one: &Arrival, two: &Arrival, q: i64) -> Through
    requires one_in { IsArrival one.now }
    requires two_in { IsArrival two.now }
    requires flow_in { unsigned_abs q ≤ 1_000_000_000_000 }
    ensures { result ≡ through_at one.now two.now q }
{
    through_of(
        q,
        one.c - impedance_head(one.b, q),
        two.c + impedance_head(two.b, q),
    )
}

fn through_of(q: i64, h1: i64, h2: i64) -> Through
    ensures { result ≡ through_from q h1 h2 }
{
    if q.unsigned_abs() <= 1_000_000_000_000
        && h1.unsigned_abs() <= 100_000_000_000
        && h2.unsigned_abs() <= 100_000_000_000
    {
        return Through::Good { q, h1, h2 };
    }
    Through::Bad
}

/// The flow that a difference of characteristic values drives through pipes and valve.
pub(crate) fn valve_flow(b: i64, valve: &Valve, opening: i64, e: i64) -> i64
    requires valve_in { IsOrifice b valve.now.q0 valve.now.h0 }
    requires opening_in { IsWithin (pos 0) (pos 1_000_000) opening }
    requires e_in { unsigned_abs e ≤ 20_000_000_000_000 }
    ensures value { result ≡ valve_flow_of b valve.now.q0 valve.now.h0 opening e }
    ensures size { unsigned_abs result ≤ 200_000_000_000_000_000 }
{
    // Nothing goes through a shut valve.
    if opening == 0 {
        return 0;
    }
    let w = open_flow(valve.q0, opening);
    line_flow(
        half_flow(b, valve.q0, w, valve.h0),
        square_flow(w, valve.h0),
        e,
    )
}
