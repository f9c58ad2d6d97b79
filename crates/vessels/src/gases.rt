//! Air vessels.
ghost use Rattle.std.specs.Prelude.{
  ◌≡◌,
  ◌<◌,
  ◌≤◌,
  ℤ,
  pos,
  ◌-ℤ◌,
  ◌*ℤ◌,
  unsigned_abs,
  length,
  All,
};
ghost use Rattle.fixed_num.specs.Rounding.{rnd as rounded};
ghost use Rattle.fixed_num.specs.Tables.{interp as interpolated};
ghost use Rattle.case_model.specs.Limits.{IsWithin, IsEntry, IsInOrder, most_entries};
ghost use Rattle.case_model.specs.declared.cases.TableKind.TheVariants.{Gas};
ghost use Rattle.case_model.specs.Range.{IsState};
ghost use Rattle.charline.specs.Characteristics.{IsArrival};
ghost use Rattle.junctions.specs.Levels.{flows_of};
ghost use Rattle.junctions.specs.Sums.{most_arrivals};
ghost use Rattle.vessels.specs.Vessels.{
  vessel_volume as volume_of,
  vessel_with as vessel_of,
  has_volume as reaches,
  vessel_state,
  vessel_flows,
};

use case_model::{Arrival, NodeState};
use fixed_num::{interp, rnd};
use junctions::{bad_state, filled};

/// The state of an air vessel with a gas table of volumes (1e-9 m3) and heads (1e-6 m), one time step
/// (1e-6 s) after its old one; `flows` as of a tank. Bad, with flows 0, where the old state is Bad,
/// the volume is outside the table, or a number of the new state is out of range.
/// Wylie and Streeter, Fluid Transients in Systems, air chambers.
#[tactic(auto, unfolding(crate::specs::Vessels::vessel_state, crate::specs::Vessels::vessel_flows))]
pub fn vessel(
    dt: i64,
    gas: &[(i64, i64)],
    own: &NodeState,
    arrivals: &[Arrival],
    flows: &mut [i64],
) -> NodeState
    requires dt_in { IsWithin (pos 1) (pos 1_000_000) dt }
    requires some_points { 2 ≤ length gas.now }
    requires few_points { length gas.now ≤ most_entries Gas }
    requires points_in { All (IsEntry Gas) gas.now }
    requires order { IsInOrder Gas gas.now }
    requires own_in { IsState own.now }
    requires some { 0 < length arrivals.now }
    requires few { length arrivals.now ≤ most_arrivals }
    requires each { length flows.old ≡ length arrivals.now }
    requires arrivals_in { All IsArrival arrivals.now }
    ensures state { result ≡ vessel_state dt gas.now own.now arrivals.now }
    ensures flows { flows.new ≡ vessel_flows dt gas.now own.now arrivals.now }
{
    match own {
        NodeState::Good { v, g, .. } => {
            vessel_with(gas, vessel_volume(dt, *v, *g), arrivals, flows)
        }
        NodeState::Bad => bad_state(flows),
    }
}

#[tactic(auto, unfolding(junctions::specs::Levels::flows_of))]
fn vessel_with(
    gas: &[(i64, i64)],
    volume: i64,
    arrivals: &[Arrival],
    flows: &mut [i64],
) -> NodeState
    requires some_points { 2 ≤ length gas.now }
    requires points_in { All (IsEntry Gas) gas.now }
    requires order { IsInOrder Gas gas.now }
    requires few { length arrivals.now ≤ most_arrivals }
    requires each { length flows.old ≡ length arrivals.now }
    requires arrivals_in { All IsArrival arrivals.now }
    ensures state { result ≡ vessel_of gas.now volume arrivals.now }
    ensures flows { flows.new ≡ flows_of result arrivals.now }
{
    if has_volume(gas, volume) {
        return filled(
            head_at(gas, volume) as i128,
            volume as i128,
            arrivals,
            flows,
        );
    }
    bad_state(flows)
}

fn has_volume(gas: &[(i64, i64)], volume: i64) -> bool
    requires { 2 ≤ length gas.now }
    ensures { result ≡ reaches gas.now volume }
{
    gas[0].0 <= volume && volume <= gas[gas.len() - 1].0
}

fn head_at(gas: &[(i64, i64)], volume: i64) -> i64
    requires some_points { 2 ≤ length gas.now }
    requires points_in { All (IsEntry Gas) gas.now }
    requires order { IsInOrder Gas gas.now }
    ensures { result ≡ interpolated gas.now volume }
{
    interp(gas, volume)
}

#[tactic(auto, unfolding(crate::specs::Vessels::vessel_volume))]
fn vessel_volume(dt: i64, volume: i64, growth: i64) -> i64
    requires dt_in { IsWithin (pos 1) (pos 1_000_000) dt }
    requires volume_in { unsigned_abs volume ≤ 1_000_000_000_000_000 }
    requires growth_in { unsigned_abs growth ≤ 10_000_000_000_000_000 }
    ensures { result ≡ volume_of dt volume growth }
{
    volume - gained(dt, growth)
}

fn gained(dt: i64, growth: i64) -> i64
    requires dt_in { IsWithin (pos 1) (pos 1_000_000) dt }
    requires growth_in { unsigned_abs growth ≤ 10_000_000_000_000_000 }
    ensures value { result ≡ rounded (dt *ℤ growth) (pos 1_000_000) }
    ensures size { unsigned_abs result ≤ 10_000_000_000_000_001 }
{
    rnd(dt as i128 * growth as i128, 1_000_000) as i64
}
