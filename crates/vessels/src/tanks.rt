//! Surge tanks.
ghost use Rattle.std.specs.Prelude.{
  ◌≡◌,
  ◌<◌,
  ◌≤◌,
  ◌*◌,
  pos,
  ◌+ℤ◌,
  ◌*ℤ◌,
  ◌≤ℤ◌,
  unsigned_abs,
  length,
  All,
};
ghost use Rattle.fixed_num.specs.Rounding.{rnd as rounded};
ghost use Rattle.case_model.specs.Limits.{IsWithin};
ghost use Rattle.case_model.specs.Range.{IsState};
ghost use Rattle.charline.specs.Characteristics.{IsArrival};
ghost use Rattle.junctions.specs.Levels.{flows_of};
ghost use Rattle.junctions.specs.Sums.{most_arrivals};
ghost use Rattle.vessels.specs.Vessels.{storage as storage_of, tank_head as head_of, tank_state};
ghost use Rattle.vessels.specs.Vessels.{tank_flows};

use case_model::{Arrival, NodeState};
use fixed_num::rnd;
use junctions::{bad_state, filled, weighted_sums};

/// The state of a surge tank with an area (1e-6 m2), one time step (1e-6 s) after its old one; `flows`
/// receives the flow into it (1e-9 m3/s) along each arrival. Bad, with flows 0, where the old state is
/// Bad or a number of the new one is out of range.
/// Wylie and Streeter, Fluid Transients in Systems, surge tanks.
#[tactic(auto, unfolding(crate::specs::Vessels::tank_state, crate::specs::Vessels::tank_flows))]
pub fn tank(
    dt: i64,
    area: i64,
    own: &NodeState,
    arrivals: &[Arrival],
    flows: &mut [i64],
) -> NodeState
    requires dt_in { IsWithin (pos 1) (pos 1_000_000) dt }
    requires area_in { IsWithin (pos 1) (pos 1_000_000_000) area }
    requires own_in { IsState own.now }
    requires some { 0 < length arrivals.now }
    requires few { length arrivals.now ≤ most_arrivals }
    requires each { length flows.old ≡ length arrivals.now }
    requires arrivals_in { All IsArrival arrivals.now }
    ensures state { result ≡ tank_state dt area own.now arrivals.now }
    ensures flows { flows.new ≡ tank_flows dt area own.now arrivals.now }
{
    match own {
        NodeState::Good { h, g, .. } => {
            filled(tank_head(dt, area, *h, *g, arrivals), 0, arrivals, flows)
        }
        NodeState::Bad => bad_state(flows),
    }
}

#[tactic(auto, unfolding(crate::specs::Vessels::tank_head))]
fn tank_head(dt: i64, area: i64, head: i64, growth: i64, arrivals: &[Arrival]) -> i128
    requires dt_in { IsWithin (pos 1) (pos 1_000_000) dt }
    requires area_in { IsWithin (pos 1) (pos 1_000_000_000) area }
    requires head_in { unsigned_abs head ≤ 100_000_000_000 }
    requires growth_in { unsigned_abs growth ≤ 10_000_000_000_000_000 }
    requires few { length arrivals.now ≤ most_arrivals }
    requires arrivals_in { All IsArrival arrivals.now }
    ensures { result ≡ head_of dt area head growth arrivals.now }
{
    let (heads, weights) = weighted_sums(arrivals);
    let storage = storage(area);
    let kept = kept(storage, head);
    let gained = in_step(dt, driven(growth, heads));
    mean(kept, gained, storage, weight_in_step(dt, weights))
}

fn storage(area: i64) -> i128
    requires { IsWithin (pos 1) (pos 1_000_000_000) area }
    ensures value { result ≡ storage_of area }
    ensures low { pos 1 ≤ℤ result }
    ensures high { result ≤ℤ pos 20_000_000_000_000_000_000_000_000 }
{
    area as i128 * 20_000_000_000_000_000
}

fn kept(storage: i128, head: i64) -> i128
    requires storage_in { unsigned_abs storage ≤ 20_000_000_000_000_000_000_000_000 }
    requires head_in { unsigned_abs head ≤ 100_000_000_000 }
    ensures value { result ≡ storage *ℤ head }
    ensures size { unsigned_abs result ≤ 2_000_000_000_000_000_000_000_000_000_000_000_000 }
{
    storage * head as i128
}

fn driven(growth: i64, heads: i128) -> i128
    requires growth_in { unsigned_abs growth ≤ 10_000_000_000_000_000 }
    requires heads_in { unsigned_abs heads ≤ 16_000_000_000_000_000_000_000_000_000_000 }
    ensures value { result ≡ (growth *ℤ pos 10_000_000_000_000) +ℤ heads }
    ensures size { unsigned_abs result ≤ 20_000_000_000_000_000_000_000_000_000_000 }
{
    growth as i128 * 10_000_000_000_000 + heads
}

fn in_step(dt: i64, driven: i128) -> i128
    requires dt_in { IsWithin (pos 1) (pos 1_000_000) dt }
    requires driven_in { unsigned_abs driven ≤ 20_000_000_000_000_000_000_000_000_000_000 }
    ensures value { result ≡ dt *ℤ driven }
    ensures size { unsigned_abs result ≤ 20_000_000_000_000_000_000_000_000_000_000_000_000 }
{
    dt as i128 * driven
}

fn weight_in_step(dt: i64, weights: i128) -> i128
    requires dt_in { IsWithin (pos 1) (pos 1_000_000) dt }
    requires low { pos 0 ≤ℤ weights }
    requires high { weights ≤ℤ pos 1_600_000_000_000_000_000 }
    ensures value { result ≡ dt *ℤ weights }
    ensures sign { pos 0 ≤ℤ result }
    ensures size { unsigned_abs result ≤ 2_000_000_000_000_000_000_000_000 }
{
    dt as i128 * weights
}

fn mean(kept: i128, gained: i128, storage: i128, weight: i128) -> i128
    requires kept_in { unsigned_abs kept ≤ 2_000_000_000_000_000_000_000_000_000_000_000_000 }
    requires gained_in { unsigned_abs gained ≤ 20_000_000_000_000_000_000_000_000_000_000_000_000 }
    requires some { pos 1 ≤ℤ storage }
    requires storage_in { unsigned_abs storage ≤ 20_000_000_000_000_000_000_000_000 }
    requires weights { pos 0 ≤ℤ weight }
    requires weight_in { unsigned_abs weight ≤ 2_000_000_000_000_000_000_000_000 }
    ensures { result ≡ rounded (kept +ℤ gained) (storage +ℤ weight) }
{
    rnd(kept + gained, storage + weight)
}
