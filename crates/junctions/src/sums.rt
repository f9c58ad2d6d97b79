//! Sums over what arrives at a node.
ghost use Rattle.std.specs.Prelude.{
  ◌≡◌,
  ◌<◌,
  ◌≤◌,
  ◌*◌,
  pos,
  ◌*ℤ◌,
  ◌≤ℤ◌,
  unsigned_abs,
  length,
  All,
};
ghost use Rattle.fixed_num.specs.Rounding.{half_up};
ghost use Rattle.charline.specs.Characteristics.{IsImpedance, IsArrival, flow_in as flow_of};
ghost use Rattle.junctions.specs.Sums.{
  most_arrivals,
  admittance as admittance_of,
  weight,
  weighted_head,
  sum_of,
  inflow as inflow_of,
};
ghost use Rattle.junctions.specs.Levels.{inflows};

use case_model::Arrival;
use charline::driven_flow;

/// The sums over a node's arrivals of characteristic value times weight and of the weights, where a
/// weight is the inverse of an impedance in 1e-16 m2/s.
pub fn weighted_sums(arrivals: &[Arrival]) -> (i128, i128)
    requires few { length arrivals.now ≤ most_arrivals }
    requires arrivals_in { All IsArrival arrivals.now }
    ensures heads { result.0 ≡ sum_of weighted_head arrivals.now }
    ensures weights { result.1 ≡ sum_of weight arrivals.now }
    ensures low { pos (1_000_000_000 * length arrivals.now) ≤ℤ result.1 }
    ensures high { result.1 ≤ℤ pos 1_600_000_000_000_000_000 }
    ensures size { unsigned_abs result.0 ≤ 10_000_000_000_000 * unsigned_abs result.1 }
{
    let mut heads = 0i128;
    let mut weights = 0i128;
    for arrival in arrivals {
        let weight = admittance(arrival.b);
        heads += weighted(arrival.c, weight);
        weights += weight as i128;
    }
    (heads, weights)
}

/// Writes the flow into a node (1e-9 m3/s) along each arrival at a head (1e-6 m), and answers their sum.
pub fn write_inflows(head: i64, arrivals: &[Arrival], flows: &mut [i64]) -> i64
    requires head_in { unsigned_abs head ≤ 100_000_000_000 }
    requires few { length arrivals.now ≤ most_arrivals }
    requires each { length flows.old ≡ length arrivals.now }
    requires arrivals_in { All IsArrival arrivals.now }
    ensures flows { flows.new ≡ inflows head arrivals.now }
    ensures sum { result ≡ inflow_of head arrivals.now }
    ensures size { unsigned_abs result ≤ 1_800_000_000_000_000_000 }
{
    let mut sum = 0;
    for (i, arrival) in arrivals.iter().enumerate() {
        let flow = flow_in(head, arrival);
        flows[i] = flow;
        sum += flow;
    }
    sum
}

fn flow_in(head: i64, arrival: &Arrival) -> i64
    requires head_in { unsigned_abs head ≤ 100_000_000_000 }
    requires arrival_in { IsArrival arrival.now }
    ensures value { result ≡ flow_of head arrival.now }
    ensures size { unsigned_abs result ≤ 110_000_000_000_000_000 }
{
    driven_flow(arrival.c - head, arrival.b)
}

/// The value of what arrives (1e-6 m) times its weight (1e-16 m2/s).
pub fn weighted(c: i64, weight: i64) -> i128
    requires value_in { unsigned_abs c ≤ 10_000_000_000_000 }
    requires weight_in { unsigned_abs weight ≤ 100_000_000_000_000_000 }
    ensures value { result ≡ c *ℤ weight }
    ensures size { unsigned_abs result ≤ 10_000_000_000_000 * unsigned_abs weight }
{
    c as i128 * weight as i128
}

#[tactic(auto, unfolding(crate::specs::Sums::admittance, fixed_num::specs::Rounding::rnd))]
fn admittance(b: i64) -> i64
    requires { IsImpedance b }
    ensures value { result ≡ admittance_of b }
    ensures low { pos 1_000_000_000 ≤ℤ result }
    ensures high { result ≤ℤ pos 100_000_000_000_000_000 }
{
    inverse(b as u64) as i64
}

// 10^22 is divided as 10^19 and then a thousand times the rest, each of which fits 64 bits.
fn inverse(b: u64) -> u64
    requires low { 100_000 ≤ b }
    requires high { b ≤ 10_000_000_000_000 }
    ensures value { result ≡ half_up 10_000_000_000_000_000_000_000 b }
    ensures least { 1_000_000_000 ≤ result }
    ensures most { result ≤ 100_000_000_000_000_000 }
{
    let whole = 10_000_000_000_000_000_000 / b;
    let rest = 10_000_000_000_000_000_000 % b * 1000;
    let quotient = whole * 1000 + rest / b;
    let left = rest % b;
    if left >= b - left {
        quotient + 1
    } else {
        quotient
    }
}
