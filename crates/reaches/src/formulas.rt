//! The coefficients of a pipe in reaches.
ghost use Rattle.std.specs.Prelude.{◌≡◌, ◌*◌, ◌≤◌, pos};
ghost use Rattle.case_model.specs.Limits.{IsPipe, IsWithin};
ghost use Rattle.case_model.specs.Formulas.{area as area_of};
ghost use Rattle.case_model.specs.Formulas.{impedance as impedance_of, resistance as resistance_of};
ghost use Rattle.case_model.specs.Formulas.{cut, b_of, r_of};

use crate::quotients::{product, quotient, size};
use case_model::Pipe;

/// Impedance (1e-6 s/m2) and friction of one reach (1e-12 s2/m5) of a pipe in `reaches` reaches at a
/// time step in 1e-6 s, each cut to one more than its greatest accepted value: 10^13 and 10^20.
/// Wylie and Streeter, Fluid Transients in Systems, method of characteristics.
pub fn coefficients(pipe: &Pipe, dt: i64, reaches: u32) -> (i64, i128)
    requires pipe { IsPipe pipe.now }
    requires dt { IsWithin (pos 1) (pos 1_000_000) dt }
    requires some { 2 ≤ reaches }
    requires few { reaches ≤ 65_536 }
    ensures b { result.0 ≡ cut (pos 10_000_000_000_000) (b_of dt reaches pipe.now) }
    ensures r { result.1 ≡ cut (pos 100_000_000_000_000_000_000) (r_of reaches pipe.now) }
{
    let n = reaches as u64;
    let length = size(pipe.length);
    let diameter = size(pipe.diameter);
    let area = area(diameter);
    let b = impedance(length, size(dt), n, area);
    let r = resistance(size(pipe.friction), length, n, diameter, area);
    (cut_impedance(b), cut_resistance(r))
}

#[tactic(auto, unfolding(case_model::specs::Formulas::area))]
fn area(diameter: u64) -> u64
    requires low { 20 ≤ diameter }
    requires high { diameter ≤ 10_000 }
    ensures value { pos result ≡ area_of (pos diameter) }
    ensures some { 1 ≤ result }
    ensures few { result ≤ 100_000_000 }
{
    quotient((diameter * diameter * 355) as u128, 452) as u64
}

#[tactic(auto, unfolding(case_model::specs::Formulas::impedance))]
fn impedance(length: u64, dt: u64, reaches: u64, area: u64) -> u128
    requires length_in { length ≤ 1_000_000_000 }
    requires some_dt { 1 ≤ dt }
    requires few_dt { dt ≤ 1_000_000 }
    requires some_reaches { 1 ≤ reaches }
    requires few_reaches { reaches ≤ 65_536 }
    requires some_area { 1 ≤ area }
    requires few_area { area ≤ 100_000_000 }
    ensures { pos result ≡ impedance_of (pos length) (pos dt) (pos reaches) (pos area) }
{
    let step = product(reaches * dt * 980_665, area);
    quotient(length as u128 * 100_000_000_000_000_000_000, step)
}

#[tactic(auto, unfolding(case_model::specs::Formulas::resistance))]
fn resistance(friction: u64, length: u64, reaches: u64, diameter: u64, area: u64) -> u128
    requires friction_in { friction ≤ 500_000 }
    requires length_in { length ≤ 1_000_000_000 }
    requires some_reaches { 1 ≤ reaches }
    requires few_reaches { reaches ≤ 65_536 }
    requires some_diameter { 1 ≤ diameter }
    requires few_diameter { diameter ≤ 10_000 }
    requires some_area { 1 ≤ area }
    requires few_area { area ≤ 100_000_000 }
    ensures { pos result
        ≡ resistance_of (pos friction) (pos length) (pos reaches) (pos diameter) (pos area) }
{
    let bore = product(1_961_330 * reaches * diameter, area * area);
    let drag = friction * length;
    quotient(drag as u128 * 100_000_000_000_000_000_000_000, bore)
}

fn cut_impedance(b: u128) -> i64
    ensures { result ≡ cut (pos 10_000_000_000_000) (pos b) }
{
    b.min(10_000_000_000_001) as i64
}

fn cut_resistance(r: u128) -> i128
    ensures { result ≡ cut (pos 100_000_000_000_000_000_000) (pos r) }
{
    r.min(100_000_000_000_000_000_001) as i128
}
