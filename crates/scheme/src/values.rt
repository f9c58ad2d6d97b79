//! Numbers that are fixed or follow a time table, and the rule of a cavity.
ghost use Rattle.std.specs.Prelude.{◌≡◌, ◌<◌, ◌≤◌, ◌*◌, min, ℤ, pos, ◌*ℤ◌, ◌≤ℤ◌, unsigned_abs};
ghost use Rattle.std.specs.Prelude.{length, All};
ghost use Rattle.fixed_num.specs.Tables.{IsBetween, interp as interpolated};
ghost use Rattle.case_model.specs.declared.cases.TableKind.TheVariants.{Heads, Flows, Openings};
ghost use Rattle.case_model.specs.declared.cases.TableKind.TheVariants.{Speeds};
ghost use Rattle.case_model.specs.Limits.{IsHead, IsFlow, IsWithin, IsOpening, IsValue, IsRead};
ghost use Rattle.case_model.specs.Parts.{table_at};
ghost use Rattle.charline.specs.Cavity.{IsRule};
ghost use Rattle.scheme.specs.Values.{value_at, rule_at, IsTimeTable, IsTimed, Keeps};

use case_model::{Case, CavityRule, Value};
use fixed_num::interp;

/// A head (1e-6 m) at a step.
pub(crate) fn head_at(case: &Case, head: &Value, step: u64) -> i64
    requires read { IsRead case.now }
    requires head_in { IsValue IsHead Heads case.now.tables head.now }
    ensures value { result ≡ value_at case.now head.now step }
    ensures limits { IsHead result }
{
    value(case, head, step)
}

/// A demand (1e-9 m3/s) at a step.
pub(crate) fn demand_at(case: &Case, demand: &Value, step: u64) -> i64
    requires read { IsRead case.now }
    requires demand_in { IsValue IsFlow Flows case.now.tables demand.now }
    ensures value { result ≡ value_at case.now demand.now step }
    ensures limits { IsFlow result }
{
    value(case, demand, step)
}

/// The opening of a valve (1e-6) at a step.
pub(crate) fn opening_at(case: &Case, opening: &Value, step: u64) -> i64
    requires read { IsRead case.now }
    requires opening_in { IsOpening case.now.tables opening.now }
    ensures value { result ≡ value_at case.now opening.now step }
    ensures limits { IsWithin (pos 0) (pos 1_000_000) result }
{
    value(case, opening, step)
}

/// The speed ratio of a pump (1e-6) at a step.
pub(crate) fn speed_at(case: &Case, speed: &Value, step: u64) -> i64
    requires read { IsRead case.now }
    requires speed_in { IsValue
        (IsWithin (pos 0) (pos 2_000_000)) Speeds case.now.tables speed.now }
    ensures value { result ≡ value_at case.now speed.now step }
    ensures limits { IsWithin (pos 0) (pos 2_000_000) result }
{
    value(case, speed, step)
}

#[tactic(auto, unfolding(crate::specs::Values::value_at))]
fn value(case: &Case, value: &Value, step: u64) -> i64
    requires read { IsRead case.now }
    requires timed { IsTimed case.now value.now }
    ensures value { result ≡ value_at case.now value.now step }
    ensures within { (low high : ℤ) → Keeps low high case.now value.now →
        IsBetween low high result }
{
    match value {
        Value::Fixed(value) => *value,
        Value::ByTable(table) => {
            let points = case.tables.as_slice()[*table as usize].points.as_slice();
            by_table(points, step, case.dt)
        }
    }
}

pub(crate) fn by_table(points: &[(i64, i64)], step: u64, dt: i64) -> i64
    requires table { IsTimeTable points.now }
    requires least { pos 1 ≤ℤ dt }
    requires most { dt ≤ℤ pos 1_000_000 }
    ensures value { result ≡ interpolated points.now (pos step *ℤ dt) }
    ensures within { (low high : ℤ) → All (λ e. IsBetween low high e.1) points.now →
        IsBetween low high result }
{
    interp(points, time(step, dt))
}

// The time of a step, or the greatest time of a table where it is later.
fn time(step: u64, dt: i64) -> i64
    requires least { pos 1 ≤ℤ dt }
    requires most { dt ≤ℤ pos 1_000_000 }
    ensures { result ≡ pos (min (step * unsigned_abs dt) 1_000_000_000_000) }
{
    if step > 1_000_000_000_000 {
        return 1_000_000_000_000;
    }
    product(step, dt as u64).min(1_000_000_000_000) as i64
}

fn product(step: u64, dt: u64) -> u64
    requires step_in { step ≤ 1_000_000_000_000 }
    requires dt_in { dt ≤ 1_000_000 }
    ensures { result ≡ step * dt }
{
    step * dt
}

/// What the cavity of a place with this vapour head (1e-6 m) is computed with.
pub(crate) fn cavity_rule(case: &Case, hv: i64) -> CavityRule
    requires read { IsRead case.now }
    requires head_in { unsigned_abs hv ≤ 100_000_000_000 }
    ensures value { result ≡ rule_at case.now hv }
    ensures limits { IsRule result }
{
    CavityRule {
        dt: case.dt,
        psi: case.weight,
        hv,
    }
}
