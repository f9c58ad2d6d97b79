//! Discharge valves, by what is prepared for their pipes.
ghost use Rattle.std.specs.Prelude.{◌≡◌, ◌≤◌, pos, unsigned_abs, length, All, IfSome};
ghost use Rattle.case_model.specs.Limits.{IsHead, IsKind, IsRead, IsValve, IsWithin};
ghost use Rattle.case_model.specs.Range.{IsPoint, IsState};
ghost use Rattle.case_model.specs.declared.cases.Case.{Case as CaseSeen};
ghost use Rattle.case_model.specs.declared.meshes.Mesh.{Mesh as MeshSeen};
ghost use Rattle.charline.specs.Cavity.{IsRule};
ghost use Rattle.scheme.specs.Arrivals.{arrivals_from};
ghost use Rattle.scheme.specs.Computable.{HasEnds};
ghost use Rattle.scheme.specs.NodeLaws.{law_if};
ghost use Rattle.scheme.specs.Runs.{ArePrepared};
ghost use Rattle.scheme.specs.ValveEnds.{IsDischarge};

use crate::arrivals::prepared_arrival;
use crate::node_laws::{NodeView, Opened, discharge_law, valve};
use crate::values::{cavity_rule, opening_at};
use case_model::{Case, CavityRule, Mesh, NodeKind, NodeState, Point};

/// The state of a discharge valve by its law and the point of its end; None where any node's law is
/// to tell.
#[inline(always)]
pub(crate) fn valve_law(
    case: &Case,
    mesh: &Mesh,
    hv: i64,
    view: &NodeView,
    near: &[Point],
    points: &mut [Point],
) -> Option<NodeState>
    requires read { IsRead case.now }
    requires prepared { ArePrepared case.now mesh.now view.now.table.now }
    requires head_in { unsigned_abs hv ≤ 100_000_000_000 }
    requires kind_in { IsKind case.now.tables view.now.kind.now }
    requires has_ends { HasEnds view.now.kind.now view.now.ends.now }
    requires own_in { IsState view.now.own.now }
    requires near_each { length near.now ≡ length view.now.ends.now }
    requires near_in { All IsPoint near.now }
    requires points_each { length points.old ≡ length view.now.ends.now }
    ensures each { length points.new ≡ length view.now.ends.now }
    ensures state { IfSome result (λ state. state
        ≡ (law_if case.now hv view.now.kind.now view.now.step view.now.own.now view.now.ends.now
        (arrivals_from case.now.friction mesh.now view.now.ends.now near.now)).0) }
    ensures points { IfSome result (λ state. points.new
        ≡ (law_if case.now hv view.now.kind.now view.now.step view.now.own.now view.now.ends.now
        (arrivals_from case.now.friction mesh.now view.now.ends.now near.now)).1) }
{
    match view.kind {
        NodeKind::Discharge {
            q0,
            h0,
            outlet,
            opening,
            ..
        } => {
            let rule = cavity_rule(case, hv);
            let opened = Opened {
                valve: valve(*q0, *h0, *outlet),
                opening: opening_at(case, opening, view.step),
            };
            valve_end(&rule, &opened, view, near, points)
        }
        _ => None,
    }
}

// The state of a discharge valve at an opening and the point of its end; None where any node's law
// is to tell.
#[inline(always)]
fn valve_end(
    rule: &CavityRule,
    opened: &Opened,
    view: &NodeView,
    near: &[Point],
    points: &mut [Point],
) -> Option<NodeState>
    requires rule { IsRule rule.now }
    requires outlet_in { IsHead opened.now.valve.outlet }
    requires opening_in { IsWithin (pos 0) (pos 1_000_000) opened.now.opening }
    requires valve_in { IsValve opened.now.valve.q0 opened.now.valve.h0 }
    requires own_in { IsState view.now.own.now }
    requires one { length view.now.ends.now ≡ 1 }
    requires near_each { length near.now ≡ length view.now.ends.now }
    requires near_in { All IsPoint near.now }
    requires points_each { length points.old ≡ length view.now.ends.now }
    ensures each { length points.new ≡ length view.now.ends.now }
    ensures valve { (case : CaseSeen) (mesh : MeshSeen) →
        ArePrepared case mesh view.now.table.now → IfSome result (λ state.
        IsDischarge rule.now opened.now.valve opened.now.opening view.now.own.now
        view.now.ends.now
        (arrivals_from case.friction mesh view.now.ends.now near.now) state points.new) }
{
    match prepared_arrival(view.table, &view.ends[0], &near[0]) {
        Some(arrival) => {
            let arrivals = [arrival];
            Some(discharge_law(rule, opened, view.own, view.ends, &arrivals, points))
        }
        None => None,
    }
}
