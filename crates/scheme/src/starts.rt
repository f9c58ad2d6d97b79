//! What stands at step 0.
ghost use Rattle.std.specs.Prelude.{◌≡◌, ◌<◌, ◌≤◌, ◌*◌, true, false, unsigned_abs, length, All};
ghost use Rattle.case_model.specs.declared.cases.TableKind.TheVariants.{Gas};
ghost use Rattle.fixed_num.specs.Tables.{interp as interpolated};
ghost use Rattle.case_model.specs.Limits.{IsHead, IsEntry, IsInOrder, IsKind, IsRead, IsTableOf};
ghost use Rattle.case_model.specs.Mesh.{reaches as reaches_of};
ghost use Rattle.case_model.specs.Parts.{node_at, pipe_at, table_at};
ghost use Rattle.junctions.specs.Sums.{most_arrivals};
ghost use Rattle.scheme.specs.Computable.{IsComputable};
ghost use Rattle.scheme.specs.Ends.{along as along_end};
ghost use Rattle.scheme.specs.Starts.{
  head_between,
  start_head as head_of,
  start_inflow as inflow_of,
  start_volume as volume_of,
  start_growth as growth_of,
  start_node as node_from,
  start_point as point_from,
};

use crate::ends::along;
use crate::pipes::reaches;
use crate::values::head_at;
use case_model::{Case, End, Mesh, NodeKind, NodeState, Point, point_of, state_of};
use fixed_num::interp;
use reaches::elevation_between;

/// The state of a node at step 0.
#[tactic(auto, unfolding(crate::specs::Starts::start_node))]
pub(crate) fn start_node(case: &Case, mesh: &Mesh, node: u32) -> NodeState
    requires fit { IsComputable case.now mesh.now }
    requires on_mesh { node < length mesh.now.ends }
    ensures { result ≡ node_from case.now mesh.now node }
{
    let kind = &case.nodes.as_slice()[node as usize].kind;
    let ends = mesh.ends.as_slice()[node as usize].as_slice();
    state_of(
        start_head(case, kind, true) as i128,
        start_volume(kind) as i128,
        start_growth(case, kind, ends),
    )
}

/// The point of a place of a pipe at step 0.
#[tactic(auto, unfolding(crate::specs::Starts::start_point))]
pub(crate) fn start_point(case: &Case, mesh: &Mesh, pipe: u32, place: u32) -> Point
    requires fit { IsComputable case.now mesh.now }
    requires on_mesh { pipe < length mesh.now.pipes }
    requires on_pipe { place ≤ reaches_of mesh.now pipe }
    ensures { result ≡ point_from case.now mesh.now pipe place }
{
    let line = &case.pipes.as_slice()[pipe as usize];
    let first = head_towards(case, line.first, false);
    let last = head_towards(case, line.last, true);
    let head = level(first, last, place, reaches(mesh, pipe));
    let flow = line.flow as i128;
    point_of(head as i128, flow, flow, 0)
}

fn head_towards(case: &Case, node: u32, at_last: bool) -> i64
    requires read { IsRead case.now }
    requires on_case { node < length case.now.nodes }
    ensures value { result ≡ head_of case.now (node_at case.now node).kind at_last }
    ensures limits { IsHead result }
{
    start_head(case, &case.nodes.as_slice()[node as usize].kind, at_last)
}

#[tactic(auto, unfolding(crate::specs::Starts::start_head))]
fn start_head(case: &Case, kind: &NodeKind, at_last: bool) -> i64
    requires read { IsRead case.now }
    requires kind_in { IsKind case.now.tables kind.now }
    ensures value { result ≡ head_of case.now kind.now at_last }
    ensures limits { IsHead result }
{
    match kind {
        NodeKind::Reservoir { head } => head_at(case, head, 0),
        NodeKind::Junction { start, .. } => *start,
        NodeKind::Discharge { start, .. } => *start,
        NodeKind::Inline { start, start2, .. } => towards(*start, *start2, at_last),
        NodeKind::Pump { start, start2, .. } => towards(*start, *start2, at_last),
        NodeKind::Tank { start, .. } => *start,
        NodeKind::Vessel { gas, volume } => gas_head(case, *gas, *volume),
    }
}

fn towards(start: i64, start2: i64, at_last: bool) -> i64
    requires start_in { IsHead start }
    requires start2_in { IsHead start2 }
    ensures last { at_last ≡ true → result ≡ start }
    ensures first { at_last ≡ false → result ≡ start2 }
    ensures limits { IsHead result }
{
    if at_last { start } else { start2 }
}

fn gas_head(case: &Case, gas: u32, volume: i64) -> i64
    requires read { IsRead case.now }
    requires gas_in { IsTableOf Gas case.now.tables gas }
    ensures value { result ≡ interpolated (table_at case.now gas).points volume }
    ensures limits { IsHead result }
{
    gas_value(
        case.tables.as_slice()[gas as usize].points.as_slice(),
        volume,
    )
}

fn gas_value(points: &[(i64, i64)], volume: i64) -> i64
    requires some { 2 ≤ length points.now }
    requires points_in { All (IsEntry Gas) points.now }
    requires order { IsInOrder Gas points.now }
    ensures value { result ≡ interpolated points.now volume }
    ensures limits { IsHead result }
{
    interp(points, volume)
}

fn start_volume(kind: &NodeKind) -> i64
    ensures { result ≡ volume_of kind.now }
{
    match kind {
        NodeKind::Reservoir { .. } => 0,
        NodeKind::Junction { .. } => 0,
        NodeKind::Discharge { .. } => 0,
        NodeKind::Inline { .. } => 0,
        NodeKind::Pump { .. } => 0,
        NodeKind::Tank { .. } => 0,
        NodeKind::Vessel { volume, .. } => *volume,
    }
}

fn start_growth(case: &Case, kind: &NodeKind, ends: &[End]) -> i128
    requires read { IsRead case.now }
    requires few { length ends.now ≤ most_arrivals }
    requires ends_in { All (λ e. e.pipe < length case.now.pipes) ends.now }
    ensures { result ≡ growth_of case.now kind.now ends.now }
{
    match kind {
        NodeKind::Reservoir { .. } => 0,
        NodeKind::Junction { .. } => 0,
        NodeKind::Discharge { .. } => 0,
        NodeKind::Inline { .. } => 0,
        NodeKind::Pump { .. } => 0,
        NodeKind::Tank { .. } => start_inflow(case, ends),
        NodeKind::Vessel { .. } => start_inflow(case, ends),
    }
}

fn start_inflow(case: &Case, ends: &[End]) -> i128
    requires read { IsRead case.now }
    requires few { length ends.now ≤ most_arrivals }
    requires ends_in { All (λ e. e.pipe < length case.now.pipes) ends.now }
    ensures { result ≡ inflow_of case.now ends.now }
{
    let mut sum = 0i128;
    for end in ends {
        sum += inflow_along(case, end);
    }
    sum
}

fn inflow_along(case: &Case, end: &End) -> i128
    requires read { IsRead case.now }
    requires end_in { end.now.pipe < length case.now.pipes }
    ensures value { result ≡ along_end end.now (pipe_at case.now end.now.pipe).flow }
    ensures size { unsigned_abs result ≤ 1_000_000_000_000 }
{
    along(end, case.pipes.as_slice()[end.pipe as usize].flow)
}

// The head (1e-6 m) at a place of so many reaches, between the heads at both ends.
#[tactic(auto, unfolding(crate::specs::Starts::head_between))]
fn level(first: i64, last: i64, place: u32, reaches: u32) -> i64
    requires first_in { unsigned_abs first ≤ 100_000_000_000 }
    requires last_in { unsigned_abs last ≤ 100_000_000_000 }
    requires some { 0 < reaches }
    requires on_pipe { place ≤ reaches }
    ensures { result ≡ head_between first last place reaches }
{
    elevation_between(first, last, place, reaches)
}
