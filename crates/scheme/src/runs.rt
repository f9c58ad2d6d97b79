//! The law of the inner places of a pipe by runs, which have no cavity.
ghost use Rattle.std.specs.Prelude.{◌≡◌, ◌+◌, ◌^◌, ◌<◌, ◌≤◌, true, false, length};
ghost use Rattle.case_model.specs.declared.cases.Friction.TheVariants.{
  Explicit as ExplicitFriction,
  Linear as LinearFriction,
};
ghost use Rattle.case_model.specs.Mesh.{reaches as reaches_of};
ghost use Rattle.case_model.specs.Runs.{IsCalmRun, calm_at};
ghost use Rattle.charline.specs.Runs.{IsPlus};
ghost use Rattle.scheme.specs.Computable.{IsComputable};
ghost use Rattle.scheme.specs.Laws.{meaning_of};
ghost use Rattle.scheme.specs.Runs.{IsOfPipe, IsPreparedFor};

use crate::interior::{At, place_law};
use crate::prepared::{PreparedPipe, prepare_pipe};
use case_model::{Case, Mesh, Spot};
use charline::Prepared;

/// The points of a run of inner places of a pipe from a place on, as `Law::calm_run` has it.
#[inline(always)]
pub(crate) fn calm_run(
    case: &Case,
    mesh: &Mesh,
    at: At,
    prepared: &PreparedPipe,
    before: &[Spot],
    now: &mut [Spot],
) -> usize
    requires fit { IsComputable case.now mesh.now }
    requires prepared { IsPreparedFor case.now mesh.now at.pipe prepared.now }
    requires on_mesh { at.pipe < length mesh.now.pipes }
    requires before_last { at.place + length now.old ≤ reaches_of mesh.now at.pipe }
    requires fits { at.place + length now.old < 2 ^ 32 }
    requires each { length before.now ≡ length now.old + 2 }
    ensures most { result ≤ length now.old }
    ensures run { let law = meaning_of case.now mesh.now in
        IsCalmRun law at.pipe at.place before.now result now.old now.new }
{
    match prepared {
        PreparedPipe::Explicit(prepared) => run_in_words(case, mesh, at, prepared, before, now),
        PreparedPipe::Linear => place_run::<true>(case, mesh, at, before, now),
        PreparedPipe::Wide => place_run::<false>(case, mesh, at, before, now),
    }
}

/// The same for a pipe of which nothing is prepared.
#[inline(never)]
pub(crate) fn unprepared_run(
    case: &Case,
    mesh: &Mesh,
    at: At,
    before: &[Spot],
    now: &mut [Spot],
) -> usize
    requires fit { IsComputable case.now mesh.now }
    requires on_mesh { at.pipe < length mesh.now.pipes }
    requires before_last { at.place + length now.old ≤ reaches_of mesh.now at.pipe }
    requires fits { at.place + length now.old < 2 ^ 32 }
    requires each { length before.now ≡ length now.old + 2 }
    ensures most { result ≤ length now.old }
    ensures run { let law = meaning_of case.now mesh.now in
        IsCalmRun law at.pipe at.place before.now result now.old now.new }
{
    calm_run(
        case,
        mesh,
        at,
        &prepare_pipe(case, mesh, at.pipe),
        before,
        now,
    )
}

#[inline(always)]
fn run_in_words(
    case: &Case,
    mesh: &Mesh,
    at: At,
    prepared: &Prepared,
    before: &[Spot],
    now: &mut [Spot],
) -> usize
    requires fit { IsComputable case.now mesh.now }
    requires explicit { case.now.friction ≡ ExplicitFriction }
    requires prepared { let p = prepared.now in
        IsOfPipe case.now mesh.now at.pipe p.b p.r p.top }
    requires on_mesh { at.pipe < length mesh.now.pipes }
    requires before_last { at.place + length now.old ≤ reaches_of mesh.now at.pipe }
    requires each { length before.now ≡ length now.old + 2 }
    ensures most { result ≤ length now.old }
    ensures run { let law = meaning_of case.now mesh.now in
        IsCalmRun law at.pipe at.place before.now result now.old now.new }
{
    // Most runs are of one place: what a loop sets up is kept away from them.
    if now.len() == 1 {
        single_place(case, mesh, at, prepared, before, now)
    } else {
        explicit_run(case, mesh, at, prepared, before, now)
    }
}

// The run of one place, as each short pipe has it.
#[inline(always)]
fn single_place(
    case: &Case,
    mesh: &Mesh,
    at: At,
    prepared: &Prepared,
    before: &[Spot],
    now: &mut [Spot],
) -> usize
    requires fit { IsComputable case.now mesh.now }
    requires explicit { case.now.friction ≡ ExplicitFriction }
    requires prepared { let p = prepared.now in
        IsOfPipe case.now mesh.now at.pipe p.b p.r p.top }
    requires on_mesh { at.pipe < length mesh.now.pipes }
    requires before_last { at.place + length now.old ≤ reaches_of mesh.now at.pipe }
    requires single { length now.old ≡ 1 }
    requires each { length before.now ≡ length now.old + 2 }
    ensures most { result ≤ length now.old }
    ensures run { let law = meaning_of case.now mesh.now in
        IsCalmRun law at.pipe at.place before.now result now.old now.new }
{
    let plus = early_plus(prepared, before, 0);
    let next = prepared.both(&before[2]);
    match prepared.meeting(plus, next.minus) {
        Some(spot) => {
            now[0] = spot;
            1
        }
        None => 0,
    }
}

// Each place gives both of its characteristics at once, and C+ is carried on to where it is needed:
// two places a turn, so that nothing moves from one place to the next.
#[inline(never)]
fn explicit_run(
    case: &Case,
    mesh: &Mesh,
    at: At,
    prepared: &Prepared,
    before: &[Spot],
    now: &mut [Spot],
) -> usize
    requires fit { IsComputable case.now mesh.now }
    requires explicit { case.now.friction ≡ ExplicitFriction }
    requires prepared { let p = prepared.now in
        IsOfPipe case.now mesh.now at.pipe p.b p.r p.top }
    requires on_mesh { at.pipe < length mesh.now.pipes }
    requires before_last { at.place + length now.old ≤ reaches_of mesh.now at.pipe }
    requires each { length before.now ≡ length now.old + 2 }
    ensures most { result ≤ length now.old }
    ensures run { let law = meaning_of case.now mesh.now in
        IsCalmRun law at.pipe at.place before.now result now.old now.new }
{
    let mut behind = early_plus(prepared, before, 0);
    let mut here = early_plus(prepared, before, 1);
    for pair in 0..now.len() / 2 {
        let k = 2 * pair;
        let next = prepared.both(&before[k + 2]);
        match prepared.meeting(behind, next.minus) {
            Some(spot) => now[k] = spot,
            None => return k,
        }
        let ahead = prepared.both(&before[k + 3]);
        match prepared.meeting(here, ahead.minus) {
            Some(spot) => now[k + 1] = spot,
            None => return k + 1,
        }
        behind = next.plus;
        here = ahead.plus;
    }
    // An odd count leaves one place.
    if now.len() % 2 == 1 {
        let k = now.len() - 1;
        let ahead = prepared.both(&before[k + 2]);
        match prepared.meeting(behind, ahead.minus) {
            Some(spot) => now[k] = spot,
            None => return k,
        }
    }
    now.len()
}

// The value of C+ of the place before the first of a run, or of the first.
#[inline(always)]
fn early_plus(prepared: &Prepared, before: &[Spot], index: usize) -> i64
    requires early { index < 2 }
    requires some { 2 ≤ length before.now }
    ensures { IsPlus prepared.now.b prepared.now.r (calm_at before.now index) result }
{
    prepared.both(&before[index]).plus
}

// Place by place, by the law of one.
#[inline(never)]
fn place_run<const LINEAR: bool>(
    case: &Case,
    mesh: &Mesh,
    at: At,
    before: &[Spot],
    now: &mut [Spot],
) -> usize
    requires fit { IsComputable case.now mesh.now }
    requires explicit { LINEAR ≡ false → case.now.friction ≡ ExplicitFriction }
    requires linear { LINEAR ≡ true → case.now.friction ≡ LinearFriction }
    requires on_mesh { at.pipe < length mesh.now.pipes }
    requires before_last { at.place + length now.old ≤ reaches_of mesh.now at.pipe }
    requires fits { at.place + length now.old < 2 ^ 32 }
    requires each { length before.now ≡ length now.old + 2 }
    ensures most { result ≤ length now.old }
    ensures run { let law = meaning_of case.now mesh.now in
        IsCalmRun law at.pipe at.place before.now result now.old now.new }
{
    for i in 0..now.len() {
        let place = At {
            pipe: at.pipe,
            place: at.place + i as u32,
        };
        let left = before[i].point();
        let own = before[i + 1].point();
        let right = before[i + 2].point();
        match Spot::of(&place_law::<LINEAR>(case, mesh, place, &left, &own, &right)) {
            Some(spot) => now[i] = spot,
            None => return i,
        }
    }
    now.len()
}
