//! The regions of stations: the station itself and its triangle in each section beside it.
ghost use Rattle.std.specs.Prelude.{◌≡◌, ℕ, ◌+◌, ◌-◌, ◌*◌, ◌/◌, ◌^◌, ◌<◌, ◌≤◌, ◌%◌};
ghost use Rattle.case_model.specs.Meaning.{Meaning};
ghost use Rattle.envelope.specs.Cells.{AreInOneSpan};
ghost use Rattle.envelope.specs.Folds.{IsSameFold, spans_of};
ghost use Rattle.fronts.specs.Fronts.{Holds, Raises};
ghost use Rattle.fronts.specs.Stretches.{AreSamePlaces, count_of};
ghost use Rattle.strands.specs.Sections.{IsAdvanced, IsLine};
ghost use Rattle.strands.specs.Stations.{NotesTriangles, seam_since, seam_front};

use case_model::Law;
use envelope::{Fold, numbers_tell_places, stands_for_equal_maps};
use fronts::Stretch;

/// Raises the places of a stretch from `low` on and below `high` to the step after `step`, and
/// notes them.
#[inline(never)]
pub fn advance_run<L: Law>(
    law: &L,
    stretch: &mut Stretch,
    fold: &mut Fold,
    step: u64,
    low: usize,
    high: usize,
)
    requires line { IsLine (L.meaning law.now) stretch.old }
    requires noted { AreInOneSpan (spans_of fold.old) (stretch.old.number + low) (high - low) }
    requires room { step + 1 < 2 ^ 64 }
    requires after_first { 0 < low }
    requires order { low ≤ high }
    requires before_last { high < count_of stretch.old }
    ensures same { AreSamePlaces stretch.old stretch.new }
    ensures same_fold { IsSameFold fold.old fold.new }
    ensures advanced { (since front later : ℕ → ℕ) →
        Raises step (λ x. x) low high (count_of stretch.old) since front later →
        Holds (L.meaning law.now) since front stretch.old →
        IsAdvanced (L.meaning law.now) since front later stretch.old stretch.new fold.old fold.new }
{
    numbers_tell_places();
    stands_for_equal_maps();
    stretch.step_run(law, step, low, high);
    stretch.note(fold, step + 1, low, high);
}

/// As `advance_run`, of one place.
#[inline(always)]
pub fn advance_place<L: Law>(
    law: &L,
    stretch: &mut Stretch,
    fold: &mut Fold,
    step: u64,
    place: usize,
)
    requires line { IsLine (L.meaning law.now) stretch.old }
    requires noted { AreInOneSpan (spans_of fold.old) (stretch.old.number + place) 1 }
    requires room { step + 1 < 2 ^ 64 }
    requires after_first { 0 < place }
    requires before_last { place + 1 < count_of stretch.old }
    ensures same { AreSamePlaces stretch.old stretch.new }
    ensures same_fold { IsSameFold fold.old fold.new }
    ensures advanced { (since front later : ℕ → ℕ) →
        Raises step (λ x. x) place (place + 1) (count_of stretch.old) since front later →
        Holds (L.meaning law.now) since front stretch.old →
        IsAdvanced (L.meaning law.now) since front later stretch.old stretch.new fold.old fold.new }
{
    numbers_tell_places();
    stands_for_equal_maps();
    stretch.step_place(law, step, place);
    stretch.note(fold, step + 1, place, place + 1);
}

/// A region of a seam, over the window of so many steps after `start`: the blocks of both sections
/// are loaded, and the seam in the middle of the stretch and its two triangles are computed.
#[inline(always)]
pub fn advance_seam<L: Law>(
    law: &L,
    window: usize,
    start: u64,
    stretch: &mut Stretch,
    fold: &mut Fold,
)
    requires line { IsLine (L.meaning law.now) stretch.old }
    requires noted { NotesTriangles window stretch.old fold.old }
    requires size { count_of stretch.old ≡ 2 * ((window + 1) / 2) + 1 }
    requires room { start + window < 2 ^ 64 }
    requires holds { let since = seam_since window start in
        Holds (L.meaning law.now) since (seam_front window start 0) stretch.old }
    ensures { let since = seam_since window start in
        IsAdvanced (L.meaning law.now) since (seam_front window start 0)
        (seam_front window start window) stretch.old stretch.new fold.old fold.new }
{
    if window == 2 && start % 2 == 0 {
        advance_even_seam(law, window, start, stretch, fold);
    } else {
        advance_any_seam(law, window, start, stretch, fold);
    }
}

// A region of a seam over a window of two steps after an even step. That shows in what is called:
// so no parity is looked at there.
#[inline(never)]
fn advance_even_seam<L: Law>(
    law: &L,
    window: usize,
    start: u64,
    stretch: &mut Stretch,
    fold: &mut Fold,
)
    requires two { window ≡ 2 }
    requires even { start % 2 ≡ 0 }
    requires line { IsLine (L.meaning law.now) stretch.old }
    requires noted { NotesTriangles window stretch.old fold.old }
    requires size { count_of stretch.old ≡ 2 * ((window + 1) / 2) + 1 }
    requires room { start + window < 2 ^ 64 }
    requires holds { let since = seam_since window start in
        Holds (L.meaning law.now) since (seam_front window start 0) stretch.old }
    ensures { let since = seam_since window start in
        IsAdvanced (L.meaning law.now) since (seam_front window start 0)
        (seam_front window start window) stretch.old stretch.new fold.old fold.new }
{
    advance_bare_seam(law, window, start / 2 * 2, stretch, fold);
}

// The same after any step: the triangles of the seam have no places.
#[inline(always)]
fn advance_bare_seam<L: Law>(
    law: &L,
    window: usize,
    start: u64,
    stretch: &mut Stretch,
    fold: &mut Fold,
)
    requires two { window ≡ 2 }
    requires line { IsLine (L.meaning law.now) stretch.old }
    requires noted { NotesTriangles window stretch.old fold.old }
    requires size { count_of stretch.old ≡ 2 * ((window + 1) / 2) + 1 }
    requires room { start + window < 2 ^ 64 }
    requires holds { let since = seam_since window start in
        Holds (L.meaning law.now) since (seam_front window start 0) stretch.old }
    ensures { let since = seam_since window start in
        IsAdvanced (L.meaning law.now) since (seam_front window start 0)
        (seam_front window start window) stretch.old stretch.new fold.old fold.new }
{
    advance_place(law, stretch, fold, start, 1);
    advance_place(law, stretch, fold, start + 1, 1);
}

// A region of a seam over a window of any count of steps.
#[inline(never)]
fn advance_any_seam<L: Law>(
    law: &L,
    window: usize,
    start: u64,
    stretch: &mut Stretch,
    fold: &mut Fold,
)
    requires line { IsLine (L.meaning law.now) stretch.old }
    requires noted { NotesTriangles window stretch.old fold.old }
    requires size { count_of stretch.old ≡ 2 * ((window + 1) / 2) + 1 }
    requires room { start + window < 2 ^ 64 }
    requires holds { let since = seam_since window start in
        Holds (L.meaning law.now) since (seam_front window start 0) stretch.old }
    ensures { let since = seam_since window start in
        IsAdvanced (L.meaning law.now) since (seam_front window start 0)
        (seam_front window start window) stretch.old stretch.new fold.old fold.new }
{
    let half = window.div_ceil(2);
    for k in 0..window {
        let most = k.min(window - 1 - k);
        advance_run(
            law,
            stretch,
            fold,
            start + k as u64,
            half - most,
            half + most + 1,
        );
    }
}
