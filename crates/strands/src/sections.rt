//! The regions of a section: first the tent over its two stations, then one band after another.
ghost use Rattle.std.specs.Prelude.{◌≡◌, ℕ, ◌+◌, ◌-◌, ◌*◌, ◌^◌, ◌<◌, ◌≤◌, ◌%◌};
ghost use Rattle.case_model.specs.Meaning.{Meaning};
ghost use Rattle.fronts.specs.Bands.{from_ends};
ghost use Rattle.fronts.specs.Fronts.{Holds, Raises, ever, loaded, risen, tent};
ghost use Rattle.fronts.specs.Stretches.{count_of};
ghost use Rattle.strands.specs.Sections.{IsAdvanced, IsLine, NotesInside};

use crate::stations::{advance_place, advance_run};
use case_model::Law;
use envelope::{Fold, stands_for_equal_maps};
use fronts::Stretch;

/// Raises the places of a section whose distance from the nearer station is at least `low` and
/// below `high` to the step after `step`, and notes them.
pub fn advance<L: Law>(
    law: &L,
    stretch: &mut Stretch,
    fold: &mut Fold,
    step: u64,
    low: usize,
    high: usize,
)
    requires line { IsLine (L.meaning law.now) stretch.old }
    requires noted { NotesInside stretch.old fold.old }
    requires room { step + 1 < 2 ^ 64 }
    requires after_first { 0 < low }
    ensures { (front later : ℕ → ℕ) →
        Raises step (from_ends (count_of stretch.old - 1)) low high (count_of stretch.old) ever
        front later →
        Holds (L.meaning law.now) ever front stretch.old →
        IsAdvanced (L.meaning law.now) ever front later stretch.old stretch.new fold.old fold.new }
{
    let count = stretch.count();
    let half = (count - 1) / 2;
    if low < high && low <= half {
        let end = count - low;
        let gap = if half < high { end } else { high };
        advance_run(law, stretch, fold, step, low, gap);
        if gap < end {
            advance_run(law, stretch, fold, step, count - high, end);
        }
    }
}

/// Region 0 of a section: from the initial row to the tent over its two stations.
#[inline(never)]
pub fn advance_start<L: Law>(law: &L, stretch: &mut Stretch, fold: &mut Fold)
    requires line { IsLine (L.meaning law.now) stretch.old }
    requires noted { NotesInside stretch.old fold.old }
    requires holds { let n = count_of stretch.old - 1 in
        Holds (L.meaning law.now) ever (risen n 0) stretch.old }
    ensures { let n = count_of stretch.old - 1 in
        IsAdvanced (L.meaning law.now) ever (risen n 0) (tent 0 n)
        stretch.old stretch.new fold.old fold.new }
{
    stands_for_equal_maps();
    let last = stretch.count() - 1;
    for k in 1..last / 2 + 1 {
        advance(law, stretch, fold, (k - 1) as u64, k, last);
    }
}

/// A later region of a section, over the window of so many steps after `start`: the blocks of
/// both stations are loaded, and the tent is raised by a window.
#[inline(always)]
pub fn advance_region<L: Law>(
    law: &L,
    window: usize,
    start: u64,
    stretch: &mut Stretch,
    fold: &mut Fold,
)
    requires line { IsLine (L.meaning law.now) stretch.old }
    requires noted { NotesInside stretch.old fold.old }
    requires some { 1 ≤ window }
    requires long { window + 1 ≤ count_of stretch.old }
    requires room { start + 2 * count_of stretch.old < 2 ^ 64 }
    requires holds { let n = count_of stretch.old - 1 in
        Holds (L.meaning law.now) ever (loaded start window n) stretch.old }
    ensures { let n = count_of stretch.old - 1 in
        IsAdvanced (L.meaning law.now) ever (loaded start window n) (tent (start + window) n)
        stretch.old stretch.new fold.old fold.new }
{
    if window == 2 && stretch.count() == 3 && start % 2 == 0 {
        advance_even_region(law, window, start, stretch, fold);
    } else {
        advance_any_region(law, window, start, stretch, fold);
    }
}

// A later region of a section of two reaches, over a window of two steps after an even step. That
// shows in what is called: so no parity is looked at there.
#[inline(never)]
fn advance_even_region<L: Law>(
    law: &L,
    window: usize,
    start: u64,
    stretch: &mut Stretch,
    fold: &mut Fold,
)
    requires line { IsLine (L.meaning law.now) stretch.old }
    requires noted { NotesInside stretch.old fold.old }
    requires two { window ≡ 2 }
    requires short { count_of stretch.old ≡ 3 }
    requires even { start % 2 ≡ 0 }
    requires some { 1 ≤ window }
    requires long { window + 1 ≤ count_of stretch.old }
    requires room { start + 2 * count_of stretch.old < 2 ^ 64 }
    requires holds { let n = count_of stretch.old - 1 in
        Holds (L.meaning law.now) ever (loaded start window n) stretch.old }
    ensures { let n = count_of stretch.old - 1 in
        IsAdvanced (L.meaning law.now) ever (loaded start window n) (tent (start + window) n)
        stretch.old stretch.new fold.old fold.new }
{
    advance_bare_region(law, window, start / 2 * 2, stretch, fold);
}

// The same after any step: the section has one place.
#[inline(always)]
fn advance_bare_region<L: Law>(
    law: &L,
    window: usize,
    start: u64,
    stretch: &mut Stretch,
    fold: &mut Fold,
)
    requires line { IsLine (L.meaning law.now) stretch.old }
    requires noted { NotesInside stretch.old fold.old }
    requires two { window ≡ 2 }
    requires short { count_of stretch.old ≡ 3 }
    requires some { 1 ≤ window }
    requires long { window + 1 ≤ count_of stretch.old }
    requires room { start + 2 * count_of stretch.old < 2 ^ 64 }
    requires holds { let n = count_of stretch.old - 1 in
        Holds (L.meaning law.now) ever (loaded start window n) stretch.old }
    ensures { let n = count_of stretch.old - 1 in
        IsAdvanced (L.meaning law.now) ever (loaded start window n) (tent (start + window) n)
        stretch.old stretch.new fold.old fold.new }
{
    advance_place(law, stretch, fold, start + 1, 1);
    advance_place(law, stretch, fold, start + 2, 1);
}

// A later region of a section of any count of reaches, over a window of any count of steps.
#[inline(never)]
fn advance_any_region<L: Law>(
    law: &L,
    window: usize,
    start: u64,
    stretch: &mut Stretch,
    fold: &mut Fold,
)
    requires line { IsLine (L.meaning law.now) stretch.old }
    requires noted { NotesInside stretch.old fold.old }
    requires some { 1 ≤ window }
    requires long { window + 1 ≤ count_of stretch.old }
    requires room { start + 2 * count_of stretch.old < 2 ^ 64 }
    requires holds { let n = count_of stretch.old - 1 in
        Holds (L.meaning law.now) ever (loaded start window n) stretch.old }
    ensures { let n = count_of stretch.old - 1 in
        IsAdvanced (L.meaning law.now) ever (loaded start window n) (tent (start + window) n)
        stretch.old stretch.new fold.old fold.new }
{
    stands_for_equal_maps();
    let last = stretch.count() - 1;
    for k in window / 2 + 1..window + last / 2 + 1 {
        let low = if k <= window {
            window + 1 - k
        } else {
            k - window
        };
        advance(law, stretch, fold, start + (k - 1) as u64, low, k);
    }
}
