//! The envelope of one place, and the cells that keep one each.
ghost use Rattle.std.specs.Prelude.{◌≡◌, ◌≢◌, ℕ, ◌<◌, ◌≤◌, ◌≤ℤ◌, ◌<ℤ◌, true, false, Option, Some};
ghost use Rattle.std.specs.Prelude.{None, length, replicate, slice_index_or, IfOk, ◌+◌, ◌⊎◌, pos};
ghost use Rattle.case_model.specs.Runs.{calm_at, calm_point};
ghost use Rattle.case_model.specs.Samples.{Sample as Taken};
ghost use Rattle.envelope.specs.Calm.{ArePlain, IsEarly, IsJoined, IsPlain, IsReady, Joins};
ghost use Rattle.envelope.specs.Extremes.{AgreeAlong, either, unmet, HasExtreme};

use crate::Sample;
use crate::peaks::{Peak, greater, is_over, is_under, lesser};
use case_model::Spot;
use std::alloc::{AllocError, Global};

/// The envelope of a place up to a step: each number with the first step at which it stands.
#[derive(Clone, Copy, Debug, PartialEq, Eq)]
pub struct Extreme {
    /// The greatest head, in 1e-6 m.
    pub max: i64,
    /// The first step at which the greatest head stands.
    pub max_step: u64,
    /// The least head, in 1e-6 m.
    pub min: i64,
    /// The first step at which the least head stands.
    pub min_step: u64,
    /// The greatest volume, in 1e-9 m3.
    pub volume: i64,
    /// The first step at which the greatest volume stands.
    pub volume_step: u64,
}

impl Extreme {
    /// The extreme of a place of which nothing is taken: its greatest head is below its least, and its
    /// volume below 0.
    pub(crate) fn unmet() -> Extreme
        ensures value { result ≡ unmet }
    {
        Extreme {
            max: -1,
            max_step: 0,
            min: 0,
            min_step: 0,
            volume: -1,
            volume_step: 0,
        }
    }

    /// The extreme of a place of which one sample is taken, of a head and a volume.
    pub(crate) fn of_one(step: u64, h: i64, v: i64) -> Extreme
        ensures plain { pos 0 ≤ℤ v → IsPlain step result }
        ensures taken { (x : Taken) (f : ℕ → Option Taken) (last : ℕ) → x.h ≡ h → x.v ≡ v →
            step ≤ last → f step ≡ Some x → ((s : ℕ) → s ≢ step → f s ≡ None) →
            HasExtreme f last result }
    {
        Extreme {
            max: h,
            max_step: step,
            min: h,
            min_step: step,
            volume: v,
            volume_step: step,
        }
    }

    /// The extreme of a place of which is taken what these two stand for.
    pub(crate) fn joined(&self, other: &Extreme) -> Extreme
        ensures plain { (step : ℕ) → IsPlain step self.now → IsPlain step other.now →
            IsPlain step result }
        ensures taken { (f g : ℕ → Option Taken) (last : ℕ) → AgreeAlong f g →
            HasExtreme f last self.now → HasExtreme g last other.now →
            HasExtreme (either f g) last result }
    {
        if other.is_unmet() {
            return *self;
        }
        if self.is_unmet() {
            return *other;
        }
        let max = greater(self.highest(), other.highest());
        let min = lesser(self.lowest(), other.lowest());
        let volume = greater(self.fullest(), other.fullest());
        Extreme {
            max: max.value,
            max_step: max.step,
            min: min.value,
            min_step: min.step,
            volume: volume.value,
            volume_step: volume.step,
        }
    }

    /// Whether what another stands for changes nothing here.
    fn covers(&self, other: &Extreme) -> bool
        ensures { result ≡ true → (f g : ℕ → Option Taken) (last : ℕ) → AgreeAlong f g →
            HasExtreme f last self.now → HasExtreme g last other.now →
            HasExtreme (either f g) last self.now }
    {
        if other.is_unmet() {
            return false;
        }
        if !is_over(self.highest(), other.highest()) {
            return false;
        }
        if !is_under(self.lowest(), other.lowest()) {
            return false;
        }
        is_over(self.fullest(), other.fullest())
    }

    // Whether no extreme stands first at a later step.
    fn is_early(&self, step: u64) -> bool
        ensures { result ≡ true → IsEarly step self.now }
    {
        self.max_step <= step && self.min_step <= step && self.volume_step <= step
    }

    // Whether the greatest volume is at least this, and no extreme stands first at a later step.
    fn is_over(&self, step: u64, v: i64) -> bool
        ensures full { result ≡ true → v ≤ℤ self.now.volume }
        ensures early { result ≡ true → IsEarly step self.now }
    {
        v <= self.volume && self.is_early(step)
    }

    fn is_unmet(&self) -> bool
        ensures unmet { result ≡ true → self.now.max <ℤ self.now.min }
        ensures met { result ≡ false → self.now.min ≤ℤ self.now.max }
    {
        self.max < self.min
    }

    fn highest(&self) -> Peak
        ensures value { result.value ≡ self.now.max }
        ensures step { result.step ≡ self.now.max_step }
    {
        Peak {
            value: self.max,
            step: self.max_step,
        }
    }

    fn lowest(&self) -> Peak
        ensures value { result.value ≡ self.now.min }
        ensures step { result.step ≡ self.now.min_step }
    {
        Peak {
            value: self.min,
            step: self.min_step,
        }
    }

    fn fullest(&self) -> Peak
        ensures value { result.value ≡ self.now.volume }
        ensures step { result.step ≡ self.now.volume_step }
    {
        Peak {
            value: self.volume,
            step: self.volume_step,
        }
    }
}

/// As many cells of places of which nothing is taken.
pub(crate) fn blank_cells(alloc: Global, count: usize) -> Result<Vec<Extreme>, AllocError>
    ensures { IfOk result (λ cells. cells.items ≡ replicate count unmet) }
{
    vec![in alloc; Extreme::unmet(); count]
}

/// Joins what another extreme stands for to that of a cell. Mostly nothing changes, and nothing is
/// written.
pub(crate) fn join_cell(cells: &mut Vec<Extreme>, cell: usize, other: &Extreme)
    requires { cell < length cells.old.items }
    ensures here { (f g : ℕ → Option Taken) (last : ℕ) → AgreeAlong f g →
        HasExtreme f last (slice_index_or cells.old.items cell unmet) →
        HasExtreme g last other.now →
        HasExtreme (either f g) last (slice_index_or cells.new.items cell unmet) }
    ensures others { (c : ℕ) → c ≢ cell →
        slice_index_or cells.new.items c unmet ≡ slice_index_or cells.old.items c unmet }
    ensures count { length cells.new.items ≡ length cells.old.items }
    ensures plain { (step : ℕ) → ArePlain step cells.old.items → IsPlain step other.now →
        ArePlain step cells.new.items }
{
    if !cells[cell].covers(other) {
        cells[cell] = cells[cell].joined(other);
    }
}

/// Joins a sample taken at a step to a cell. If `late`, no extreme of any cell stands first at a
/// later one. Mostly nothing changes, and nothing is written.
#[inline(always)]
pub(crate) fn join_sample(
    cells: &mut Vec<Extreme>,
    cell: usize,
    late: bool,
    step: u64,
    sample: &Sample,
)
    requires there { cell < length cells.old.items }
    requires late { late ≡ true → ArePlain step cells.old.items }
    ensures here { (f g : ℕ → Option Taken) (last : ℕ) → step ≤ last → AgreeAlong f g →
        g step ≡ Some
        (record { h = sample.now.h; qu = sample.now.qu; qd = sample.now.qd; v = sample.now.v }) →
        ((s : ℕ) → s ≢ step → g s ≡ None) →
        HasExtreme f last (slice_index_or cells.old.items cell unmet) →
        HasExtreme (either f g) last (slice_index_or cells.new.items cell unmet) }
    ensures others { (c : ℕ) → c ≢ cell →
        slice_index_or cells.new.items c unmet ≡ slice_index_or cells.old.items c unmet }
    ensures count { length cells.new.items ≡ length cells.old.items }
    ensures plain { (last : ℕ) → step ≤ last → pos 0 ≤ℤ sample.now.v →
        ArePlain last cells.old.items → ArePlain last cells.new.items }
{
    join_taken(&mut cells[cell], late, step, sample.h, sample.v);
}

// The head and the volume of a sample.
#[inline(always)]
fn join_taken(cell: &mut Extreme, late: bool, step: u64, h: i64, v: i64)
    requires { late ≡ true → IsPlain step cell.old }
    ensures { IsJoined step h v cell.old cell.new }
{
    if late && v <= cell.volume {
        join_head::<true>(cell, step, h, v);
    } else {
        join_head::<false>(cell, step, h, v);
    }
}

/// Joins points without a cavity, taken at one step, to the cells from `first` on. If `late`, no
/// extreme of any cell stands first at a later one. Mostly nothing changes, and nothing is written.
#[inline(always)]
pub(crate) fn join_spots(cells: &mut [Extreme], late: bool, first: usize, step: u64, spots: &[Spot])
    requires room { first + length spots.now ≤ length cells.old }
    requires late { late ≡ true → ArePlain step cells.old }
    ensures here { (i : ℕ) → i < length spots.now →
        Joins (slice_index_or cells.old (first + i) unmet)
        (slice_index_or cells.new (first + i) unmet) step (calm_at spots.now i) }
    ensures others { (c : ℕ) → (c < first) ⊎ (first + length spots.now ≤ c) →
        slice_index_or cells.new c unmet ≡ slice_index_or cells.old c unmet }
    ensures count { length cells.new ≡ length cells.old }
    ensures plain { (last : ℕ) → step ≤ last → ArePlain last cells.old → ArePlain last cells.new }
{
    if late {
        join_each::<true>(cells, first, step, spots);
    } else {
        join_each::<false>(cells, first, step, spots);
    }
}

#[inline(always)]
fn join_each<const LATE: bool>(cells: &mut [Extreme], first: usize, step: u64, spots: &[Spot])
    requires room { first + length spots.now ≤ length cells.old }
    requires late { LATE ≡ true → ArePlain step cells.old }
    ensures here { (i : ℕ) → i < length spots.now →
        Joins (slice_index_or cells.old (first + i) unmet)
        (slice_index_or cells.new (first + i) unmet) step (calm_at spots.now i) }
    ensures others { (c : ℕ) → (c < first) ⊎ (first + length spots.now ≤ c) →
        slice_index_or cells.new c unmet ≡ slice_index_or cells.old c unmet }
    ensures count { length cells.new ≡ length cells.old }
    ensures plain { (last : ℕ) → step ≤ last → ArePlain last cells.old → ArePlain last cells.new }
{
    for (i, spot) in spots.iter().enumerate() {
        join_spot::<LATE>(cells, first + i, step, spot);
    }
}

#[inline(always)]
fn join_spot<const LATE: bool>(cells: &mut [Extreme], cell: usize, step: u64, spot: &Spot)
    requires there { cell < length cells.old }
    requires late { LATE ≡ true → ArePlain step cells.old }
    ensures here { Joins (slice_index_or cells.old cell unmet) (slice_index_or cells.new cell unmet)
        step (calm_point spot.now) }
    ensures others { (c : ℕ) → c ≢ cell →
        slice_index_or cells.new c unmet ≡ slice_index_or cells.old c unmet }
    ensures count { length cells.new ≡ length cells.old }
    ensures plain { (last : ℕ) → step ≤ last → ArePlain last cells.old → ArePlain last cells.new }
{
    join_head::<LATE>(&mut cells[cell], step, spot.h, 0);
}

// Joins a head and a volume, taken at a step, to a cell; if `LATE`, no extreme of it stands first at
// a later one, and the volume is no greater than its greatest.
#[inline(always)]
fn join_head<const LATE: bool>(cell: &mut Extreme, step: u64, h: i64, v: i64)
    requires { LATE ≡ true → IsReady step v cell.old }
    ensures { IsJoined step h v cell.old cell.new }
{
    if h < cell.min {
        lower::<LATE>(cell, step, h, v);
    } else if cell.max < h {
        raise::<LATE>(cell, step, h, v);
    } else if !(LATE || cell.is_over(step, v)) {
        join_new(cell, step, h, v);
    }
}

// As `join_head`, of a head below the least.
#[inline(always)]
fn lower<const LATE: bool>(cell: &mut Extreme, step: u64, h: i64, v: i64)
    requires under { h <ℤ cell.old.min }
    requires late { LATE ≡ true → IsReady step v cell.old }
    ensures { IsJoined step h v cell.old cell.new }
{
    if LATE && 0 <= cell.volume {
        cell.min = h;
        cell.min_step = step;
    } else {
        join_new(cell, step, h, v);
    }
}

// As `join_head`, of a head over the greatest.
#[inline(always)]
fn raise<const LATE: bool>(cell: &mut Extreme, step: u64, h: i64, v: i64)
    requires over { cell.old.max <ℤ h }
    requires late { LATE ≡ true → IsReady step v cell.old }
    ensures { IsJoined step h v cell.old cell.new }
{
    if LATE && 0 <= cell.volume {
        cell.max = h;
        cell.max_step = step;
    } else {
        join_new(cell, step, h, v);
    }
}

// As `join_head`, whatever the cell has.
#[cold]
#[inline(never)]
fn join_new(cell: &mut Extreme, step: u64, h: i64, v: i64)
    ensures { IsJoined step h v cell.old cell.new }
{
    *cell = cell.joined(&Extreme::of_one(step, h, v));
}
