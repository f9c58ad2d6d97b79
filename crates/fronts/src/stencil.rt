//! The stencil: how the law raises places of a stretch by one step.
ghost use Rattle.std.specs.Prelude.{◌≡◌, ℕ, ◌+◌, ◌-◌, ◌*◌, ◌^◌, ◌<◌, ◌≤◌, true, length};
ghost use Rattle.case_model.specs.Meaning.{Meaning, IsMeaning};
ghost use Rattle.case_model.specs.Mesh.{reaches};
ghost use Rattle.fronts.specs.Bands.{AreMade, AreRaised, IsOnMesh, IsStepped};
ghost use Rattle.fronts.specs.Fronts.{Holds, Raises};
ghost use Rattle.fronts.specs.Stretches.{count_of};

use crate::Stretch;
use crate::ranges::keeps_range;
use case_model::{Law, Spot};

impl Stretch {
    /// Raises the places from `low` on and below `high` to the step after `step`, of what is kept
    /// of them and of their neighbours for `step`.
    #[inline(always)]
    pub fn step_run<L: Law>(&mut self, law: &L, step: u64, low: usize, high: usize)
        requires on_mesh { IsOnMesh (L.meaning law.now) self.old }
        requires after_first { 0 < low }
        requires before_last { high < count_of self.old }
        ensures stepped { IsStepped (L.meaning law.now) step (λ x. x) low high self.old self.new }
        ensures holds { (since front later : ℕ → ℕ) →
            Raises step (λ x. x) low high (count_of self.old) since front later →
            Holds (L.meaning law.now) since front self.old →
            Holds (L.meaning law.now) since later self.new }
    {
        self.settle();
        self.raise_run(law, step, low, high);
    }

    /// As `step_run`, of one place.
    #[inline(always)]
    pub fn step_place<L: Law>(&mut self, law: &L, step: u64, place: usize)
        requires on_mesh { IsOnMesh (L.meaning law.now) self.old }
        requires after_first { 0 < place }
        requires before_last { place + 1 < count_of self.old }
        ensures stepped { IsStepped (L.meaning law.now) step (λ x. x) place (place + 1) self.old
            self.new }
        ensures holds { (since front later : ℕ → ℕ) →
            Raises step (λ x. x) place (place + 1) (count_of self.old) since front later →
            Holds (L.meaning law.now) since front self.old →
            Holds (L.meaning law.now) since later self.new }
    {
        self.settle();
        self.raise_next(law, step, place, place + 1);
    }

    // As `step_run`: runs of a calm stretch, and place by place what has or gets a cavity.
    #[inline(always)]
    fn raise_run<L: Law>(&mut self, law: &L, step: u64, low: usize, high: usize)
        requires on_mesh { IsOnMesh (L.meaning law.now) self.old }
        requires after_first { 0 < low }
        requires before_last { high < count_of self.old }
        ensures { IsStepped (L.meaning law.now) step (λ x. x) low high self.old self.new }
    {
        let mut place = low;
        while place < high {
            place += self.raise_next(law, step, place, high);
        }
    }

    // Raises the first places of a run, one at least, and gives how many these are.
    #[inline(always)]
    fn raise_next<L: Law>(&mut self, law: &L, step: u64, low: usize, high: usize) -> usize
        requires on_mesh { IsOnMesh (L.meaning law.now) self.old }
        requires after_first { 0 < low }
        requires order { low < high }
        requires before_last { high < count_of self.old }
        ensures some { 0 < result }
        ensures most { result ≤ high - low }
        ensures stepped { IsStepped (L.meaning law.now) step (λ x. x) low (low + result) self.old
            self.new }
    {
        let done = self.raise_some(law, step, low, high);
        if low + done == high {
            return done;
        }
        self.raise_place(law, step, low + done);
        done + 1
    }

    // Raises the first places of a run, as far as the stretch is calm, and gives how many these
    // are.
    #[inline(always)]
    fn raise_some<L: Law>(&mut self, law: &L, step: u64, low: usize, high: usize) -> usize
        requires on_mesh { IsOnMesh (L.meaning law.now) self.old }
        requires after_first { 0 < low }
        requires order { low < high }
        requires before_last { high < count_of self.old }
        ensures most { result ≤ high - low }
        ensures stepped { IsStepped (L.meaning law.now) step (λ x. x) low (low + result) self.old
            self.new }
    {
        if self.calm {
            self.raise_calm(law, step, low, high)
        } else {
            0
        }
    }

    // Raises the first places of a run of a calm stretch, as far as it stays calm, and gives how
    // many these are.
    #[tactic(auto, unfolding(crate::specs::Stretches::count_of))]
    #[inline(always)]
    fn raise_calm<L: Law>(&mut self, law: &L, step: u64, low: usize, high: usize) -> usize
        requires on_mesh { IsOnMesh (L.meaning law.now) self.old }
        requires calm { self.old.calm ≡ true }
        requires after_first { 0 < low }
        requires order { low < high }
        requires before_last { high < count_of self.old }
        ensures most { result ≤ high - low }
        ensures stepped { IsStepped (L.meaning law.now) step (λ x. x) low (low + result) self.old
            self.new }
    {
        let places = Places {
            pipe: self.pipe,
            first: self.first,
            count: self.count,
            low,
            high,
        };
        raise_spots(law, places, step % 2 == 0, &mut self.spots)
    }

    // Kept out of the way of calm runs.
    #[inline(never)]
    fn raise_place<L: Law>(&mut self, law: &L, step: u64, place: usize)
        requires on_mesh { IsOnMesh (L.meaning law.now) self.old }
        requires after_first { 0 < place }
        requires before_last { place + 1 < count_of self.old }
        ensures { IsStepped (L.meaning law.now) step (λ x. x) place (place + 1) self.old self.new }
    {
        keeps_range(law);
        let even = step % 2 == 0;
        let left = self.point_of(even, place - 1);
        let own = self.point_of(even, place);
        let right = self.point_of(even, place + 1);
        let next = law.inner(self.pipe, self.first + place as u32, &left, &own, &right);
        self.put_of(!even, place, next);
    }
}

// Places of a pipe from `low` on and below `high`, of so many from place `first` on.
#[derive(Clone, Copy)]
struct Places {
    pipe: u32,
    first: u32,
    count: usize,
    low: usize,
    high: usize,
}

// Writes the spots of these places one step after those of the even steps, or of the odd ones, as
// far as none has a cavity; gives how many these are.
#[inline(always)]
fn raise_spots<L: Law>(law: &L, places: Places, even: bool, spots: &mut [Spot]) -> usize
    requires pipe { places.pipe < length (L.meaning law.now).mesh.pipes }
    requires some { 0 < places.low }
    requires low { places.low < places.high }
    requires high { places.high < places.count }
    requires each { length spots.old ≡ 2 * places.count }
    requires fits { places.first + places.count ≤ reaches (L.meaning law.now).mesh places.pipe + 1 }
    requires small { reaches (L.meaning law.now).mesh places.pipe < 2 ^ 32 }
    ensures most { result ≤ places.high - places.low }
    ensures raised { AreRaised (L.meaning law.now) places even result spots.old spots.new }
{
    let (evens, odds) = spots.split_at_mut(places.count);
    if even {
        make_spots(law, places, evens, odds)
    } else {
        make_spots(law, places, odds, evens)
    }
}

// Writes the spots of these places one step after those in `old` into `new`, as far as none has a
// cavity; gives how many these are.
#[inline(always)]
fn make_spots<L: Law>(law: &L, places: Places, old: &[Spot], new: &mut [Spot]) -> usize
    requires pipe { places.pipe < length (L.meaning law.now).mesh.pipes }
    requires some { 0 < places.low }
    requires low { places.low < places.high }
    requires high { places.high < length old.now }
    requires each { length new.old ≡ length old.now }
    requires fits { places.first + length old.now
        ≤ reaches (L.meaning law.now).mesh places.pipe + 1 }
    requires small { reaches (L.meaning law.now).mesh places.pipe < 2 ^ 32 }
    ensures most { result ≤ places.high - places.low }
    ensures made { AreMade (L.meaning law.now) places result old.now new.old new.new }
{
    law.calm_run(
        places.pipe,
        places.first + places.low as u32,
        &old[places.low - 1..places.high + 1],
        &mut new[places.low..places.high],
    )
}
