//! What a section takes in from the stations at its ends.
ghost use Rattle.std.specs.Prelude.{◌≡◌, ℕ, ◌+◌, ◌-◌, ◌*◌, ◌/◌, ◌^◌, ◌<◌, ◌≤◌, Bool};
ghost use Rattle.std.specs.Prelude.{true, false};
ghost use Rattle.case_model.specs.Meaning.{Meaning};
ghost use Rattle.fronts.specs.Fronts.{Holds, ever};
ghost use Rattle.fronts.specs.Stretches.{AreSamePlaces, count_of};
ghost use Rattle.strands.specs.Blocks.{HasPoints, IsBare, from_end as end_place};
ghost use Rattle.strands.specs.Blocks.{loading, raised, station_side};

use crate::handed::Block;
use fronts::Stretch;

/// Takes the block of a station in at the left or the right side of a section: the points of the
/// station and of its triangle, over the window of so many steps after `start`.
#[inline(always)]
pub fn load_side<B: Block>(stretch: &mut Stretch, left: bool, window: usize, start: u64, block: &B)
    requires each { B.size block.now ≡ window }
    requires long { window + 1 ≤ count_of stretch.old }
    requires room { start + window < 2 ^ 64 }
    ensures same { AreSamePlaces stretch.old stretch.new }
    ensures holds { (law : Meaning) (front : ℕ → ℕ) →
        HasPoints window (station_side law stretch.old left window start) (B.tells block.now) →
        IsBare left (count_of stretch.old - 1) window start front →
        Holds law ever front stretch.old →
        Holds law ever (raised left (count_of stretch.old - 1) window start front) stretch.new }
{
    if window == 2 {
        load_end(stretch, left, window, start, block);
    } else {
        load_any_side(stretch, left, window, start, *block);
    }
}

// The same over a window of two steps: the points of the station alone.
#[inline(always)]
fn load_end<B: Block>(stretch: &mut Stretch, left: bool, window: usize, start: u64, block: &B)
    requires two { window ≡ 2 }
    requires each { B.size block.now ≡ window }
    requires long { window + 1 ≤ count_of stretch.old }
    requires room { start + window < 2 ^ 64 }
    ensures same { AreSamePlaces stretch.old stretch.new }
    ensures holds { (law : Meaning) (front : ℕ → ℕ) →
        HasPoints window (station_side law stretch.old left window start) (B.tells block.now) →
        IsBare left (count_of stretch.old - 1) window start front →
        Holds law ever front stretch.old →
        Holds law ever (raised left (count_of stretch.old - 1) window start front) stretch.new }
{
    let last = stretch.count() - 1;
    load_place(stretch, from_end(left, last, 0), window, start, block, 0);
}

// The same over a window of any count of steps, of a copy of the block: that of a narrow window
// then needs no place in memory.
#[inline(never)]
fn load_any_side<B: Block>(stretch: &mut Stretch, left: bool, window: usize, start: u64, block: B)
    requires each { B.size block ≡ window }
    requires long { window + 1 ≤ count_of stretch.old }
    requires room { start + window < 2 ^ 64 }
    ensures same { AreSamePlaces stretch.old stretch.new }
    ensures holds { (law : Meaning) (front : ℕ → ℕ) →
        HasPoints window (station_side law stretch.old left window start) (B.tells block) →
        IsBare left (count_of stretch.old - 1) window start front →
        Holds law ever front stretch.old →
        Holds law ever (raised left (count_of stretch.old - 1) window start front) stretch.new }
{
    if lay_side(stretch, left, window, start, &block) {
        load_last(stretch, left, window, start, block);
    } else {
        load_each(stretch, left, window, start, block);
    }
}

// Takes the pairs of points of the block in as they stand, or tells that they don't stand so.
#[inline(always)]
fn lay_side<B: Block>(
    stretch: &mut Stretch,
    left: bool,
    window: usize,
    start: u64,
    block: &B,
) -> bool
    requires each { B.size block.now ≡ window }
    requires long { window + 1 ≤ count_of stretch.old }
    requires room { start + window < 2 ^ 64 }
    ensures same { AreSamePlaces stretch.old stretch.new }
    ensures holds { result ≡ true → (law : Meaning) (front : ℕ → ℕ) →
        HasPoints window (station_side law stretch.old left window start) (B.tells block.now) →
        Holds law ever front stretch.old →
        Holds law ever
        (loading left (count_of stretch.old - 1) window start (window / 2) front) stretch.new }
    ensures stays { result ≡ false → stretch.new ≡ stretch.old }
{
    let count = window / 2;
    let lowest = if left { 0 } else { stretch.count() - count };
    block.lay(
        stretch,
        left,
        (start + window as u64) % 2 == 1,
        lowest,
        count,
    )
}

// Takes in what is left once the pairs are: of an odd window the last point.
#[inline(always)]
fn load_last<B: Block>(stretch: &mut Stretch, left: bool, window: usize, start: u64, block: B)
    requires each { B.size block ≡ window }
    requires long { window + 1 ≤ count_of stretch.old }
    requires room { start + window < 2 ^ 64 }
    ensures same { AreSamePlaces stretch.old stretch.new }
    ensures holds { (law : Meaning) (front : ℕ → ℕ) →
        HasPoints window (station_side law stretch.old left window start) (B.tells block) →
        IsBare left (count_of stretch.old - 1) window start front →
        Holds law ever
        (loading left (count_of stretch.old - 1) window start (window / 2) front) stretch.old →
        Holds law ever (raised left (count_of stretch.old - 1) window start front) stretch.new }
{
    if window % 2 == 1 {
        let place = from_end(left, stretch.count() - 1, window / 2);
        load_place(stretch, place, window, start, &block, window / 2);
    }
}

// As `load_any_side`, distance by distance.
#[inline(never)]
fn load_each<B: Block>(stretch: &mut Stretch, left: bool, window: usize, start: u64, block: B)
    requires each { B.size block ≡ window }
    requires long { window + 1 ≤ count_of stretch.old }
    requires room { start + window < 2 ^ 64 }
    ensures same { AreSamePlaces stretch.old stretch.new }
    ensures holds { (law : Meaning) (front : ℕ → ℕ) →
        HasPoints window (station_side law stretch.old left window start) (B.tells block) →
        IsBare left (count_of stretch.old - 1) window start front →
        Holds law ever front stretch.old →
        Holds law ever (raised left (count_of stretch.old - 1) window start front) stretch.new }
{
    let last = stretch.count() - 1;
    for distance in 0..window.div_ceil(2) {
        load_place(
            stretch,
            from_end(left, last, distance),
            window,
            start,
            &block,
            distance,
        );
    }
}

// Takes the points at one distance from the station in, at their place.
#[inline(always)]
fn load_place<B: Block>(
    stretch: &mut Stretch,
    place: usize,
    window: usize,
    start: u64,
    block: &B,
    distance: usize,
)
    requires each { B.size block.now ≡ window }
    requires near { 2 * distance < window }
    requires inside { place < count_of stretch.old }
    requires room { start + window < 2 ^ 64 }
    ensures same { AreSamePlaces stretch.old stretch.new }
    ensures holds { (law : Meaning) (left : Bool) (n : ℕ) (front : ℕ → ℕ) →
        count_of stretch.old ≡ n + 1 → window ≤ n → place ≡ end_place left n distance →
        HasPoints window (station_side law stretch.old left window start) (B.tells block.now) →
        IsBare left n window start front →
        Holds law ever (loading left n window start distance front) stretch.old →
        Holds law ever (loading left n window start (distance + 1) front) stretch.new }
{
    let step = start + (window - distance) as u64;
    if 2 * distance + 1 < window {
        let pair = block.pair(distance);
        stretch.put_pair(step - 1, place, pair);
    } else {
        let last = block.point(2 * distance);
        stretch.put(step, place, last);
    }
}

// The place at a distance from the left or the right end of a stretch of so many reaches.
pub(crate) fn from_end(left: bool, reaches: usize, distance: usize) -> usize
    requires { distance ≤ reaches }
    ensures { result ≡ end_place left reaches distance }
{
    if left { distance } else { reaches - distance }
}
