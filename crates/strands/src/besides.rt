//! What a station takes in from the sections beside it.
ghost use Rattle.std.specs.Prelude.{◌≡◌, ℕ, ◌+◌, ◌-◌, ◌*◌, ◌/◌, ◌^◌, ◌<◌, ◌≤◌, Bool};
ghost use Rattle.std.specs.Prelude.{true, false};
ghost use Rattle.case_model.specs.Meaning.{Meaning};
ghost use Rattle.fronts.specs.Fronts.{Holds};
ghost use Rattle.fronts.specs.Stretches.{AreSamePlaces, count_of};
ghost use Rattle.strands.specs.Beside.{HasBeside, beside, outer_side};
ghost use Rattle.strands.specs.Beside.{taken_front, taken_since};
ghost use Rattle.strands.specs.Stations.{half};
ghost use Rattle.strands.specs.Blocks.{HasPoints, station_step};

use crate::handed::Block;
use fronts::Stretch;

/// Takes the block of a section in at the right or the left of the station in place `at`: the
/// points beside the station, over the window of so many steps after `start`.
#[inline(always)]
pub fn load_beside<B: Block>(
    stretch: &mut Stretch,
    right: bool,
    at: usize,
    window: usize,
    start: u64,
    block: &B,
)
    requires each { B.size block.now ≡ window }
    requires inside { HasBeside right at (half window) (count_of stretch.old) }
    requires room { start + window < 2 ^ 64 }
    ensures same { AreSamePlaces stretch.old stretch.new }
    ensures holds { (law : Meaning) (since front : ℕ → ℕ) →
        HasPoints window (outer_side law stretch.old right at start) (B.tells block.now) →
        Holds law since front stretch.old →
        Holds law (taken_since right at start (half window) since)
        (taken_front right at window start (half window) front) stretch.new }
{
    if window == 2 {
        load_next(stretch, right, at, window, start, block);
    } else {
        load_any_beside(stretch, right, at, window, start, *block);
    }
}

// The same over a window of two steps: the points next to the station.
#[inline(always)]
fn load_next<B: Block>(
    stretch: &mut Stretch,
    right: bool,
    at: usize,
    window: usize,
    start: u64,
    block: &B,
)
    requires two { window ≡ 2 }
    requires each { B.size block.now ≡ window }
    requires inside { HasBeside right at (half window) (count_of stretch.old) }
    requires room { start + window < 2 ^ 64 }
    ensures same { AreSamePlaces stretch.old stretch.new }
    ensures holds { (law : Meaning) (since front : ℕ → ℕ) →
        HasPoints window (outer_side law stretch.old right at start) (B.tells block.now) →
        Holds law since front stretch.old →
        Holds law (taken_since right at start (half window) since)
        (taken_front right at window start (half window) front) stretch.new }
{
    let place = place_beside(stretch, right, at, 1);
    load_at(stretch, place, window, start, block, 1);
}

// The same over a window of any count of steps, of a copy of the block: that of a narrow window
// then needs no place in memory.
#[inline(never)]
fn load_any_beside<B: Block>(
    stretch: &mut Stretch,
    right: bool,
    at: usize,
    window: usize,
    start: u64,
    block: B,
)
    requires each { B.size block ≡ window }
    requires inside { HasBeside right at (half window) (count_of stretch.old) }
    requires room { start + window < 2 ^ 64 }
    ensures same { AreSamePlaces stretch.old stretch.new }
    ensures holds { (law : Meaning) (since front : ℕ → ℕ) →
        HasPoints window (outer_side law stretch.old right at start) (B.tells block) →
        Holds law since front stretch.old →
        Holds law (taken_since right at start (half window) since)
        (taken_front right at window start (half window) front) stretch.new }
{
    if lay_beside(stretch, right, at, window, start, &block) {
        load_last(stretch, right, at, window, start, block);
    } else {
        load_each(stretch, right, at, window, start, block);
    }
}

// Takes the pairs of points of the block in as they stand, or tells that they don't stand so.
#[inline(always)]
fn lay_beside<B: Block>(
    stretch: &mut Stretch,
    right: bool,
    at: usize,
    window: usize,
    start: u64,
    block: &B,
) -> bool
    requires each { B.size block.now ≡ window }
    requires inside { HasBeside right at (half window) (count_of stretch.old) }
    requires room { start + window < 2 ^ 64 }
    ensures same { AreSamePlaces stretch.old stretch.new }
    ensures holds { result ≡ true → (law : Meaning) (since front : ℕ → ℕ) →
        HasPoints window (outer_side law stretch.old right at start) (B.tells block.now) →
        Holds law since front stretch.old →
        Holds law (taken_since right at start (window / 2) since)
        (taken_front right at window start (window / 2) front) stretch.new }
    ensures stays { result ≡ false → stretch.new ≡ stretch.old }
{
    let _ = stretch.count();
    let count = window / 2;
    let lowest = if right { at + 1 } else { at - count };
    block.lay(stretch, right, start % 2 == 0, lowest, count)
}

// Takes in what is left once the pairs are: of an odd window the last point.
#[inline(always)]
fn load_last<B: Block>(
    stretch: &mut Stretch,
    right: bool,
    at: usize,
    window: usize,
    start: u64,
    block: B,
)
    requires each { B.size block ≡ window }
    requires inside { HasBeside right at (half window) (count_of stretch.old) }
    requires room { start + window < 2 ^ 64 }
    ensures same { AreSamePlaces stretch.old stretch.new }
    ensures holds { (law : Meaning) (since front : ℕ → ℕ) →
        HasPoints window (outer_side law stretch.old right at start) (B.tells block) →
        Holds law (taken_since right at start (window / 2) since)
        (taken_front right at window start (window / 2) front) stretch.old →
        Holds law (taken_since right at start (half window) since)
        (taken_front right at window start (half window) front) stretch.new }
{
    if window % 2 == 1 {
        let place = place_beside(stretch, right, at, window / 2 + 1);
        load_at(stretch, place, window, start, &block, window / 2 + 1);
    }
}

// As `load_any_beside`, distance by distance.
#[inline(never)]
fn load_each<B: Block>(
    stretch: &mut Stretch,
    right: bool,
    at: usize,
    window: usize,
    start: u64,
    block: B,
)
    requires each { B.size block ≡ window }
    requires inside { HasBeside right at (half window) (count_of stretch.old) }
    requires room { start + window < 2 ^ 64 }
    ensures same { AreSamePlaces stretch.old stretch.new }
    ensures holds { (law : Meaning) (since front : ℕ → ℕ) →
        HasPoints window (outer_side law stretch.old right at start) (B.tells block) →
        Holds law since front stretch.old →
        Holds law (taken_since right at start (half window) since)
        (taken_front right at window start (half window) front) stretch.new }
{
    for distance in 1..window.div_ceil(2) + 1 {
        let place = place_beside(stretch, right, at, distance);
        load_at(stretch, place, window, start, &block, distance);
    }
}

// Takes the points at one distance from the station in, at their place.
#[inline(always)]
fn load_at<B: Block>(
    stretch: &mut Stretch,
    place: usize,
    window: usize,
    start: u64,
    block: &B,
    distance: usize,
)
    requires each { B.size block.now ≡ window }
    requires some { 1 ≤ distance }
    requires near { 2 * distance ≤ window + 1 }
    requires inside { place < count_of stretch.old }
    requires room { start + window < 2 ^ 64 }
    ensures same { AreSamePlaces stretch.old stretch.new }
    ensures holds { (law : Meaning) (right : Bool) (at : ℕ) (since front : ℕ → ℕ) →
        HasBeside right at distance (count_of stretch.old) →
        place ≡ beside right at distance →
        HasPoints window (outer_side law stretch.old right at start) (B.tells block.now) →
        Holds law (taken_since right at start (distance - 1) since)
        (taken_front right at window start (distance - 1) front) stretch.old →
        Holds law (taken_since right at start distance since)
        (taken_front right at window start distance front) stretch.new }
{
    let step = start + (distance - 1) as u64;
    let number = 2 * (distance - 1);
    if number + 1 < window {
        let pair = block.pair(distance - 1);
        stretch.put_pair(step, place, pair);
    } else {
        let last = block.point(number);
        stretch.put(step, place, last);
    }
}

// The place at a distance to the right or to the left of a place of the stretch.
pub(crate) fn place_beside(stretch: &Stretch, right: bool, at: usize, distance: usize) -> usize
    requires { HasBeside right at distance (count_of stretch.now) }
    ensures place { result ≡ beside right at distance }
    ensures inside { result < count_of stretch.now }
{
    let _ = stretch.count();
    if right { at + distance } else { at - distance }
}

// After how many steps of a window the point of a number of a station's block stands.
pub(crate) fn step_in(window: usize, number: usize) -> usize
    requires { number < window }
    ensures is { result ≡ station_step window number }
    ensures within { result ≤ window }
{
    if number + 1 == window {
        window - number / 2
    } else {
        window - 1 - number / 2 + number % 2
    }
}
