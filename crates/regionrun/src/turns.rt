//! The next region of a strand: it is entered, fed with the blocks of the strands beside it and
//! computed.
ghost use Rattle.std.specs.Prelude.{◌≡◌, ℕ, ◌+◌, ◌-◌, ◌<◌, ◌≤◌, Some, false, is_some};
ghost use Rattle.std.specs.Prelude.{length, slice_index_or, true, ◌||◌, ◌==◌};
ghost use Rattle.case_model.specs.Meaning.{Meaning};
ghost use Rattle.regionrun.specs.Engine.{AreBeside, IsAtRest, IsCourse};
ghost use Rattle.regionrun.specs.Handed.{ArePointsFor};
ghost use Rattle.regionrun.specs.Lent.{lent_size, lent_tells};
ghost use Rattle.regionrun.specs.Neighbours.{IsNeighbour};
ghost use Rattle.regionrun.specs.Right.{IsFed, IsRight, IsSameStrand, has_loaded};
ghost use Rattle.regions.specs.Needs.{needs_of};
ghost use Rattle.regions.specs.Sides.{back_of, is_section, side_of, sides_of};
ghost use Rattle.schedule.specs.Nets.{regions_of};
ghost use Rattle.schedule.specs.Plans.{net_of};

use crate::Gate;
use crate::frontiers::Frontier;
use crate::lawful::layouts_are_lawful;
use crate::lent::Lent;
use crate::one_strand::Strand;
use case_model::Law;
use regions::{Layout, Shape};
use schedule::Plan;

/// What all turns of a run have in common.
#[derive(Drop)]
pub(crate) struct Course<'a, L, G> {
    pub(crate) law: &'a L,
    pub(crate) layout: &'a Layout,
    pub(crate) plan: &'a Plan,
    pub(crate) gate: &'a G,
}

/// Whose turn it is: the regions of one number, of the sections or of the stations.
#[derive(Drop, Clone, Copy)]
pub(crate) struct Turn {
    pub(crate) of_sections: bool,
    pub(crate) region: u64,
}

/// The strands of one kind, in order, and the number of the first of them.
#[derive(Drop, Clone, Copy)]
pub(crate) struct Half<'a, S> {
    pub(crate) first: usize,
    pub(crate) strands: &'a [Strand<S>],
}

/// How many stations a layout has: they stand before its sections.
pub(crate) fn station_count(layout: &Layout) -> usize
    ensures few { result ≤ length layout.now.shapes }
    ensures below { (x : ℕ) → x < result → is_section layout.now x ≡ false }
    ensures there { result < length layout.now.shapes → is_section layout.now result ≡ true }
{
    let shapes = layout.shapes.as_slice();
    for x in 0..shapes.len() {
        if matches!(shapes[x], Shape::OfSection { .. }) {
            return x;
        }
    }
    shapes.len()
}

/// Computes the next region of a strand whose turn it is, of the blocks of those beside it.
#[inline(always)]
pub(crate) fn advance<L: Law, G: Gate>(
    course: &Course<L, G>,
    turn: Turn,
    beside: &Half<G::Stub>,
    strand: &mut Strand<G::Stub>,
)
    requires course { IsCourse (L.meaning course.now.law.now) course.now.layout.now
        (net_of course.now.plan.now) }
    requires turn { turn.region < regions_of turn.of_sections course.now.layout.now.windows }
    requires beside { AreBeside G.Stub.strand_of G.Stub.entered_of (L.meaning course.now.law.now)
        course.now.layout.now turn.of_sections turn.region beside.now.first
        beside.now.strands.now }
    requires rest { IsAtRest G.Stub.strand_of G.Stub.entered_of (L.meaning course.now.law.now)
        course.now.layout.now turn.of_sections turn.region strand.old }
    ensures rest { IsAtRest G.Stub.strand_of G.Stub.entered_of (L.meaning course.now.law.now)
        course.now.layout.now turn.of_sections (turn.region + 1) strand.new }
    ensures same { IsSameStrand strand.old.frontier strand.new.frontier }
{
    strand.enter(course.gate);
    feed(course, turn, beside, &mut strand.frontier);
    strand.frontier.compute(course.law);
}

// Takes the blocks in that the next region of a strand needs.
#[inline(always)]
fn feed<L: Law, G: Gate>(
    course: &Course<L, G>,
    turn: Turn,
    beside: &Half<G::Stub>,
    frontier: &mut Frontier,
)
    requires course { IsCourse (L.meaning course.now.law.now) course.now.layout.now
        (net_of course.now.plan.now) }
    requires turn { turn.region < regions_of turn.of_sections course.now.layout.now.windows }
    requires beside { AreBeside G.Stub.strand_of G.Stub.entered_of (L.meaning course.now.law.now)
        course.now.layout.now turn.of_sections turn.region beside.now.first
        beside.now.strands.now }
    requires kind { is_section course.now.layout.now frontier.old.number ≡ turn.of_sections }
    requires computed { frontier.old.computed ≡ turn.region }
    requires right { IsRight (L.meaning course.now.law.now) course.now.layout.now frontier.old }
    ensures right { IsRight (L.meaning course.now.law.now) course.now.layout.now frontier.new }
    ensures fed { IsFed course.now.layout.now frontier.new }
    ensures computed { frontier.new.computed ≡ frontier.old.computed }
    ensures same { IsSameStrand frontier.old frontier.new }
{
    if !needs_blocks(turn) {
        return;
    }
    let window = course.layout.window as usize;
    if frontier.sides != 2 {
        feed_all(course, turn, beside, window, frontier);
    } else if window == 2 {
        feed_both(course, turn, beside, 2, frontier);
    } else {
        feed_both(course, turn, beside, window, frontier);
    }
}

// The same of a strand with any count of sides.
#[inline(never)]
fn feed_all<L: Law, G: Gate>(
    course: &Course<L, G>,
    turn: Turn,
    beside: &Half<G::Stub>,
    window: usize,
    frontier: &mut Frontier,
)
    requires course { IsCourse (L.meaning course.now.law.now) course.now.layout.now
        (net_of course.now.plan.now) }
    requires beside { AreBeside G.Stub.strand_of G.Stub.entered_of (L.meaning course.now.law.now)
        course.now.layout.now turn.of_sections turn.region beside.now.first
        beside.now.strands.now }
    requires needed { is_some (needs_of turn.of_sections turn.region) ≡ true }
    requires window { window ≡ course.now.layout.now.window }
    requires kind { is_section course.now.layout.now frontier.old.number ≡ turn.of_sections }
    requires computed { frontier.old.computed ≡ turn.region }
    requires right { IsRight (L.meaning course.now.law.now) course.now.layout.now frontier.old }
    ensures right { IsRight (L.meaning course.now.law.now) course.now.layout.now frontier.new }
    ensures fed { IsFed course.now.layout.now frontier.new }
    ensures computed { frontier.new.computed ≡ frontier.old.computed }
    ensures same { IsSameStrand frontier.old frontier.new }
{
    for side in 0..frontier.sides as usize {
        let neighbour = neighbour_at(course, turn, beside, frontier.number, side);
        feed_side(course, turn, window, &neighbour, side, frontier);
    }
}

// The same of a strand with two sides. Where both neighbours lie is read before a block is taken
// in: so neither waits for the other.
#[inline(always)]
fn feed_both<L: Law, G: Gate>(
    course: &Course<L, G>,
    turn: Turn,
    beside: &Half<G::Stub>,
    window: usize,
    frontier: &mut Frontier,
)
    requires course { IsCourse (L.meaning course.now.law.now) course.now.layout.now
        (net_of course.now.plan.now) }
    requires beside { AreBeside G.Stub.strand_of G.Stub.entered_of (L.meaning course.now.law.now)
        course.now.layout.now turn.of_sections turn.region beside.now.first
        beside.now.strands.now }
    requires needed { is_some (needs_of turn.of_sections turn.region) ≡ true }
    requires window { window ≡ course.now.layout.now.window }
    requires two { frontier.old.sides ≡ 2 }
    requires kind { is_section course.now.layout.now frontier.old.number ≡ turn.of_sections }
    requires computed { frontier.old.computed ≡ turn.region }
    requires right { IsRight (L.meaning course.now.law.now) course.now.layout.now frontier.old }
    ensures right { IsRight (L.meaning course.now.law.now) course.now.layout.now frontier.new }
    ensures fed { IsFed course.now.layout.now frontier.new }
    ensures computed { frontier.new.computed ≡ frontier.old.computed }
    ensures same { IsSameStrand frontier.old frontier.new }
{
    let first = neighbour_at(course, turn, beside, frontier.number, 0);
    let second = neighbour_at(course, turn, beside, frontier.number, 1);
    feed_side(course, turn, window, &first, 0, frontier);
    feed_side(course, turn, window, &second, 1, frontier);
}

// Takes the block of one neighbour in.
#[inline(always)]
fn feed_side<L: Law, G: Gate>(
    course: &Course<L, G>,
    turn: Turn,
    window: usize,
    neighbour: &Neighbour,
    side: usize,
    frontier: &mut Frontier,
)
    requires course { IsCourse (L.meaning course.now.law.now) course.now.layout.now
        (net_of course.now.plan.now) }
    requires needed { is_some (needs_of turn.of_sections turn.region) ≡ true }
    requires window { window ≡ course.now.layout.now.window }
    requires neighbour { IsNeighbour (L.meaning course.now.law.now) course.now.layout.now
        turn.of_sections turn.region frontier.old.number side neighbour.now.back
        neighbour.now.frontier.now }
    requires side { side < frontier.old.sides }
    requires kind { is_section course.now.layout.now frontier.old.number ≡ turn.of_sections }
    requires computed { frontier.old.computed ≡ turn.region }
    requires right { IsRight (L.meaning course.now.law.now) course.now.layout.now frontier.old }
    ensures right { IsRight (L.meaning course.now.law.now) course.now.layout.now frontier.new }
    ensures loaded { (c : ℕ) → c < frontier.old.sides →
        has_loaded frontier.new c ≡ (has_loaded frontier.old c || (c == side)) }
    ensures computed { frontier.new.computed ≡ frontier.old.computed }
    ensures same { IsSameStrand frontier.old frontier.new }
{
    let block = handed(course, turn, window, neighbour, frontier.number, side);
    frontier.load_lent(course.law, window, side, &block);
}

// Whether the regions of a turn need blocks.
fn needs_blocks(turn: Turn) -> bool
    ensures { result ≡ is_some (needs_of turn.of_sections turn.region) }
{
    !turn.of_sections || turn.region != 0
}

// Which block they need.
fn block_number(turn: Turn) -> u64
    requires needed { is_some (needs_of turn.of_sections turn.region) ≡ true }
    ensures { needs_of turn.of_sections turn.region ≡ Some result }
{
    if turn.of_sections {
        turn.region - 1
    } else {
        turn.region
    }
}

// A strand beside one whose turn it is, and which of its own sides that one is.
#[derive(Clone, Copy)]
struct Neighbour<'a> {
    frontier: &'a Frontier,
    back: u32,
}

// The neighbour of a strand at a side.
#[inline(always)]
fn neighbour_at<'a, L: Law, G: Gate>(
    course: &Course<L, G>,
    turn: Turn,
    beside: &Half<'a, G::Stub>,
    number: u32,
    side: usize,
) -> Neighbour<'a>
    requires course { IsCourse (L.meaning course.now.law.now) course.now.layout.now
        (net_of course.now.plan.now) }
    requires beside { AreBeside G.Stub.strand_of G.Stub.entered_of (L.meaning course.now.law.now)
        course.now.layout.now turn.of_sections turn.region beside.now.first
        beside.now.strands.now }
    requires kind { is_section course.now.layout.now number ≡ turn.of_sections }
    requires there { number < length course.now.layout.now.shapes }
    requires side { side
        < sides_of course.now.layout.now (L.meaning course.now.law.now).mesh number }
    ensures { IsNeighbour (L.meaning course.now.law.now) course.now.layout.now turn.of_sections
        turn.region number side result.back result.frontier.now }
{
    let _ = turn;
    let link = course.plan.link(number, side);
    let found = strand_at(beside, link.strand as usize);
    Neighbour {
        frontier: &found.frontier,
        back: link.back,
    }
}

// The block of the neighbour of a strand at a side, where it stands.
#[inline(always)]
fn handed<'a, L: Law, G: Gate>(
    course: &Course<L, G>,
    turn: Turn,
    window: usize,
    neighbour: &Neighbour<'a>,
    number: u32,
    side: usize,
) -> Lent<'a>
    requires course { IsCourse (L.meaning course.now.law.now) course.now.layout.now
        (net_of course.now.plan.now) }
    requires needed { is_some (needs_of turn.of_sections turn.region) ≡ true }
    requires window { window ≡ course.now.layout.now.window }
    requires neighbour { IsNeighbour (L.meaning course.now.law.now) course.now.layout.now
        turn.of_sections turn.region number side neighbour.now.back neighbour.now.frontier.now }
    ensures size { lent_size result ≡ course.now.layout.now.window }
    ensures handed { (b : ℕ) → needs_of turn.of_sections turn.region ≡ Some b →
        ArePointsFor (L.meaning course.now.law.now) course.now.layout.now
        (side_of course.now.layout.now (L.meaning course.now.law.now).mesh number side)
        (back_of course.now.layout.now (L.meaning course.now.law.now).mesh number side) b
        (lent_tells result) }
{
    let _ = course;
    let _ = number;
    let _ = side;
    layouts_are_lawful();
    let region = block_number(turn);
    neighbour
        .frontier
        .block(window, region, neighbour.back as usize)
}

// The strand of a half that has this number.
fn strand_at<'a, S>(half: &Half<'a, S>, number: usize) -> &'a Strand<S>
    requires low { half.now.first ≤ number }
    requires high { number < half.now.first + length half.now.strands.now }
    ensures { result.now
        ≡ slice_index_or half.now.strands.now (number - half.now.first) result.now }
{
    &half.strands[number - half.first]
}
