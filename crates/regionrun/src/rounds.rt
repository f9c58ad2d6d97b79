//! All regions of all strands, those of one number side by side on threads.
ghost use Rattle.std.specs.Prelude.{◌≡◌, ◌+◌, ◌<◌, ◌≤◌, IfOk, false, true};
ghost use Rattle.case_model.specs.Meaning.{Meaning};
ghost use Rattle.regionrun.specs.Engine.{AreAt, AreAtRest, AreBeside, AreEachAtRest};
ghost use Rattle.regionrun.specs.Engine.{AreSameFolds, AreSameStrands, IsAtRest, IsCourse, none};
ghost use Rattle.regionrun.specs.Right.{IsSameStrand, region_count};
ghost use Rattle.regions.specs.LaidOut.{IsLaidOut};
ghost use Rattle.schedule.specs.Nets.{regions_of};
ghost use Rattle.schedule.specs.Plans.{net_of};

use crate::Gate;
use crate::one_strand::Strand;
use crate::serial::run_turns as run_turns_alone;
use crate::sizes::sizes;
use crate::turns::{Course, Half, Turn, advance, station_count};
use case_model::{Law, Mesh};
use regions::Layout;
use schedule::Plan;
use std::alloc::AllocError;
use std::thread;
use std::thread::Threads;

/// How many threads a run may have, the calling one among them.
pub const MOST_WORKERS: u32 = 64;

/// The fewest place-steps that a thread is started for. To start and join one costs some 100
/// microseconds, and a place-step 50 to 100 nanoseconds: so at least five parts in six of a
/// thread's time are work.
const LEAST_WORK: u64 = 10_000;

/// The threads that a run may have.
#[derive(Drop, Clone, Copy)]
pub struct Workers<'a, R> {
    /// What starts them.
    pub rt: &'a R,
    /// How many there are at most, 1 to `MOST_WORKERS`.
    pub count: u32,
}

/// Computes all regions of all strands of a layout: in turn the regions of each number, of the
/// sections and then of the stations, each side by side on as many threads as there is work for.
/// All memory is taken before the first region; the error is want of it.
pub fn run_rounds<R: Threads + AllocGlobal + Sync, L: Law, G: Gate + Sync>(
    workers: &Workers<R>,
    law: &L,
    layout: &Layout,
    mesh: &Mesh,
    mut strands: Vec<Strand<G::Stub>>,
    gate: &G,
) -> Result<Vec<Strand<G::Stub>>, AllocError>
    requires some { 1 ≤ workers.now.count }
    requires few { workers.now.count ≤ MOST_WORKERS }
    requires mesh { mesh.now ≡ (L.meaning law.now).mesh }
    requires laid_out { IsLaidOut layout.now mesh.now }
    requires strands { AreAt G.Stub.strand_of G.Stub.entered_of (L.meaning law.now) layout.now none
        strands.items }
    ensures done { IfOk result (λ done. AreAt G.Stub.strand_of G.Stub.entered_of
        (L.meaning law.now) layout.now (region_count layout.now) done.items) }
    ensures folds { IfOk result (λ done. AreSameFolds strands.items done.items) }
{
    sizes(layout, mesh);
    let plan = Plan::make(workers.rt.alloc(), layout, mesh, 1)?;
    let course = Course {
        law,
        layout,
        plan: &plan,
        gate,
    };
    let threads = threads_for(workers.count, mesh.places, layout.window);
    run_on(workers.rt, threads, &course, &mut strands);
    Ok(strands)
}

// All turns, on so many threads; where that is fewer than two, none is started.
fn run_on<R: Threads + Sync, L: Law, G: Gate + Sync>(
    rt: &R,
    threads: usize,
    course: &Course<L, G>,
    strands: &mut [Strand<G::Stub>],
)
    requires course { IsCourse (L.meaning course.now.law.now) course.now.layout.now
        (net_of course.now.plan.now) }
    requires few { course.now.layout.now.windows ≤ 100_000_000 }
    requires strands { AreAt G.Stub.strand_of G.Stub.entered_of (L.meaning course.now.law.now)
        course.now.layout.now none strands.old }
    ensures done { AreAt G.Stub.strand_of G.Stub.entered_of (L.meaning course.now.law.now)
        course.now.layout.now (region_count course.now.layout.now) strands.new }
    ensures folds { AreSameFolds strands.old strands.new }
{
    if threads < 2 {
        run_turns_alone(course, strands);
    } else {
        let crew = Crew { rt, threads };
        run_turns(&crew, course, strands);
    }
}

// On how many threads a turn goes: as many as have enough work each, and at most so many as there
// are. In a window all places go so many steps on, about one half of them in each of two turns.
fn threads_for(workers: u32, places: u64, window: u64) -> usize
    ensures { result ≤ workers }
{
    let work = places.saturating_mul(window) / 2;
    (workers as u64).min(work / LEAST_WORK) as usize
}

// The threads of a run.
#[derive(Drop)]
struct Crew<'a, R> {
    rt: &'a R,
    threads: usize,
    ghost some: { 1 ≤ threads },
}

// All turns, one after another. Takes no memory but what threads stand on.
fn run_turns<R: Threads + Sync, L: Law, G: Gate + Sync>(
    crew: &Crew<R>,
    course: &Course<L, G>,
    strands: &mut [Strand<G::Stub>],
)
    requires course { IsCourse (L.meaning course.now.law.now) course.now.layout.now
        (net_of course.now.plan.now) }
    requires few { course.now.layout.now.windows ≤ 100_000_000 }
    requires strands { AreAt G.Stub.strand_of G.Stub.entered_of (L.meaning course.now.law.now)
        course.now.layout.now none strands.old }
    ensures done { AreAt G.Stub.strand_of G.Stub.entered_of (L.meaning course.now.law.now)
        course.now.layout.now (region_count course.now.layout.now) strands.new }
    ensures folds { AreSameFolds strands.old strands.new }
{
    let first = station_count(course.layout);
    let (stations, sections) = strands.split_at_mut(first);
    run_halves(crew, course, first, stations, sections);
}

// All turns of the stations and of the sections.
fn run_halves<R: Threads + Sync, L: Law, G: Gate + Sync>(
    crew: &Crew<R>,
    course: &Course<L, G>,
    first: usize,
    stations: &mut [Strand<G::Stub>],
    sections: &mut [Strand<G::Stub>],
)
    requires course { IsCourse (L.meaning course.now.law.now) course.now.layout.now
        (net_of course.now.plan.now) }
    requires few { course.now.layout.now.windows ≤ 100_000_000 }
    requires stations { AreAtRest G.Stub.strand_of G.Stub.entered_of (L.meaning course.now.law.now)
        course.now.layout.now false 0 0 stations.old }
    requires sections { AreAtRest G.Stub.strand_of G.Stub.entered_of (L.meaning course.now.law.now)
        course.now.layout.now true 0 first sections.old }
    ensures stations { AreAtRest G.Stub.strand_of G.Stub.entered_of (L.meaning course.now.law.now)
        course.now.layout.now false course.now.layout.now.windows 0 stations.new }
    ensures sections { AreAtRest G.Stub.strand_of G.Stub.entered_of (L.meaning course.now.law.now)
        course.now.layout.now true (course.now.layout.now.windows + 1) first sections.new }
    ensures same_stations { AreSameStrands stations.old stations.new }
    ensures same_sections { AreSameStrands sections.old sections.new }
{
    for region in 0..course.layout.windows {
        round(crew, course, region, first, stations, sections);
    }
    turn_of_sections(
        crew,
        course,
        course.layout.windows,
        first,
        stations,
        sections,
    );
}

// The regions of one number of all sections, and then of all stations.
fn round<R: Threads + Sync, L: Law, G: Gate + Sync>(
    crew: &Crew<R>,
    course: &Course<L, G>,
    region: u64,
    first: usize,
    stations: &mut [Strand<G::Stub>],
    sections: &mut [Strand<G::Stub>],
)
    requires course { IsCourse (L.meaning course.now.law.now) course.now.layout.now
        (net_of course.now.plan.now) }
    requires region { region < course.now.layout.now.windows }
    requires stations { AreAtRest G.Stub.strand_of G.Stub.entered_of (L.meaning course.now.law.now)
        course.now.layout.now false region 0 stations.old }
    requires sections { AreAtRest G.Stub.strand_of G.Stub.entered_of (L.meaning course.now.law.now)
        course.now.layout.now true region first sections.old }
    ensures stations { AreAtRest G.Stub.strand_of G.Stub.entered_of (L.meaning course.now.law.now)
        course.now.layout.now false (region + 1) 0 stations.new }
    ensures sections { AreAtRest G.Stub.strand_of G.Stub.entered_of (L.meaning course.now.law.now)
        course.now.layout.now true (region + 1) first sections.new }
    ensures same_stations { AreSameStrands stations.old stations.new }
    ensures same_sections { AreSameStrands sections.old sections.new }
{
    turn_of_sections(crew, course, region, first, stations, sections);
    turn_of_stations(crew, course, region, first, stations, sections);
}

// The regions of one number of all sections.
fn turn_of_sections<R: Threads + Sync, L: Law, G: Gate + Sync>(
    crew: &Crew<R>,
    course: &Course<L, G>,
    region: u64,
    first: usize,
    stations: &[Strand<G::Stub>],
    sections: &mut [Strand<G::Stub>],
)
    requires course { IsCourse (L.meaning course.now.law.now) course.now.layout.now
        (net_of course.now.plan.now) }
    requires region { region ≤ course.now.layout.now.windows }
    requires stations { AreAtRest G.Stub.strand_of G.Stub.entered_of (L.meaning course.now.law.now)
        course.now.layout.now false region 0 stations.now }
    requires sections { AreAtRest G.Stub.strand_of G.Stub.entered_of (L.meaning course.now.law.now)
        course.now.layout.now true region first sections.old }
    ensures sections { AreAtRest G.Stub.strand_of G.Stub.entered_of (L.meaning course.now.law.now)
        course.now.layout.now true (region + 1) first sections.new }
    ensures same { AreSameStrands sections.old sections.new }
{
    let _ = first;
    let turn = Turn {
        of_sections: true,
        region,
    };
    let beside = Half {
        first: 0,
        strands: stations,
    };
    half_round(crew, course, turn, &beside, sections);
}

// The regions of one number of all stations.
fn turn_of_stations<R: Threads + Sync, L: Law, G: Gate + Sync>(
    crew: &Crew<R>,
    course: &Course<L, G>,
    region: u64,
    first: usize,
    stations: &mut [Strand<G::Stub>],
    sections: &[Strand<G::Stub>],
)
    requires course { IsCourse (L.meaning course.now.law.now) course.now.layout.now
        (net_of course.now.plan.now) }
    requires region { region < course.now.layout.now.windows }
    requires stations { AreAtRest G.Stub.strand_of G.Stub.entered_of (L.meaning course.now.law.now)
        course.now.layout.now false region 0 stations.old }
    requires sections { AreAtRest G.Stub.strand_of G.Stub.entered_of (L.meaning course.now.law.now)
        course.now.layout.now true (region + 1) first sections.now }
    ensures stations { AreAtRest G.Stub.strand_of G.Stub.entered_of (L.meaning course.now.law.now)
        course.now.layout.now false (region + 1) 0 stations.new }
    ensures same { AreSameStrands stations.old stations.new }
{
    let turn = Turn {
        of_sections: false,
        region,
    };
    let beside = Half {
        first,
        strands: sections,
    };
    half_round(crew, course, turn, &beside, stations);
}

// One turn, side by side: each thread has a stretch of the strands.
fn half_round<R: Threads + Sync, L: Law, G: Gate + Sync>(
    crew: &Crew<R>,
    course: &Course<L, G>,
    turn: Turn,
    beside: &Half<G::Stub>,
    half: &mut [Strand<G::Stub>],
)
    requires course { IsCourse (L.meaning course.now.law.now) course.now.layout.now
        (net_of course.now.plan.now) }
    requires turn { turn.region < regions_of turn.of_sections course.now.layout.now.windows }
    requires beside { AreBeside G.Stub.strand_of G.Stub.entered_of (L.meaning course.now.law.now)
        course.now.layout.now turn.of_sections turn.region beside.now.first
        beside.now.strands.now }
    requires each { AreEachAtRest G.Stub.strand_of G.Stub.entered_of (L.meaning course.now.law.now)
        course.now.layout.now turn.of_sections turn.region half.old }
    ensures each { AreEachAtRest G.Stub.strand_of G.Stub.entered_of (L.meaning course.now.law.now)
        course.now.layout.now turn.of_sections (turn.region + 1) half.new }
    ensures same { AreSameStrands half.old half.new }
{
    let next = move |_: usize, strand: &mut Strand<G::Stub>|
        requires { IsCourse (L.meaning course.now.law.now) course.now.layout.now
            (net_of course.now.plan.now)
            × (turn.region < regions_of turn.of_sections course.now.layout.now.windows)
            × AreBeside G.Stub.strand_of G.Stub.entered_of (L.meaning course.now.law.now)
            course.now.layout.now turn.of_sections turn.region beside.now.first
            beside.now.strands.now
            × IsAtRest G.Stub.strand_of G.Stub.entered_of (L.meaning course.now.law.now)
            course.now.layout.now turn.of_sections turn.region strand.now }
        ensures { IsAtRest G.Stub.strand_of G.Stub.entered_of
            (L.meaning course.entry.now.law.now) course.entry.now.layout.now
            turn.of_sections (turn.region + 1) strand.exit.now
            × IsSameStrand strand.entry.now.frontier strand.exit.now.frontier }
    { advance(course, turn, beside, strand) };
    thread::for_each_mut(crew.rt, half, crew.threads, &next);
}
