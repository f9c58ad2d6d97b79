//! All regions of all strands on one thread.
ghost use Rattle.std.specs.Prelude.{◌≡◌, ◌+◌, ◌<◌, ◌≤◌, IfOk, false, true};
ghost use Rattle.case_model.specs.Meaning.{Meaning};
ghost use Rattle.regionrun.specs.Engine.{AreAt, AreAtRest, AreBeside, AreEachAtRest};
ghost use Rattle.regionrun.specs.Engine.{AreSameFolds, AreSameStrands, IsCourse, none};
ghost use Rattle.regionrun.specs.Right.{region_count};
ghost use Rattle.regions.specs.LaidOut.{IsLaidOut};
ghost use Rattle.schedule.specs.Nets.{regions_of};
ghost use Rattle.schedule.specs.Plans.{net_of};

use crate::Gate;
use crate::one_strand::Strand;
use crate::sizes::sizes;
use crate::turns::{Course, Half, Turn, advance, station_count};
use case_model::{Law, Mesh};
use regions::Layout;
use schedule::Plan;
use std::alloc::{AllocError, Global};

/// Computes all regions of all strands of a layout: in turn the regions of each number, of the
/// sections and then of the stations, each in order of strands. All memory is taken before the
/// first region; the error is want of it.
pub fn run_serial<L: Law, G: Gate>(
    alloc: Global,
    law: &L,
    layout: &Layout,
    mesh: &Mesh,
    mut strands: Vec<Strand<G::Stub>>,
    gate: &G,
) -> Result<Vec<Strand<G::Stub>>, AllocError>
    requires mesh { mesh.now ≡ (L.meaning law.now).mesh }
    requires laid_out { IsLaidOut layout.now mesh.now }
    requires strands { AreAt G.Stub.strand_of G.Stub.entered_of (L.meaning law.now) layout.now none
        strands.items }
    ensures done { IfOk result (λ done. AreAt G.Stub.strand_of G.Stub.entered_of
        (L.meaning law.now) layout.now (region_count layout.now) done.items) }
    ensures folds { IfOk result (λ done. AreSameFolds strands.items done.items) }
{
    sizes(layout, mesh);
    let plan = Plan::make(alloc, layout, mesh, 1)?;
    let course = Course {
        law,
        layout,
        plan: &plan,
        gate,
    };
    run_turns(&course, &mut strands);
    Ok(strands)
}

/// All turns, one after another. Takes no memory.
pub(crate) fn run_turns<L: Law, G: Gate>(course: &Course<L, G>, strands: &mut [Strand<G::Stub>])
    requires course { IsCourse (L.meaning course.now.law.now) course.now.layout.now
        (net_of course.now.plan.now) }
    requires few { course.now.layout.now.windows ≤ 100_000_000 }
    requires strands { AreAt G.Stub.strand_of G.Stub.entered_of (L.meaning course.now.law.now)
        course.now.layout.now none strands.old }
    ensures done { AreAt G.Stub.strand_of G.Stub.entered_of (L.meaning course.now.law.now)
        course.now.layout.now (region_count course.now.layout.now) strands.new }
    ensures folds { AreSameFolds strands.old strands.new }
{
    let first = station_count(course.layout);
    let (stations, sections) = strands.split_at_mut(first);
    run_halves(course, first, stations, sections);
}

// All turns of the stations and of the sections.
fn run_halves<L: Law, G: Gate>(
    course: &Course<L, G>,
    first: usize,
    stations: &mut [Strand<G::Stub>],
    sections: &mut [Strand<G::Stub>],
)
    requires course { IsCourse (L.meaning course.now.law.now) course.now.layout.now
        (net_of course.now.plan.now) }
    requires few { course.now.layout.now.windows ≤ 100_000_000 }
    requires stations { AreAtRest G.Stub.strand_of G.Stub.entered_of (L.meaning course.now.law.now)
        course.now.layout.now false 0 0 stations.old }
    requires sections { AreAtRest G.Stub.strand_of G.Stub.entered_of (L.meaning course.now.law.now)
        course.now.layout.now true 0 first sections.old }
    ensures stations { AreAtRest G.Stub.strand_of G.Stub.entered_of (L.meaning course.now.law.now)
        course.now.layout.now false course.now.layout.now.windows 0 stations.new }
    ensures sections { AreAtRest G.Stub.strand_of G.Stub.entered_of (L.meaning course.now.law.now)
        course.now.layout.now true (course.now.layout.now.windows + 1) first sections.new }
    ensures same_stations { AreSameStrands stations.old stations.new }
    ensures same_sections { AreSameStrands sections.old sections.new }
{
    for region in 0..course.layout.windows {
        round(course, region, first, stations, sections);
    }
    turn_of_sections(course, course.layout.windows, first, stations, sections);
}

// The regions of one number of all sections, and then of all stations.
fn round<L: Law, G: Gate>(
    course: &Course<L, G>,
    region: u64,
    first: usize,
    stations: &mut [Strand<G::Stub>],
    sections: &mut [Strand<G::Stub>],
)
    requires course { IsCourse (L.meaning course.now.law.now) course.now.layout.now
        (net_of course.now.plan.now) }
    requires region { region < course.now.layout.now.windows }
    requires stations { AreAtRest G.Stub.strand_of G.Stub.entered_of (L.meaning course.now.law.now)
        course.now.layout.now false region 0 stations.old }
    requires sections { AreAtRest G.Stub.strand_of G.Stub.entered_of (L.meaning course.now.law.now)
        course.now.layout.now true region first sections.old }
    ensures stations { AreAtRest G.Stub.strand_of G.Stub.entered_of (L.meaning course.now.law.now)
        course.now.layout.now false (region + 1) 0 stations.new }
    ensures sections { AreAtRest G.Stub.strand_of G.Stub.entered_of (L.meaning course.now.law.now)
        course.now.layout.now true (region + 1) first sections.new }
    ensures same_stations { AreSameStrands stations.old stations.new }
    ensures same_sections { AreSameStrands sections.old sections.new }
{
    turn_of_sections(course, region, first, stations, sections);
    turn_of_stations(course, region, first, stations, sections);
}

// The regions of one number of all sections.
fn turn_of_sections<L: Law, G: Gate>(
    course: &Course<L, G>,
    region: u64,
    first: usize,
    stations: &[Strand<G::Stub>],
    sections: &mut [Strand<G::Stub>],
)
    requires course { IsCourse (L.meaning course.now.law.now) course.now.layout.now
        (net_of course.now.plan.now) }
    requires region { region ≤ course.now.layout.now.windows }
    requires stations { AreAtRest G.Stub.strand_of G.Stub.entered_of (L.meaning course.now.law.now)
        course.now.layout.now false region 0 stations.now }
    requires sections { AreAtRest G.Stub.strand_of G.Stub.entered_of (L.meaning course.now.law.now)
        course.now.layout.now true region first sections.old }
    ensures sections { AreAtRest G.Stub.strand_of G.Stub.entered_of (L.meaning course.now.law.now)
        course.now.layout.now true (region + 1) first sections.new }
    ensures same { AreSameStrands sections.old sections.new }
{
    let _ = first;
    let turn = Turn {
        of_sections: true,
        region,
    };
    let beside = Half {
        first: 0,
        strands: stations,
    };
    half_round(course, turn, &beside, sections);
}

// The regions of one number of all stations.
fn turn_of_stations<L: Law, G: Gate>(
    course: &Course<L, G>,
    region: u64,
    first: usize,
    stations: &mut [Strand<G::Stub>],
    sections: &[Strand<G::Stub>],
)
    requires course { IsCourse (L.meaning course.now.law.now) course.now.layout.now
        (net_of course.now.plan.now) }
    requires region { region < course.now.layout.now.windows }
    requires stations { AreAtRest G.Stub.strand_of G.Stub.entered_of (L.meaning course.now.law.now)
        course.now.layout.now false region 0 stations.old }
    requires sections { AreAtRest G.Stub.strand_of G.Stub.entered_of (L.meaning course.now.law.now)
        course.now.layout.now true (region + 1) first sections.now }
    ensures stations { AreAtRest G.Stub.strand_of G.Stub.entered_of (L.meaning course.now.law.now)
        course.now.layout.now false (region + 1) 0 stations.new }
    ensures same { AreSameStrands stations.old stations.new }
{
    let turn = Turn {
        of_sections: false,
        region,
    };
    let beside = Half {
        first,
        strands: sections,
    };
    half_round(course, turn, &beside, stations);
}

// One turn, in order of strands.
fn half_round<L: Law, G: Gate>(
    course: &Course<L, G>,
    turn: Turn,
    beside: &Half<G::Stub>,
    half: &mut [Strand<G::Stub>],
)
    requires course { IsCourse (L.meaning course.now.law.now) course.now.layout.now
        (net_of course.now.plan.now) }
    requires turn { turn.region < regions_of turn.of_sections course.now.layout.now.windows }
    requires beside { AreBeside G.Stub.strand_of G.Stub.entered_of (L.meaning course.now.law.now)
        course.now.layout.now turn.of_sections turn.region beside.now.first
        beside.now.strands.now }
    requires each { AreEachAtRest G.Stub.strand_of G.Stub.entered_of (L.meaning course.now.law.now)
        course.now.layout.now turn.of_sections turn.region half.old }
    ensures each { AreEachAtRest G.Stub.strand_of G.Stub.entered_of (L.meaning course.now.law.now)
        course.now.layout.now turn.of_sections (turn.region + 1) half.new }
    ensures same { AreSameStrands half.old half.new }
{
    for x in 0..half.len() {
        advance(course, turn, beside, &mut half[x]);
    }
}
