//! Rows of meshes: neighbours, regions and blocks of strands, and plans.
ghost use Rattle.std.specs.Prelude.{◌≤◌, ◌<◌, IfOk, length};
ghost use Rattle.case_model.specs.Accepted.{IsAccepted};
ghost use Rattle.regions.specs.LaidOut.{IsLaidOut, IsLayout};

use case_model::{Case, Mesh};
use netfile::read_case;
use regions::{Layout, Spot, WIDEST_WINDOW, layout};
use schedule::{Event, MOST_SLOTS, Plan};
use std::alloc::{AllocError, Global};
use std::test::Fail;

// A pipe of 7 reaches.
const SEVEN: &[u8] =
    b"surge 1\nstep 0.1\nsteps 6\nreservoir A 0 100\nreservoir B 0 100\npipe P A B 700 1 1000 0 0\n";

// A short pipe of 2 reaches and a long one of 40 at a middle node.
const CHAIN: &[u8] =
    b"surge 1\nstep 0.1\nsteps 10\nreservoir A 0 100\njunction J 0 0 100\nreservoir B 0 100\npipe P A J 200 1 1000 0 0\npipe Q J B 4000 1 1000 0 0\n";

// 20 reaches and 4,000 steps.
const MANY: &[u8] =
    b"surge 1\nstep 0.1\nsteps 4000\nreservoir A 0 100\nreservoir B 0 100\npipe P A B 2000 1 1000 0 0\n";

// The case of an accepted text, and its mesh.
fn case_in(alloc: Global, text: &[u8]) -> Result<(Case, Mesh), AllocError>
    ensures { IfOk result (λ r. IsAccepted r.0 r.1) }
{
    match read_case(alloc, text) {
        Ok(read) => Ok(read),
        Err(_) => Err(AllocError),
    }
}

// The mesh of an accepted text, and its layout.
fn cut(alloc: Global, text: &[u8], wish: u64) -> Result<(Mesh, Layout), AllocError>
    requires some { 1 ≤ wish }
    requires few { wish ≤ WIDEST_WINDOW }
    ensures { IfOk result (λ r. IsLaidOut r.1 r.0) }
{
    let (case, mesh) = case_in(alloc, text)?;
    let layout = layout(alloc, &case, &mesh, wish)?;
    Ok((mesh, layout))
}

// The neighbour of a strand at an index and the index back, where there is one.
fn neighbour(layout: &Layout, mesh: &Mesh, strand: u32, index: u32) -> Option<(u32, u32)>
    requires { IsLaidOut layout.now mesh.now }
{
    if (strand as usize) < layout.shapes.as_slice().len() && index < layout.sides(mesh, strand) {
        Some((
            layout.side(mesh, strand, index),
            layout.back(mesh, strand, index),
        ))
    } else {
        None
    }
}

// By hand: nodes 0 to 2, seams 3 to 21, the short pipe's section 22, the long one's 23 to 42.
#[test]
fn neighbours_by_hand(rt: HostRuntime) -> Result<(), Fail> {
    let (mesh, layout) = cut(rt.alloc(), CHAIN, 64)?;
    for (strand, index, want) in [
        (0, 0, Some((22, 0))),
        (0, 1, None),
        (1, 0, Some((22, 1))),
        (1, 1, Some((23, 0))),
        (2, 0, Some((42, 1))),
        (3, 0, Some((23, 1))),
        (3, 1, Some((24, 0))),
        (21, 1, Some((42, 0))),
        (22, 0, Some((0, 0))),
        (22, 1, Some((1, 0))),
        (23, 0, Some((1, 1))),
        (23, 1, Some((3, 0))),
        (42, 1, Some((2, 0))),
        (42, 2, None),
        (43, 0, None),
    ] {
        assert_eq!(&rt; neighbour(&layout, &mesh, strand, index), want);
    }
    Ok(())
}

// How many points of the places 0 to 7 at the steps 1 to 8 are in this region of a strand.
fn points_in(layout: &Layout, strand: u32, region: u64) -> u64
    requires layout { IsLayout layout.now }
    requires inside { strand < length layout.now.shapes }
{
    let mut count = 0u64;
    for point in 0..64u32 {
        let spot = Spot::Inside {
            pipe: 0,
            place: point / 8,
        };
        if layout.in_region(strand, region, &spot, (point % 8) as u64 + 1) {
            count = count.saturating_add(1);
        }
    }
    count
}

fn block(layout: &Layout, strand: u32, index: u64) -> Option<(u64, u64)> {
    if (strand as usize) < layout.shapes.as_slice().len() && index < layout.window {
        Some(layout.block_point(strand, 0, index))
    } else {
        None
    }
}

// By hand: a window of 4 steps and a section of 7 reaches.
#[test]
fn a_section_by_hand(rt: HostRuntime) -> Result<(), Fail> {
    let (_, layout) = cut(rt.alloc(), SEVEN, 4)?;
    let count = layout.shapes.as_slice().len();
    assert!(&rt; count == 3);
    for (strand, region, points) in [(2, 0, 12), (2, 1, 20), (0, 0, 6), (1, 1, 6)] {
        assert!(&rt; (strand as usize) < count);
        assert_eq!(&rt; points_in(&layout, strand, region), points);
    }
    let section = [(1, 0), (1, 1), (2, 1), (2, 2)];
    let station = [(0, 3), (0, 4), (1, 2), (1, 3)];
    for index in 0..4usize {
        assert_eq!(&rt; block(&layout, 2, index as u64), Some(section[index]));
        assert_eq!(&rt; block(&layout, 1, index as u64), Some(station[index]));
    }
    Ok(())
}

// The plan of an accepted text.
fn plan(alloc: Global, text: &[u8], wish: u64, slots: u64) -> Result<Plan, AllocError>
    requires some { 1 ≤ wish }
    requires few { wish ≤ WIDEST_WINDOW }
    requires some_slots { 1 ≤ slots }
    requires few_slots { slots ≤ MOST_SLOTS }
{
    let (mesh, layout) = cut(alloc, text, wish)?;
    Plan::make(alloc, &layout, &mesh, slots)
}

fn enter(strand: u32, region: u64) -> Event {
    Event::Enter { strand, region }
}

fn leave(strand: u32, region: u64) -> Event {
    Event::Leave { strand, region }
}

// Whether the event is lawful; where it is, it is taken in.
fn took(plan: &mut Plan, event: &Event) -> bool {
    let lawful = plan.lawful(event);
    if lawful {
        plan.apply(event);
    }
    lawful
}

// Enters and leaves the next region, and answers it.
fn step(plan: &mut Plan) -> Option<(u32, u64)> {
    let (strand, region) = plan.next_ready()?;
    if took(plan, &enter(strand, region)) && took(plan, &leave(strand, region)) {
        Some((strand, region))
    } else {
        None
    }
}

// By hand: sections before stations in each region number; nodes have the regions 0 and 1, and the
// section 0 to 2.
#[test]
fn one_section_goes_before_its_nodes(rt: HostRuntime) -> Result<(), Fail> {
    let mut plan = plan(rt.alloc(), SEVEN, 4, 1)?;
    for region in [(2, 0), (0, 0), (1, 0), (2, 1), (0, 1), (1, 1), (2, 2)] {
        assert_eq!(&rt; plan.next_ready(), Some(region));
        assert_eq!(&rt; step(&mut plan), Some(region));
    }
    assert_eq!(&rt; plan.next_ready(), None);
    for event in [
        enter(0, 2),
        enter(2, 3),
        enter(3, 0),
        leave(3, 0),
        leave(2, u64::MAX),
    ] {
        assert!(&rt; !plan.lawful(&event));
    }
    Ok(())
}

// By hand: a station needs the section's block; with one slot the section waits for both stations.
#[test]
fn blocks_and_slots_are_waited_for(rt: HostRuntime) -> Result<(), Fail> {
    let mut plan = plan(rt.alloc(), SEVEN, 4, 1)?;
    for (event, lawful) in [
        (enter(0, 0), false),
        (leave(2, 0), false),
        (enter(2, 0), true),
        (enter(2, 0), false),
        (enter(0, 0), false),
        (leave(2, 0), true),
        (leave(2, 0), false),
        (enter(0, 0), true),
        (leave(0, 0), true),
        (enter(2, 1), false),
        (enter(0, 1), false),
        (enter(1, 0), true),
        (leave(1, 0), true),
        (enter(2, 1), true),
    ] {
        assert_eq!(&rt; took(&mut plan, &event), lawful);
    }
    Ok(())
}

// By hand: two nodes, 9 seams and 10 sections; 2,000 windows make 2,000*11 + 2,001*10 regions.
#[test]
fn long_plan_comes_to_its_end(rt: HostRuntime) -> Result<(), Fail> {
    let mut plan = plan(rt.alloc(), MANY, 2, 2)?;
    for _ in 0..42_010 {
        assert!(&rt; step(&mut plan).is_some());
    }
    assert_eq!(&rt; plan.next_ready(), None);
    Ok(())
}
