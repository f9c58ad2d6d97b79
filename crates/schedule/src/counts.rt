//! What a plan counts: of each strand the regions entered and left.
ghost use Rattle.std.specs.Prelude.{◌≡◌, ◌<◌, ◌^◌};
ghost use Rattle.schedule.specs.Nets.{IsNet, needed_of, regions_of};
ghost use Rattle.schedule.specs.Rules.{IsSound};
ghost use Rattle.schedule.specs.Counted.{net_over, state_over, IsSized};

use crate::nets::{kinds_of, links_of};
use crate::{Event, Link};
use case_model::{List, Mesh};
use regions::Layout;
use std::alloc::{AllocError, Global};

/// Strands with their neighbours, and of each the counts of regions entered and left. Blocks
/// published and passed follow from the regions left.
#[derive(Drop, Debug)]
pub(crate) struct Counts {
    kinds: Vec<bool>,
    links: Vec<List<Link>>,
    windows: u64,
    slots: u64,
    entered: Vec<u64>,
    left: Vec<u64>,
    ghost sized: { IsSized kinds.items links.items windows entered.items left.items },
    ghost net: { IsNet (net_over kinds.items links.items windows slots) },
    ghost sound: { IsSound (net_over kinds.items links.items windows slots)
        (state_over (net_over kinds.items links.items windows slots) entered.items left.items) },
}

/// How many blocks of each side the first `count` regions of a strand need.
fn needed(section: bool, count: u64) -> u64
    ensures { result ≡ needed_of section count }
{
    if section {
        count.saturating_sub(1)
    } else {
        count
    }
}

/// How many regions a strand has.
fn regions(section: bool, windows: u64) -> u64
    requires { windows < 2 ^ 62 }
    ensures { result ≡ regions_of section windows }
{
    if section { windows + 1 } else { windows }
}

impl Counts {
    ghost use Rattle.std.specs.Prelude.{ℕ, ◌+◌, ◌*◌, ◌/◌, ◌≤◌, ◌↔◌, IsTrue, MatchOption, length};
    ghost use Rattle.std.specs.Prelude.{List as Items, Bool, IfOk};
    ghost use Rattle.regions.specs.LaidOut.{IsLaidOut};
    ghost use Rattle.regions.specs.Regions.{IsWhole};
    ghost use Rattle.regions.specs.Sides.{AreMutual};
    ghost use Rattle.schedule.specs.LayoutNets.{layout_net};
    ghost use Rattle.schedule.specs.Nets.{HasRegion, IsSameNet, needed as needed_blocks};
    ghost use Rattle.schedule.specs.States.{IsLawful, MayEnter, MayLeave, after, start};
    ghost use Rattle.schedule.specs.Order.{turn_of, turn_count, AreLeftOf, AreLeftBefore, IsUnleft};
    ghost use Rattle.schedule.specs.Order.{IsPlaced};
    ghost use Rattle.schedule.specs.Countings.{net_in, state_in, IsAt};

    /// The counts of a layout, all 0.
    pub(crate) fn make(
        alloc: Global,
        layout: &Layout,
        mesh: &Mesh,
        slots: u64,
    ) -> Result<Counts, AllocError>
        requires laid_out { IsLaidOut layout.now mesh.now }
        requires whole { IsWhole layout.now }
        requires mutual { AreMutual layout.now mesh.now }
        requires some { 1 ≤ slots }
        ensures net { IfOk result (λ counts.
            IsSameNet (layout_net layout.now mesh.now slots) (net_in counts)) }
        ensures state { IfOk result (λ counts. state_in counts ≡ start) }
    {
        let kinds = kinds_of(alloc, layout)?;
        let links = links_of(alloc, layout, mesh)?;
        let entered = vec![in alloc; 0; kinds.len()]?;
        let left = vec![in alloc; 0; kinds.len()]?;
        Ok(Counts {
            kinds,
            links,
            windows: layout.windows,
            slots,
            entered,
            left,
        })
    }

    /// Whether the event is lawful; not where the strand or the region isn't there.
    pub(crate) fn lawful(&self, event: &Event) -> bool
        ensures { IsTrue result ↔ IsLawful (net_in self.now) (state_in self.now) event.now }
    {
        match event {
            Event::Enter { strand, region } => self.may_enter(*strand, *region),
            Event::Leave { strand, region } => self.may_leave(*strand, *region),
        }
    }

    /// Takes in a lawful event.
    pub(crate) fn apply(&mut self, event: &Event)
        requires lawful { IsLawful (net_in self.old) (state_in self.old) event.now }
        ensures state { state_in self.new ≡ after (net_in self.old) (state_in self.old) event.now }
        ensures net { net_in self.new ≡ net_in self.old }
    {
        match event {
            Event::Enter { strand, region } => self.enter(*strand, *region),
            Event::Leave { strand, region } => self.leave(*strand, *region),
        }
    }

    /// How many strands there are.
    pub(crate) fn strands(&self) -> u32
        ensures { result ≡ (net_in self.now).strands }
    {
        self.kinds.len() as u32
    }

    /// How many windows there are.
    pub(crate) fn windows(&self) -> u64
        ensures value { result ≡ (net_in self.now).windows }
        ensures short { result < 2 ^ 62 }
    {
        self.windows
    }

    /// Whether the strand is a section.
    pub(crate) fn is_section(&self, strand: u32) -> bool
        requires { strand < (net_in self.now).strands }
        ensures { result ≡ (net_in self.now).is_section strand }
    {
        self.kinds[strand as usize]
    }

    /// How many regions of the strand are left.
    pub(crate) fn left(&self, strand: u32) -> u64
        requires { strand < (net_in self.now).strands }
        ensures { result ≡ (state_in self.now).left strand }
    {
        self.left[strand as usize]
    }

    fn may_enter(&self, strand: u32, region: u64) -> bool
        ensures { IsTrue result ↔ MayEnter (net_in self.now) (state_in self.now) strand region }
    {
        self.is_at(strand, region, region)
            && self.are_published(strand, region)
            && self.has_room(strand, region)
    }

    fn may_leave(&self, strand: u32, region: u64) -> bool
        ensures { IsTrue result ↔ MayLeave (net_in self.now) (state_in self.now) strand region }
    {
        region < u64::MAX && self.is_at(strand, region, region + 1)
    }

    /// Whether the strand has the region, has left all before it and has entered so many.
    fn is_at(&self, strand: u32, region: u64, entered: u64) -> bool
        ensures { IsTrue result ↔ IsAt self.now strand region entered }
    {
        let x = strand as usize;
        x < self.kinds.len()
            && region < regions(self.kinds[x], self.windows)
            && self.entered[x] == entered
            && self.left[x] == region
    }

    /// Whether all blocks that the region needs are published.
    fn are_published(&self, strand: u32, region: u64) -> bool
        requires { HasRegion (net_in self.now) strand region }
        ensures { IsTrue result ↔ ((j : ℕ) → j < (net_in self.now).sides strand →
            needed_blocks (net_in self.now) strand (region + 1)
            ≤ (state_in self.now).published ((net_in self.now).side strand j)) }
    {
        let wanted = needed(self.kinds[strand as usize], region + 1);
        for j in 0..self.sides(strand) {
            if self.published_by(strand, j) < wanted {
                return false;
            }
        }
        true
    }

    /// Whether the block that the region writes, if it writes one, has a slot.
    fn has_room(&self, strand: u32, region: u64) -> bool
        requires { HasRegion (net_in self.now) strand region }
        ensures { IsTrue result ↔ (region < (net_in self.now).windows →
            (j : ℕ) → j < (net_in self.now).sides strand →
            region < (state_in self.now).passed
            ((net_in self.now).side strand j) ((net_in self.now).back strand j)
            + (net_in self.now).slots) }
    {
        if region >= self.windows {
            return true;
        }
        for j in 0..self.sides(strand) {
            if region.saturating_sub(self.passed_by(strand, j)) >= self.slots {
                return false;
            }
        }
        true
    }

    /// How many neighbours a strand has.
    pub(crate) fn sides(&self, strand: u32) -> usize
        requires { strand < (net_in self.now).strands }
        ensures { result ≡ (net_in self.now).sides strand }
    {
        self.links[strand as usize].as_slice().len()
    }

    /// The neighbour at this index.
    pub(crate) fn link(&self, strand: u32, index: usize) -> Link
        requires strand { strand < (net_in self.now).strands }
        requires index { index < (net_in self.now).sides strand }
        ensures strand { result.strand ≡ (net_in self.now).side strand index }
        ensures back { result.back ≡ (net_in self.now).back strand index }
        ensures inside { result.strand < (net_in self.now).strands }
    {
        self.links[strand as usize].as_slice()[index]
    }

    /// How many blocks the neighbour at this index has published.
    fn published_by(&self, strand: u32, index: usize) -> u64
        requires strand { strand < (net_in self.now).strands }
        requires index { index < (net_in self.now).sides strand }
        ensures { result ≡ (state_in self.now).published ((net_in self.now).side strand index) }
    {
        let neighbour = self.link(strand, index).strand as usize;
        self.left[neighbour].min(self.windows)
    }

    /// How many blocks of this strand the neighbour at this index has passed.
    fn passed_by(&self, strand: u32, index: usize) -> u64
        requires strand { strand < (net_in self.now).strands }
        requires index { index < (net_in self.now).sides strand }
        ensures { result ≡ (state_in self.now).passed
            ((net_in self.now).side strand index) ((net_in self.now).back strand index) }
    {
        let neighbour = self.link(strand, index).strand as usize;
        needed(self.kinds[neighbour], self.left[neighbour])
    }

    fn enter(&mut self, strand: u32, region: u64)
        requires { MayEnter (net_in self.old) (state_in self.old) strand region }
        ensures state { state_in self.new
            ≡ after (net_in self.old) (state_in self.old) (Event.Enter strand region) }
        ensures net { net_in self.new ≡ net_in self.old }
    {
        self.entered[strand as usize] += 1;
    }

    fn leave(&mut self, strand: u32, region: u64)
        requires { MayLeave (net_in self.old) (state_in self.old) strand region }
        ensures state { state_in self.new
            ≡ after (net_in self.old) (state_in self.old) (Event.Leave strand region) }
        ensures net { net_in self.new ≡ net_in self.old }
    {
        self.left[strand as usize] += 1;
    }
}
