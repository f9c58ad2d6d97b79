//! The schedule of all regions of a layout.
ghost use Rattle.schedule.specs.Countings.{net_in, state_in};
ghost use Rattle.schedule.specs.Order.{IsPlaced};

use crate::counts::Counts;
use crate::order::{Place, next_unleft};
use crate::{Event, Link};
use case_model::Mesh;
use regions::Layout;
use std::alloc::{AllocError, Global};

/// The most slots for the blocks of a strand.
pub const MOST_SLOTS: u64 = 8;

/// The schedule of all regions of a layout, and how far it has come. Only `make` takes memory.
#[derive(Drop, Debug)]
pub struct Plan {
    counts: Counts,
    place: Place,
    ghost placed: { IsPlaced (net_in counts) (state_in counts) place.turn place.strand },
}

impl Plan {
    ghost use Rattle.std.specs.Prelude.{◌≡◌, ◌<◌, ◌≤◌, ◌⊎◌, ◌↔◌, IsTrue, IfSome, IfNone, IfOk};
    ghost use Rattle.std.specs.Prelude.{None};
    ghost use Rattle.regions.specs.LaidOut.{IsLaidOut};
    ghost use Rattle.schedule.specs.LayoutNets.{layout_net};
    ghost use Rattle.schedule.specs.Nets.{IsNet, IsSameNet};
    ghost use Rattle.schedule.specs.States.{IsLawful, MayEnter, MayLeave, after, start};
    ghost use Rattle.schedule.specs.Order.{IsLeast, AreAllLeft};
    ghost use Rattle.schedule.specs.Plans.{net_of, state_of};

    /// The schedule of the layout of a mesh, of which nothing is entered, over so many slots for
    /// the blocks of each strand. The error is want of memory.
    pub fn make(alloc: Global, layout: &Layout, mesh: &Mesh, slots: u64) -> Result<Plan, AllocError>
        requires laid_out { IsLaidOut layout.now mesh.now }
        requires some { 1 ≤ slots }
        requires few { slots ≤ MOST_SLOTS }
        ensures net { IfOk result (λ plan.
            IsSameNet (layout_net layout.now mesh.now slots) (net_of plan)) }
        ensures mutual { IfOk result (λ plan. IsNet (net_of plan)) }
        ensures state { IfOk result (λ plan. state_of plan ≡ start) }
    {
        let counts = Counts::make(alloc, layout, mesh, slots)?;
        let place = next_unleft(&counts, Place { turn: 0, strand: 0 });
        Ok(Plan { counts, place })
    }

    /// How many neighbours a strand has.
    pub fn sides(&self, strand: u32) -> usize
        requires { strand < (net_of self.now).strands }
        ensures { result ≡ (net_of self.now).sides strand }
    {
        self.counts.sides(strand)
    }

    /// The neighbour of a strand at this index, and the index at which that neighbour has the
    /// strand.
    pub fn link(&self, strand: u32, index: usize) -> Link
        requires strand { strand < (net_of self.now).strands }
        requires index { index < (net_of self.now).sides strand }
        ensures strand { result.strand ≡ (net_of self.now).side strand index }
        ensures back { result.back ≡ (net_of self.now).back strand index }
    {
        self.counts.link(strand, index)
    }

    /// Whether the event is lawful now; not where its strand or its region isn't there.
    pub fn lawful(&self, event: &Event) -> bool
        ensures { IsTrue result ↔ IsLawful (net_of self.now) (state_of self.now) event.now }
    {
        self.counts.lawful(event)
    }

    /// Takes in a lawful event.
    pub fn apply(&mut self, event: &Event)
        requires lawful { IsLawful (net_of self.old) (state_of self.old) event.now }
        ensures state { state_of self.new ≡ after (net_of self.old) (state_of self.old) event.now }
        ensures net { net_of self.new ≡ net_of self.old }
    {
        self.counts.apply(event);
        self.place = next_unleft(&self.counts, self.place);
    }

    /// The least region that isn't left, by region number, sections before stations, then by strand
    /// number: the strand and the region. It may be entered, or it is entered and may be left. None
    /// where all regions are left.
    pub fn next_ready(&self) -> Option<(u32, u64)>
        ensures least { IfSome result (λ r. IsLeast (net_of self.now) (state_of self.now) r.0 r.1) }
        ensures ready { IfSome result (λ r. MayEnter (net_of self.now) (state_of self.now) r.0 r.1
            ⊎ MayLeave (net_of self.now) (state_of self.now) r.0 r.1) }
        ensures done { IfNone result (AreAllLeft (net_of self.now) (state_of self.now)) }
        ensures all_left { AreAllLeft (net_of self.now) (state_of self.now) → result ≡ None }
    {
        if self.place.turn == 2 * self.counts.windows() + 1 {
            return None;
        }
        Some((self.place.strand, self.place.turn / 2))
    }
}
