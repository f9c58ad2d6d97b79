//! What every lawful list of events keeps, over any net, and which layouts can be planned. No
//! function here does anything: each contract is a law.
ghost use Rattle.std.specs.Prelude.{◌≡◌, ℕ, ◌≤◌, List, ◌++◌};
ghost use Rattle.case_model.specs.declared.meshes.Mesh.{Mesh as MeshSeen};
ghost use Rattle.regions.specs.declared.shapes.Layout.{Layout as LayoutSeen};
ghost use Rattle.regions.specs.LaidOut.{IsLaidOut};
ghost use Rattle.schedule.specs.LayoutNets.{layout_net};
ghost use Rattle.schedule.specs.declared.events.Event.{Event};
ghost use Rattle.schedule.specs.Nets.{Net, IsNet};
ghost use Rattle.schedule.specs.States.{State, run, AreLawful};
ghost use Rattle.schedule.specs.Rules.{KeepsOrder, KeepsSlots, KeepsCounts, IsAlwaysReady};
ghost use Rattle.schedule.specs.Rules.{IsNeverStuck, StaysLawful};

/// Each strand's regions are entered, and left, each once at most and in order.
pub fn lists_keep_order()
    ensures { KeepsOrder }
{}

/// Of each strand and side, published less passed is 0 to the count of slots; a block's slot is
/// free while it is written, and holds it until its reader leaves.
pub fn lists_keep_slots()
    ensures { KeepsSlots }
{}

/// Each strand has at most one region entered and not left; published and passed are the blocks of
/// the regions left; and what an entered region needs is published.
pub fn lists_keep_counts()
    ensures { KeepsCounts }
{}

/// The least region that isn't left may be entered, or it is entered and may be left.
pub fn least_is_ready()
    ensures { IsAlwaysReady }
{}

/// Until all regions are left, some event is lawful.
pub fn never_stuck()
    ensures { IsNeverStuck }
{}

/// What is lawful for a strand stays so while events of other strands are taken in.
pub fn lawful_stays_lawful()
    ensures { StaysLawful }
{}

/// A list is lawful exactly where its front is and, from the state that this leaves, the rest.
pub fn lists_are_joined()
    ensures state { (net : Net) (state : State) (front rest : List Event) →
        run net state (front ++ rest) ≡ run net (run net state front) rest }
    ensures lawful { (net : Net) (state : State) (front rest : List Event) →
        AreLawful net state front → AreLawful net (run net state front) rest →
        AreLawful net state (front ++ rest) }
    ensures front { (net : Net) (state : State) (front rest : List Event) →
        AreLawful net state (front ++ rest) → AreLawful net state front }
    ensures rest { (net : Net) (state : State) (front rest : List Event) →
        AreLawful net state (front ++ rest) → AreLawful net (run net state front) rest }
{}

/// Strands, sides and windows of a layout are a net, over any count of slots.
pub fn layouts_make_nets()
    ensures { (layout : LayoutSeen) (mesh : MeshSeen) (slots : ℕ) →
        IsLaidOut layout mesh → 1 ≤ slots → IsNet (layout_net layout mesh slots) }
{}
