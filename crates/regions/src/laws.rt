//! What holds of every mesh of an accepted case and of its layouts. No function here does anything:
//! each contract is a law.
ghost use Rattle.std.specs.Prelude.{◌≡◌, ℕ, ◌+◌, ◌*◌, ◌<◌, ◌≤◌, max};
ghost use Rattle.case_model.specs.declared.cases.Case.{Case as CaseSeen};
ghost use Rattle.case_model.specs.declared.meshes.Mesh.{Mesh as MeshSeen};
ghost use Rattle.case_model.specs.Accepted.{IsAcceptedMesh};
ghost use Rattle.case_model.specs.Meaning.{Meaning};
ghost use Rattle.case_model.specs.Mesh.{IsMesh, IsNumbered};
ghost use Rattle.case_model.specs.Rows.{Row, node_ends};
ghost use Rattle.regions.specs.declared.shapes.Layout.{Layout as LayoutSeen};
ghost use Rattle.regions.specs.declared.shapes.Spot.{Spot as SpotSeen};
ghost use Rattle.regions.specs.declared.shapes.Spot.TheVariants.{AtNode};
ghost use Rattle.regions.specs.Blocks.{InSectionBlock, InStationBlock, section_point};
ghost use Rattle.regions.specs.Blocks.{station_point, section_index, station_index, AreInOrder};
ghost use Rattle.regions.specs.Blocks.{AreWritten};
ghost use Rattle.regions.specs.Cuts.{IsLimited, IsWindow, window_of, windows_of, sections};
ghost use Rattle.regions.specs.Cuts.{section_reaches, cut};
ghost use Rattle.regions.specs.LaidOut.{IsCutFor, IsLaidOut};
ghost use Rattle.regions.specs.Needs.{AreEnough, AgreeOnReads, AgreeAfter};
ghost use Rattle.regions.specs.Regions.{HasSpot, IsPartition, IsWhole};
ghost use Rattle.regions.specs.Sides.{IsWired, AreMutual, AreOrdered};
ghost use Rattle.regions.specs.Touching.{AreTouching};

/// The law of accepted meshes: rows can be computed in the mesh of a case that division accepts,
/// its places are numbered, all its counts are within their limits, each end of a pipe is found at
/// its node, and the ends of a node stand in order of pipes.
pub fn accepted_meshes_are_sound()
    ensures mesh { (mesh : MeshSeen) → IsAcceptedMesh mesh → IsMesh mesh }
    ensures numbered { (mesh : MeshSeen) → IsAcceptedMesh mesh → IsNumbered mesh }
    ensures limited { (mesh : MeshSeen) → IsAcceptedMesh mesh → IsLimited mesh }
    ensures wired { (mesh : MeshSeen) → IsAcceptedMesh mesh → IsWired mesh }
    ensures rising { (mesh : MeshSeen) → IsAcceptedMesh mesh → AreOrdered mesh }
{}

/// The law of layouts: a layout is a cut of the mesh of an accepted case, its window is the least
/// of the wish and of all counts of reaches, its windows hold all steps of its case, and no section
/// is shorter than a window.
pub fn layouts_are_sound()
    ensures mesh { (layout : LayoutSeen) (mesh : MeshSeen) →
        IsLaidOut layout mesh → IsAcceptedMesh mesh }
    ensures whole { (layout : LayoutSeen) (mesh : MeshSeen) →
        IsLaidOut layout mesh → IsWhole layout }
    ensures window { (case : CaseSeen) (layout : LayoutSeen) (mesh : MeshSeen) →
        (cut : IsCutFor case layout mesh) → IsWindow mesh cut.wish layout.window }
    ensures steps { (case : CaseSeen) (layout : LayoutSeen) (mesh : MeshSeen) →
        IsCutFor case layout mesh → case.steps ≤ layout.windows * layout.window }
    ensures last { (case : CaseSeen) (layout : LayoutSeen) (mesh : MeshSeen) →
        IsCutFor case layout mesh → layout.windows * layout.window < case.steps + layout.window }
{}

/// The law of cuts: a window is the least of the wish and of all counts of reaches, and the windows
/// are as few as hold all steps; a pipe's sections fill it, and each has at least as many reaches
/// as a window has steps, and at least 2.
pub fn cuts_follow_the_window()
    ensures window { (mesh : MeshSeen) (wish : ℕ) → IsWindow mesh wish (window_of mesh wish) }
    ensures steps { (w steps : ℕ) → 1 ≤ w → steps ≤ windows_of w steps * w }
    ensures last { (w steps : ℕ) → 1 ≤ w → windows_of w steps * w < steps + w }
    ensures filled { (w n : ℕ) → cut w n (sections w n) ≡ n }
    ensures each { (w n j : ℕ) → 2 ≤ n → w ≤ n → max 2 w ≤ section_reaches w n j }
    ensures even { (w n i j : ℕ) → i ≤ j →
        (section_reaches w n j ≤ section_reaches w n i)
        × (section_reaches w n i ≤ section_reaches w n j + 1) }
{}

/// The law of sides: neighbours are neighbours of one another.
pub fn sides_are_mutual()
    ensures { (layout : LayoutSeen) (mesh : MeshSeen) →
        IsLaidOut layout mesh → AreMutual layout mesh }
{}

/// The law of stations: each strand stands on the mesh, with room for a window's points, and the
/// sections beside a station begin or end at its place.
pub fn strands_touch()
    ensures { (layout : LayoutSeen) (mesh : MeshSeen) →
        IsLaidOut layout mesh → AreTouching layout mesh }
{}

/// The law of regions: each node and each place, at each step of the windows, lies in exactly one
/// region of one strand.
pub fn regions_are_a_partition()
    ensures { (layout : LayoutSeen) (mesh : MeshSeen) →
        IsLaidOut layout mesh → IsPartition layout mesh }
{}

/// The law of blocks: the points of a block are those of its set, each once, in order, and they lie
/// in the regions of the strand that writes it.
pub fn blocks_are_in_order()
    ensures section { (w : ℕ) → AreInOrder w (InSectionBlock w) section_point section_index }
    ensures station { (w : ℕ) →
        AreInOrder w (InStationBlock w) (station_point w) (station_index w) }
    ensures written { (layout : LayoutSeen) (mesh : MeshSeen) →
        IsLaidOut layout mesh → AreWritten layout mesh }
{}

/// The law of needs: all that the laws of a region's points read lies at step 0, in this or an
/// earlier region of the strand, or in a block that the region needs.
pub fn needs_are_enough()
    ensures { (layout : LayoutSeen) (mesh : MeshSeen) →
        IsLaidOut layout mesh → AreEnough layout mesh }
{}

/// The law of dependence: whatever the hydraulic law, two rows that agree on all that is read for a
/// spot agree at that spot one step later, and for a node at all its pipe ends. What is read for a
/// pipe end is what is read for its node.
pub fn reads_are_all()
    ensures spots { (law : Meaning) (s : ℕ) (one other : Row) (spot : SpotSeen) →
        HasSpot law.mesh spot → AgreeOnReads law.mesh one other spot →
        AgreeAfter law s one other spot }
    ensures ends { (law : Meaning) (s k : ℕ) (one other : Row) →
        AgreeOnReads law.mesh one other (AtNode k) →
        node_ends law s one k ≡ node_ends law s other k }
{}
