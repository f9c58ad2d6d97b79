//! The laws of a layout, gathered.
ghost use Rattle.case_model.specs.declared.meshes.Mesh.{Mesh as MeshSeen};
ghost use Rattle.regions.specs.declared.shapes.Layout.{Layout as LayoutSeen};
ghost use Rattle.regions.specs.LaidOut.{IsLaidOut};
ghost use Rattle.regionrun.specs.Lawful.{IsLawful};

use envelope::numbers_tell_places;
use regions::{
    accepted_meshes_are_sound, blocks_are_in_order, layouts_are_sound, needs_are_enough,
    regions_are_a_partition, sides_are_mutual, strands_touch,
};

/// The law of lawful layouts: a layout of the mesh of an accepted case obeys all laws of layouts.
pub fn layouts_are_lawful()
    ensures { (layout : LayoutSeen) (mesh : MeshSeen) →
        IsLaidOut layout mesh → IsLawful layout mesh }
{
    accepted_meshes_are_sound();
    layouts_are_sound();
    sides_are_mutual();
    strands_touch();
    regions_are_a_partition();
    blocks_are_in_order();
    needs_are_enough();
    numbers_tell_places();
}
