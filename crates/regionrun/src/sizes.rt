//! How large layouts are at most.
ghost use Rattle.std.specs.Prelude.{ℕ, ◌<◌, ◌≤◌, length};
ghost use Rattle.regionrun.specs.Lawful.{IsLawful};
ghost use Rattle.regions.specs.LaidOut.{IsLaidOut};
ghost use Rattle.regions.specs.Regions.{IsWhole};
ghost use Rattle.regions.specs.Sides.{sides_of};

use crate::lawful::layouts_are_lawful;
use case_model::{MOST_ENDS, Mesh};
use regions::Layout;

/// What every layout has.
pub(crate) fn sizes(layout: &Layout, mesh: &Mesh)
    requires { IsLaidOut layout.now mesh.now }
    ensures lawful { IsLawful layout.now mesh.now }
    ensures whole { IsWhole layout.now }
    ensures few { (x : ℕ) → x < length layout.now.shapes →
        sides_of layout.now mesh.now x ≤ MOST_ENDS }
{
    let _ = layout;
    let _ = mesh;
    layouts_are_lawful();
}
