//! The numbers of strands.
ghost use Rattle.std.specs.Prelude.{◌≡◌, ◌+◌, ◌<◌, ◌≤◌, length};
ghost use Rattle.case_model.specs.Joints.{all_joints};
ghost use Rattle.regions.specs.Cuts.{IsLimited};
ghost use Rattle.regions.specs.Layouts.{sections_at, seams_before as seams_are};
ghost use Rattle.regions.specs.Layouts.{sections_before as sections_are};
ghost use Rattle.regions.specs.Layouts.{section_number as section_is, station_number as station_is};
ghost use Rattle.regions.specs.Numbers.{IsCutsOf, AreFew};

use crate::cuts::sections;
use case_model::{Mesh, PipeJoints};

/// The count of seams of the pipes before this one.
fn seams_before(mesh: &Mesh, window: u64, pipe: u32) -> u32
    requires limits { IsLimited mesh.now }
    requires inside { pipe ≤ length mesh.now.pipes }
    ensures { result ≡ seams_are mesh.now window pipe }
{
    let pipes = mesh.pipes.as_slice();
    let mut count = 0;
    for earlier in 0..pipe {
        count += sections(window, pipes[earlier as usize].reaches) - 1;
    }
    count
}

/// The count of sections of the pipes before this one.
fn sections_before(mesh: &Mesh, window: u64, pipe: u32) -> u32
    requires limits { IsLimited mesh.now }
    requires inside { pipe ≤ length mesh.now.pipes }
    ensures { result ≡ sections_are mesh.now window pipe }
{
    let pipes = mesh.pipes.as_slice();
    let mut count = 0;
    for earlier in 0..pipe {
        count += sections(window, pipes[earlier as usize].reaches);
    }
    count
}

/// The number of section `index` of a pipe.
#[tactic(auto, unfolding(crate::specs::Layouts::section_number))]
pub(crate) fn section_number(mesh: &Mesh, window: u64, pipe: u32, index: u32) -> u32
    requires limits { IsLimited mesh.now }
    requires inside { pipe < length mesh.now.pipes }
    requires index { index < sections_at mesh.now window pipe }
    ensures { result ≡ section_is mesh.now window pipe index }
{
    let nodes = mesh.ends.as_slice().len() as u32;
    let seams = seams_before(mesh, window, mesh.pipes.as_slice().len() as u32);
    nodes + seams + sections_before(mesh, window, pipe) + index
}

/// What stands at the cuts of a pipe, and between them.
#[derive(Clone, Copy)]
pub(crate) struct Cuts {
    /// The count of its sections.
    pub(crate) count: u32,
    /// The node at its place 0.
    first: u32,
    /// The node at its last place.
    last: u32,
    /// The number of its first seam.
    seam: u32,
    /// The number of its first section.
    section: u32,
}

/// The cuts of a pipe, whose ends stand there.
pub(crate) fn cuts_of(mesh: &Mesh, joints: &[PipeJoints], window: u64, pipe: u32) -> Cuts
    requires limits { IsLimited mesh.now }
    requires inside { pipe < length mesh.now.pipes }
    requires joints { joints.now ≡ all_joints mesh.now }
    ensures cuts { IsCutsOf mesh.now window pipe result }
    ensures few { AreFew result }
{
    let count = sections(window, mesh.pipes.as_slice()[pipe as usize].reaches);
    let ends = joints[pipe as usize];
    let first = ends.first.node as u32;
    let last = ends.last.node as u32;
    let seam = mesh.ends.as_slice().len() as u32 + seams_before(mesh, window, pipe);
    let section = section_number(mesh, window, pipe, 0);
    Cuts {
        count,
        first,
        last,
        seam,
        section,
    }
}

impl Cuts {
    ghost use Rattle.std.specs.Prelude.{ℕ};
    ghost use Rattle.case_model.specs.declared.meshes.Mesh.{Mesh as MeshSeen};

    /// The number of the station at a cut.
    pub(crate) fn station(&self, cut: u32) -> u32
        requires inside { cut ≤ self.now.count }
        requires few { AreFew self.now }
        ensures { (mesh : MeshSeen) (w p : ℕ) → IsCutsOf mesh w p self.now →
            result ≡ station_is mesh w p cut }
    {
        if cut == 0 {
            self.first
        } else if cut == self.count {
            self.last
        } else {
            self.seam + (cut - 1)
        }
    }

    /// The number of a section.
    pub(crate) fn section(&self, index: u32) -> u32
        requires inside { index < self.now.count }
        requires few { AreFew self.now }
        ensures { (mesh : MeshSeen) (w p : ℕ) → IsCutsOf mesh w p self.now →
            result ≡ section_is mesh w p index }
    {
        self.section + index
    }
}
