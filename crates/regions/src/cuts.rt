//! How pipes are cut into sections, and time into windows.
ghost use Rattle.std.specs.Prelude.{◌≡◌, ◌+◌, ◌<◌, ◌≤◌};
ghost use Rattle.regions.specs.Cuts.{IsWindow, window_of, windows_of, cut};
ghost use Rattle.regions.specs.Cuts.{sections as sections_are, section_reaches as reaches_are};

use crate::WIDEST_WINDOW;
use case_model::Mesh;

/// How many steps a window has: the least of the wish and the counts of reaches of all pipes.
#[tactic(auto, unfolding(crate::specs::Cuts::window_of))]
pub(crate) fn window(mesh: &Mesh, wish: u64) -> u64
    ensures window { result ≡ window_of mesh.now wish }
    ensures least { IsWindow mesh.now wish result }
{
    let mut window = wish;
    for pipe in mesh.pipes.as_slice() {
        window = window.min(pipe.reaches as u64);
    }
    window
}

/// How many windows hold these steps.
#[tactic(auto, unfolding(crate::specs::Cuts::windows_of))]
pub(crate) fn windows(window: u64, steps: u64) -> u64
    requires some { 0 < window }
    requires few { window ≤ WIDEST_WINDOW }
    requires steps { steps ≤ 100_000_000 }
    ensures { result ≡ windows_of window steps }
{
    (steps + (window - 1)) / window
}

/// How many sections a pipe of so many reaches has.
#[tactic(auto, unfolding(crate::specs::Cuts::sections))]
pub(crate) fn sections(window: u64, reaches: u32) -> u32
    ensures count { result ≡ sections_are window reaches }
    ensures some { 1 ≤ result }
{
    (reaches as u64 / window.max(2)).max(1) as u32
}

/// How many reaches section `index` of such a pipe has.
#[tactic(auto, unfolding(crate::specs::Cuts::section_reaches))]
pub(crate) fn section_reaches(window: u64, reaches: u32, index: u32) -> u32
    requires { 2 ≤ reaches }
    ensures { result ≡ reaches_are window reaches index }
{
    let count = sections(window, reaches);
    let extra = if index < reaches % count { 1 } else { 0 };
    reaches / count + extra
}

/// The place where the next section begins, of the place where section `index` of such a pipe
/// begins.
pub(crate) fn next_cut(window: u64, reaches: u32, index: u32, place: u32) -> u32
    requires two { 2 ≤ reaches }
    requires index { index < sections_are window reaches }
    requires place { place ≡ cut window reaches index }
    ensures { result ≡ cut window reaches (index + 1) }
{
    place + section_reaches(window, reaches, index)
}
