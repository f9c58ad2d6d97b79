//! The parts of space and time in a section.
ghost use Rattle.std.specs.Prelude.{◌≡◌, ◌<◌, ◌≤◌, ◌↔◌, IsTrue};
ghost use Rattle.regions.specs.Regions.{InStation, InSection, part_of as part_is};

use crate::WIDEST_WINDOW;

/// Which part of space and time has a place of a section at a step.
#[derive(Clone, Copy)]
pub(crate) enum Part {
    /// The section's own region of this number.
    Own(u64),
    /// The left station's region of this number.
    Left(u64),
    /// The right station's region of this number.
    Right(u64),
}

/// Whether a point at this distance from a station is in the station's region.
pub(crate) fn in_station(window: u64, region: u64, distance: u32, step: u64) -> bool
    requires window { window ≤ WIDEST_WINDOW }
    requires region { region ≤ 100_000_000 }
    ensures { IsTrue result ↔ InStation window region distance step }
{
    let start = region * window;
    let end = start + window;
    start + (distance as u64) < step && step <= end && distance as u64 <= end - step
}

/// The part that has a place of a section, of so many reaches, at a step.
#[tactic(auto, unfolding(crate::specs::Regions::part_of, crate::specs::Regions::part_from))]
pub(crate) fn part_of(window: u64, reaches: u32, place: u32, step: u64) -> Part
    requires window { 0 < window }
    requires few { window ≤ WIDEST_WINDOW }
    requires inside { place ≤ reaches }
    ensures { result ≡ part_is window reaches place step }
{
    let height = place.min(reaches - place) as u64;
    if step <= height {
        return Part::Own(0);
    }
    let number = (step - height - 1) / window;
    let rest = (step - height - 1) % window;
    if 2 * height + rest >= window {
        Part::Own(number + 1)
    } else if place <= reaches - place {
        Part::Left(number)
    } else {
        Part::Right(number)
    }
}

/// Whether an inner place of a section, of so many reaches, is in this region of the section at a
/// step.
pub(crate) fn in_section(window: u64, reaches: u32, region: u64, place: u32, step: u64) -> bool
    requires window { 0 < window }
    requires few { window ≤ WIDEST_WINDOW }
    requires long { window ≤ reaches }
    requires after { 0 < place }
    requires before { place < reaches }
    ensures { IsTrue result ↔ InSection window reaches region place step }
{
    if step == 0 {
        return false;
    }
    match part_of(window, reaches, place, step) {
        Part::Own(own) => own == region,
        Part::Left(_) => false,
        Part::Right(_) => false,
    }
}
