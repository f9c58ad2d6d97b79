//! Which spots lie in which region of a strand.
ghost use Rattle.std.specs.Prelude.{◌≡◌, ◌<◌, ◌≤◌, ◌↔◌, IsTrue, length};
ghost use Rattle.regions.specs.LaidOut.{IsLayout};
ghost use Rattle.regions.specs.Regions.{InRegion, InStationBy, InStations, InSection, IsLong};
ghost use Rattle.regions.specs.Regions.{IsWhole};
ghost use Rattle.regions.specs.Sides.{shape_at as shape_is};

use crate::parts::{in_section, in_station};
use crate::{Layout, Shape, Spot, WIDEST_WINDOW};

// A place of a pipe at a step, which may lie in this region of a station.
#[derive(Clone, Copy)]
struct Asked {
    station: u32,
    region: u64,
    pipe: u32,
    place: u32,
    step: u64,
}

impl Layout {
    /// Whether a spot, at a step, lies in this region of a strand. A pipe's end goes with its node.
    #[tactic(auto, using(crate::proofs::Sound::whole_layout))]
    pub fn in_region(&self, strand: u32, region: u64, spot: &Spot, step: u64) -> bool
        requires inside { strand < length self.now.shapes }
        requires layout { IsLayout self.now }
        ensures { IsTrue result ↔ InRegion self.now strand region spot.now step }
    {
        match self.shape_at(strand) {
            Shape::OfNode { node } => match *spot {
                Spot::AtNode { node: own } => {
                    node == own && region < self.windows && in_station(self.window, region, 0, step)
                }
                Spot::Inside { pipe, place } => self.in_stations(Asked {
                    station: strand,
                    region,
                    pipe,
                    place,
                    step,
                }),
            },
            Shape::OfSeam { .. } => match *spot {
                Spot::AtNode { .. } => false,
                Spot::Inside { pipe, place } => self.in_stations(Asked {
                    station: strand,
                    region,
                    pipe,
                    place,
                    step,
                }),
            },
            Shape::OfSection {
                pipe: own,
                place: first,
                reaches,
                ..
            } => match *spot {
                Spot::AtNode { .. } => false,
                Spot::Inside { pipe, place } => {
                    own == pipe
                        && first < place
                        && place < first + reaches
                        && region <= self.windows
                        && in_section(self.window, reaches, region, place - first, step)
                }
            },
        }
    }

    // Whether a place is in this region of a station, by one of the sections that end there.
    fn in_stations(&self, asked: Asked) -> bool
        requires { IsWhole self.now }
        ensures { IsTrue result ↔
            InStations self.now asked.station asked.region asked.pipe asked.place asked.step }
    {
        if asked.region >= self.windows {
            return false;
        }
        for shape in self.shapes.as_slice() {
            if in_station_by(self.window, asked, shape) {
                return true;
            }
        }
        false
    }
}

// The same by this shape, which may be a section that ends at the station.
fn in_station_by(window: u64, asked: Asked, shape: &Shape) -> bool
    requires window { window ≤ WIDEST_WINDOW }
    requires region { asked.region ≤ 100_000_000 }
    requires long { IsLong window shape.now }
    ensures { IsTrue result ↔
        InStationBy window asked.station asked.region asked.pipe asked.place asked.step shape.now }
{
    match *shape {
        Shape::OfNode { .. } => false,
        Shape::OfSeam { .. } => false,
        Shape::OfSection {
            pipe: own,
            place: first,
            reaches,
            left,
            right,
        } => {
            own == asked.pipe
                && first <= asked.place
                && asked.place <= first + reaches
                && (left == asked.station
                    && in_station(window, asked.region, asked.place - first, asked.step)
                    || right == asked.station
                        && in_station(
                            window,
                            asked.region,
                            first + reaches - asked.place,
                            asked.step,
                        ))
        }
    }
}
