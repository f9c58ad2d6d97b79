//! The lines of a mesh: the division of each pipe, and the count of regions.
ghost use Rattle.std.specs.Prelude.{◌≡◌, ◌≤◌, ◌<◌, ◌+◌, ◌*◌, ◌++◌, ◌∷◌, [], codes, pos, length};
ghost use Rattle.std.specs.Prelude.{unsigned_abs};
ghost use Rattle.std.specs.List.{filter};
ghost use Rattle.fixed_num.specs.Rounding.{rnd as rounded};
ghost use Rattle.case_model.specs.Formulas.{adjusted_speed};
ghost use Rattle.case_model.specs.Limits.{IsWithin};
ghost use Rattle.regions.specs.Sides.{is_section_shape};
ghost use Rattle.surge_io.specs.Fields.{count_text, fields_text, line_of};
ghost use Rattle.report.specs.MeshText.{IsCounted, IsMeshed, division_line, friction_text};
ghost use Rattle.report.specs.MeshText.{impedance_text, regions_of, sections_of, speed_of};
ghost use Rattle.report.specs.MeshText.{speed_text, window_line};

use crate::fields::{add_friction, add_impedance, add_speed};
use case_model::{Case, Mesh, PipeMesh};
use fixed_num::rnd;
use regions::{Layout, Shape};
use surge_io::Line;

// The line of the division of a pipe.
#[tactic(auto, unfolding(crate::specs::MeshText::division_line))]
pub(crate) fn division_line(case: &Case, mesh: &Mesh, layout: &Layout, pipe: u32) -> Line
    requires meshed { IsMeshed case.now mesh.now layout.now }
    requires there { pipe < length case.now.pipes }
    ensures { result ≡ division_line case.now mesh.now pipe }
{
    let division = &mesh.pipes.as_slice()[pipe as usize];
    let speed = speed_of(case, mesh, layout, pipe);
    let name = case.pipes.as_slice()[pipe as usize].name.as_bytes();
    line_of_division(name, division, speed)
}

fn line_of_division(name: &[u8], division: &PipeMesh, speed: i128) -> Line
    requires name { length name.now ≤ 32 }
    requires speed { unsigned_abs speed < 100_000_000_000_000_000_000 }
    requires friction { unsigned_abs division.now.r ≤ 100_000_000_000_000_000_000 }
    ensures { result
        ≡ line_of (codes "pipe" ∷ name.now ∷ count_text division.now.reaches ∷ codes "speed"
        ∷ speed_text speed ∷ codes "b" ∷ impedance_text division.now.b ∷ codes "r"
        ∷ friction_text division.now.r ∷ []) }
{
    let mut line = Line::new();
    line.push(b"pipe");
    add_pipe(&mut line, name, division.reaches);
    add_speed(&mut line, speed);
    add_impedance(&mut line, division.b);
    add_friction(&mut line, division.r);
    line.push(b"\n");
    line
}

// Adds the name of a pipe and its count of reaches.
fn add_pipe(line: &mut Line, name: &[u8], reaches: u32)
    requires room { length line.old ≤ 100 }
    requires name { length name.now ≤ 32 }
    ensures text { line.new ≡ line.old ++ fields_text (name.now ∷ count_text reaches ∷ []) }
    ensures few { length line.new ≤ length line.old + 56 }
{
    line.add_field(name);
    line.add_count(reaches as u64);
}

// The wave speed at which a wave passes one reach of a pipe in one time step, in 1e-3 m/s.
fn speed_of(case: &Case, mesh: &Mesh, layout: &Layout, pipe: u32) -> i128
    requires meshed { IsMeshed case.now mesh.now layout.now }
    requires there { pipe < length case.now.pipes }
    ensures value { result ≡ speed_of case.now mesh.now pipe }
    ensures size { unsigned_abs result < 100_000_000_000_000_000_000 }
{
    let length = case.pipes.as_slice()[pipe as usize].length;
    let reaches = mesh.pipes.as_slice()[pipe as usize].reaches;
    adjusted_speed(length, case.dt, reaches)
}

#[tactic(auto, unfolding(case_model::specs::Formulas::adjusted_speed))]
fn adjusted_speed(length: i64, dt: i64, reaches: u32) -> i128
    requires length { IsWithin (pos 1) (pos 1_000_000_000) length }
    requires dt { IsWithin (pos 1) (pos 1_000_000) dt }
    requires some { 1 ≤ reaches }
    ensures value { result ≡ adjusted_speed length dt (pos reaches) }
    ensures size { unsigned_abs result < 100_000_000_000_000_000_000 }
{
    quotient(length as u64 * 1_000_000, reaches as u64 * dt as u64)
}

// The quotient of two sizes, rounded to the nearest.
fn quotient(n: u64, d: u64) -> i128
    requires { 0 < d }
    ensures value { result ≡ rounded (pos n) (pos d) }
    ensures size { unsigned_abs result ≤ n + 1 }
{
    rnd(n as i128, d as i128)
}

// The line of the window, the strands and the regions.
#[tactic(auto, unfolding(crate::specs::MeshText::window_line))]
pub(crate) fn window_line(layout: &Layout) -> Line
    requires { IsCounted layout.now }
    ensures { result ≡ window_line layout.now }
{
    let mut line = Line::new();
    line.push(b"window");
    line.add_count(layout.window);
    line.add_field(b"strands");
    line.add_count(layout.shapes.as_slice().len() as u64);
    line.add_field(b"regions");
    line.add_count(regions_of(layout));
    line.push(b"\n");
    line
}

// How many regions all strands have.
fn regions_of(layout: &Layout) -> u64
    requires { IsCounted layout.now }
    ensures { result ≡ regions_of layout.now }
{
    let shapes = layout.shapes.as_slice();
    let sections = count_sections(shapes);
    all_regions(layout.windows, shapes.len() as u64 - sections, sections)
}

// The regions of so many stations and sections.
fn all_regions(windows: u64, stations: u64, sections: u64) -> u64
    requires windows { windows ≤ 100_000_000 }
    requires stations { stations ≤ 1_000_000 }
    requires sections { sections ≤ 1_000_000 }
    ensures { result ≡ windows * stations + (windows + 1) * sections }
{
    windows * stations + (windows + 1) * sections
}

fn count_sections(shapes: &[Shape]) -> u64
    ensures count { result ≡ length (filter is_section_shape shapes.now) }
    ensures few { result ≤ length shapes.now }
{
    let mut count = 0;
    for shape in shapes {
        if is_section(shape) {
            count += 1;
        }
    }
    count
}

fn is_section(shape: &Shape) -> bool
    ensures { result ≡ is_section_shape shape.now }
{
    match shape {
        Shape::OfSection { .. } => true,
        Shape::OfNode { .. } | Shape::OfSeam { .. } => false,
    }
}
