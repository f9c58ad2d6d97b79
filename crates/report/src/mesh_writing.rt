//! The text of a mesh, line by line through a page.
ghost use Rattle.std.specs.Prelude.{◌≡◌, ◌≤◌, ◌<◌, length};
ghost use Rattle.surge_io.specs.Writings.{IsAdded, IsWritten};
ghost use Rattle.regions.specs.LaidOut.{IsCutFor};
ghost use Rattle.report.specs.MeshText.{IsMeshed, division_line, division_lines, mesh_text};
ghost use Rattle.report.specs.MeshText.{window_line};

use crate::divisions::{division_line, window_line};
use case_model::{Case, Mesh, accepted_cases_are_kept};
use regions::{Layout, layouts_are_sound};
use surge_io::{Failed, Page, Sink};

/// Writes how each pipe of an accepted case is divided into reaches, and how its mesh is cut into
/// strands and regions. `Failed` comes only where the sink's count of faults rose in this call, and
/// then a first part was written.
pub fn write_mesh<K: Sink>(
    case: &Case,
    mesh: &Mesh,
    layout: &Layout,
    out: &mut K,
) -> Result<(), Failed>
    requires { IsCutFor case.now layout.now mesh.now }
    ensures { IsWritten K.held K.faults result out.old out.new
        (mesh_text case.now mesh.now layout.now) }
{
    limits(case, mesh, layout);
    let mut page = Page::new();
    add_mesh(case, mesh, layout, &mut page, out)?;
    page.flush(out)
}

// An accepted case, its mesh and a cut of that are within the limits of their text.
fn limits(case: &Case, mesh: &Mesh, layout: &Layout)
    requires { IsCutFor case.now layout.now mesh.now }
    ensures { IsMeshed case.now mesh.now layout.now }
{
    let _ = case;
    let _ = mesh;
    let _ = layout;
    accepted_cases_are_kept();
    layouts_are_sound();
}

// Adds the whole text.
fn add_mesh<K: Sink>(
    case: &Case,
    mesh: &Mesh,
    layout: &Layout,
    page: &mut Page,
    out: &mut K,
) -> Result<(), Failed>
    requires { IsMeshed case.now mesh.now layout.now }
    ensures { IsAdded K.held K.faults result out.old page.old out.new page.new
        (mesh_text case.now mesh.now layout.now) }
{
    add_divisions(case, mesh, layout, page, out)?;
    let line = window_line(layout);
    page.add(out, line.as_bytes())
}

// Adds the lines of all pipes.
fn add_divisions<K: Sink>(
    case: &Case,
    mesh: &Mesh,
    layout: &Layout,
    page: &mut Page,
    out: &mut K,
) -> Result<(), Failed>
    requires { IsMeshed case.now mesh.now layout.now }
    ensures { IsAdded K.held K.faults result out.old page.old out.new page.new
        (division_lines case.now mesh.now) }
{
    for p in 0..case.pipes.as_slice().len() {
        let line = division_line(case, mesh, layout, p as u32);
        page.add(out, line.as_bytes())?;
    }
    Ok(())
}
