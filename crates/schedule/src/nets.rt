//! The kinds and the neighbours of the strands of a layout.
ghost use Rattle.std.specs.Prelude.{◌≡◌, ◌<◌, length, IfOk};
ghost use Rattle.regions.specs.LaidOut.{IsLaidOut};
ghost use Rattle.regions.specs.Regions.{IsWhole};
ghost use Rattle.regions.specs.Sides.{sides_of, is_section_shape};
ghost use Rattle.schedule.specs.LayoutNets.{AreKinds, AreLinked, AreLinksOf};

use crate::Link;
use case_model::{List, Mesh};
use regions::{Layout, Shape};
use std::alloc::{AllocError, Global};

/// Whether each strand of a layout is a section.
pub(crate) fn kinds_of(alloc: Global, layout: &Layout) -> Result<Vec<bool>, AllocError>
    ensures { IfOk result (λ kinds. AreKinds layout.now (length layout.now.shapes) kinds.items) }
{
    let mut kinds = Vec::new(alloc);
    for shape in layout.shapes.as_slice() {
        kinds.push(is_section(shape))?;
    }
    Ok(kinds)
}

fn is_section(shape: &Shape) -> bool
    ensures { result ≡ is_section_shape shape.now }
{
    matches!(shape, Shape::OfSection { .. })
}

/// The neighbours of each strand of a layout.
pub(crate) fn links_of(
    alloc: Global,
    layout: &Layout,
    mesh: &Mesh,
) -> Result<Vec<List<Link>>, AllocError>
    requires laid_out { IsLaidOut layout.now mesh.now }
    requires whole { IsWhole layout.now }
    ensures { IfOk result (λ links.
        AreLinked layout.now mesh.now (length layout.now.shapes) links.items) }
{
    let mut links = Vec::new(alloc);
    for strand in 0..layout.shapes.as_slice().len() as u32 {
        let list = links_at(alloc, layout, mesh, strand)?;
        links.push(List::over(list))?;
    }
    Ok(links)
}

/// The neighbours of a strand.
fn links_at(
    alloc: Global,
    layout: &Layout,
    mesh: &Mesh,
    strand: u32,
) -> Result<Vec<Link>, AllocError>
    requires laid_out { IsLaidOut layout.now mesh.now }
    requires inside { strand < length layout.now.shapes }
    ensures { IfOk result (λ links.
        AreLinksOf layout.now mesh.now strand (sides_of layout.now mesh.now strand) links.items) }
{
    let mut links = Vec::new(alloc);
    for index in 0..layout.sides(mesh, strand) {
        links.push(Link {
            strand: layout.side(mesh, strand, index),
            back: layout.back(mesh, strand, index),
        })?;
    }
    Ok(links)
}
