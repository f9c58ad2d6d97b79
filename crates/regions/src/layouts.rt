//! The layout of a mesh.
ghost use Rattle.std.specs.Prelude.{◌≡◌, ◌<◌, ◌≤◌, ◌++◌, length, map, IfOk, OnOk};
ghost use Rattle.std.specs.List.{flat_map, range_with_len};
ghost use Rattle.case_model.specs.Accepted.{IsAccepted};
ghost use Rattle.case_model.specs.Joints.{all_joints};
ghost use Rattle.case_model.specs.Mesh.{IsMesh};
ghost use Rattle.regions.specs.declared.shapes.Shape.TheVariants.{OfNode};
ghost use Rattle.regions.specs.Cuts.{IsLimited};
ghost use Rattle.regions.specs.LaidOut.{IsCutFor, IsLaidOut};
ghost use Rattle.regions.specs.Layouts.{seams_of, sections_of, layout_of};

use crate::cuts::{next_cut, section_reaches, window, windows};
use crate::numbers::cuts_of;
use crate::{Layout, Shape, WIDEST_WINDOW};
use case_model::{Case, List, Mesh, PipeJoints, find_joints};
use std::alloc::{AllocError, Global};

/// The strands of the mesh of an accepted case, and its windows of at most `wish` steps that hold
/// all steps of the case. The error is want of memory.
#[tactic(auto, unfolding(crate::specs::Layouts::layout_of, crate::specs::Layouts::shapes_of))]
pub fn layout(alloc: Global, case: &Case, mesh: &Mesh, wish: u64) -> Result<Layout, AllocError>
    requires accepted { IsAccepted case.now mesh.now }
    requires some { 1 ≤ wish }
    requires few { wish ≤ WIDEST_WINDOW }
    ensures layout { IfOk result (λ layout. layout ≡ layout_of case.now.steps mesh.now wish) }
    ensures cut { IfOk result (λ layout. IsCutFor case.now layout mesh.now) }
    ensures laid_out { IfOk result (λ layout. IsLaidOut layout mesh.now) }
{
    let window = window(mesh, wish);
    let windows = windows(window, case.steps);
    let joints = find_joints(alloc, mesh)?;
    let mut shapes = nodes(alloc, mesh)?;
    add_seams(&mut shapes, mesh, &joints, window)?;
    add_sections(&mut shapes, mesh, &joints, window)?;
    Ok(Layout {
        window,
        windows,
        shapes: List::over(shapes),
    })
}

// The strands that are nodes.
fn nodes(alloc: Global, mesh: &Mesh) -> Result<Vec<Shape>, AllocError>
    requires { IsLimited mesh.now }
    ensures { IfOk result (λ shapes.
        shapes.items ≡ map OfNode (range_with_len 0 (length mesh.now.ends))) }
{
    let mut shapes = Vec::new(alloc);
    for node in 0..mesh.ends.as_slice().len() as u32 {
        shapes.push(Shape::OfNode { node })?;
    }
    Ok(shapes)
}

// Adds the seams of all pipes.
fn add_seams(
    shapes: &mut Vec<Shape>,
    mesh: &Mesh,
    joints: &[PipeJoints],
    window: u64,
) -> Result<(), AllocError>
    requires mesh { IsMesh mesh.now }
    requires limits { IsLimited mesh.now }
    requires joints { joints.now ≡ all_joints mesh.now }
    ensures { OnOk result (shapes.new.items ≡ shapes.old.items
        ++ flat_map (seams_of mesh.now window) (range_with_len 0 (length mesh.now.pipes))) }
{
    for pipe in 0..mesh.pipes.as_slice().len() as u32 {
        add_pipe_seams(shapes, mesh, joints, window, pipe)?;
    }
    Ok(())
}

// Adds the seams of a pipe.
fn add_pipe_seams(
    shapes: &mut Vec<Shape>,
    mesh: &Mesh,
    joints: &[PipeJoints],
    window: u64,
    pipe: u32,
) -> Result<(), AllocError>
    requires mesh { IsMesh mesh.now }
    requires limits { IsLimited mesh.now }
    requires joints { joints.now ≡ all_joints mesh.now }
    requires inside { pipe < length mesh.now.pipes }
    ensures { OnOk result (shapes.new.items ≡ shapes.old.items ++ seams_of mesh.now window pipe) }
{
    let reaches = mesh.pipes.as_slice()[pipe as usize].reaches;
    let cuts = cuts_of(mesh, joints, window, pipe);
    let mut place = 0;
    for index in 0..cuts.count - 1 {
        place = next_cut(window, reaches, index, place);
        let left = cuts.section(index);
        let right = cuts.section(index + 1);
        shapes.push(Shape::OfSeam {
            pipe,
            place,
            left,
            right,
        })?;
    }
    Ok(())
}

// Adds the sections of all pipes.
fn add_sections(
    shapes: &mut Vec<Shape>,
    mesh: &Mesh,
    joints: &[PipeJoints],
    window: u64,
) -> Result<(), AllocError>
    requires mesh { IsMesh mesh.now }
    requires limits { IsLimited mesh.now }
    requires joints { joints.now ≡ all_joints mesh.now }
    ensures { OnOk result (shapes.new.items ≡ shapes.old.items
        ++ flat_map (sections_of mesh.now window) (range_with_len 0 (length mesh.now.pipes))) }
{
    for pipe in 0..mesh.pipes.as_slice().len() as u32 {
        add_pipe_sections(shapes, mesh, joints, window, pipe)?;
    }
    Ok(())
}

// Adds the sections of a pipe.
fn add_pipe_sections(
    shapes: &mut Vec<Shape>,
    mesh: &Mesh,
    joints: &[PipeJoints],
    window: u64,
    pipe: u32,
) -> Result<(), AllocError>
    requires mesh { IsMesh mesh.now }
    requires limits { IsLimited mesh.now }
    requires joints { joints.now ≡ all_joints mesh.now }
    requires inside { pipe < length mesh.now.pipes }
    ensures { OnOk result (
        shapes.new.items ≡ shapes.old.items ++ sections_of mesh.now window pipe) }
{
    let all = mesh.pipes.as_slice()[pipe as usize].reaches;
    let cuts = cuts_of(mesh, joints, window, pipe);
    let mut place = 0;
    for index in 0..cuts.count {
        let reaches = section_reaches(window, all, index);
        let left = cuts.station(index);
        let right = cuts.station(index + 1);
        shapes.push(Shape::OfSection {
            pipe,
            place,
            reaches,
            left,
            right,
        })?;
        place = next_cut(window, all, index, place);
    }
    Ok(())
}
