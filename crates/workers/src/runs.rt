//! Asynchronous runs: the histories of a layout are opened, and its strands run over them.
ghost use Rattle.std.specs.Prelude.{◌≡◌, ◌≤◌, length, IfOk};
ghost use Rattle.case_model.specs.Meaning.{Meaning};
ghost use Rattle.regionrun.specs.Engine.{AreAt, AreSameFolds};
ghost use Rattle.regionrun.specs.Made.{AreNew};
ghost use Rattle.regionrun.specs.Right.{region_count};
ghost use Rattle.regionrun.specs.Surveys.{IsSurvey};
ghost use Rattle.workers.specs.Runs.{AreUsedUp};

use crate::apart::{Parts, room_for, take_apart};
use crate::making::make_runners;
use crate::together::run_runners;
use case_model::Law;
use endhistory::MOST_SLOTS;
use histories::{Ends, open_histories};
use regionrun::{Gate, MOST_WORKERS, Strand, Survey, Workers, layouts_are_lawful};
use runners::RunTag;
use schedule::Plan;
use std::alloc::AllocError;
use std::sync::Wait;
use std::thread::Threads;

/// What an asynchronous run gives back.
#[derive(Drop)]
pub struct Ran<S> {
    /// The strands in order, of which all regions are computed.
    pub strands: Vec<Strand<S>>,
    /// The histories through which their blocks went.
    pub ends: Ends,
}

/// Computes all regions of all strands of a survey by workers that claim the strands: each goes as
/// far as its neighbours' blocks and its own slots allow. All blocks go through bounded histories
/// of so many slots, which are opened here and given back used up. All memory for the regions is
/// taken before the first one; the error is want of it.
pub fn run_async<R: Threads + Wait + AllocGlobal + Sync, L: Law, G: Gate + Sync>(
    workers: &Workers<R>,
    law: &L,
    survey: &Survey,
    strands: Vec<Strand<G::Stub>>,
    slots: u64,
    gate: &G,
) -> Result<Ran<G::Stub>, AllocError>
    requires some { 1 ≤ workers.now.count }
    requires few { workers.now.count ≤ MOST_WORKERS }
    requires some_slots { 1 ≤ slots }
    requires few_slots { slots ≤ MOST_SLOTS }
    requires survey { IsSurvey survey.now.case.now survey.now.mesh.now survey.now.layout.now
        survey.now.probes.now }
    requires mesh { survey.now.mesh.now ≡ (L.meaning law.now).mesh }
    requires strands { AreNew G.Stub.strand_of G.Stub.entered_of survey.now.case.now
        (L.meaning law.now) survey.now.layout.now survey.now.probes.now
        (length survey.now.layout.now.shapes) strands.items }
    ensures done { IfOk result (λ ran. AreAt G.Stub.strand_of G.Stub.entered_of
        (L.meaning law.now) survey.now.layout.now (region_count survey.now.layout.now)
        ran.strands.items) }
    ensures folds { IfOk result (λ ran. AreSameFolds strands.items ran.strands.items) }
    ensures ends { IfOk result (λ ran. AreUsedUp (L.meaning law.now) survey.now.layout.now slots
        ran.ends) }
{
    layouts_are_lawful();
    let alloc = workers.rt.alloc();
    let plan = Plan::make(alloc, survey.layout, survey.mesh, slots)?;
    let Ends {
        histories,
        writers,
        readers,
    } = open_histories(alloc, law, survey.layout, survey.mesh, slots)?;
    let mut parts = room_for(alloc, strands.len())?;
    let tag = RunTag {
        law,
        case: survey.case,
        layout: survey.layout,
        mesh: survey.mesh,
        plan: &plan,
        histories: histories.as_slice(),
    };
    let runners = make_runners(alloc, &tag, strands, writers, readers)?;
    let runners = run_runners(workers, &tag, runners, gate)?;
    take_apart(&tag, runners, &mut parts);
    let Parts {
        strands,
        writers,
        readers,
    } = parts;
    Ok(Ran {
        strands,
        ends: Ends {
            histories,
            writers,
            readers,
        },
    })
}
