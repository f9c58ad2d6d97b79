//! How the runners of a run are made of its strands and of the ends of its histories.
ghost use Rattle.std.specs.Prelude.{◌≡◌, ◌<◌, ◌≤◌, length, IfOk};
ghost use Rattle.envelope.specs.RowFolds.{probe_numbers};
ghost use Rattle.regionrun.specs.Engine.{none};
ghost use Rattle.regionrun.specs.Made.{AreNew};
ghost use Rattle.runners.specs.Tags.{IsRunTag};
ghost use Rattle.workers.specs.Runs.{AreFreshEnds, AreRunners};

use case_model::Law;
use endhistory::{Reader, Writer};
use regionrun::{EntryStub, Strand};
use runners::{RunTag, Runner};
use std::alloc::{AllocError, Global};

/// The runner of each strand, with its ends as they were opened. The error is want of memory.
pub(crate) fn make_runners<'a, 'h, L: Law, S: EntryStub>(
    alloc: Global,
    tag: &RunTag<'a, 'h, L>,
    mut strands: Vec<Strand<S>>,
    mut writers: Vec<Writer>,
    mut readers: Vec<Vec<Reader>>,
) -> Result<Vec<Runner<'a, 'h, L, S>>, AllocError>
    requires tag { IsRunTag L.meaning tag.now }
    requires strands { AreNew S.strand_of S.entered_of tag.now.case.now
        (L.meaning tag.now.law.now) tag.now.layout.now
        (probe_numbers tag.now.mesh.now tag.now.case.now) (length tag.now.layout.now.shapes)
        strands.items }
    requires ends { AreFreshEnds (L.meaning tag.now.law.now) tag.now.layout.now
        tag.now.histories.now (length tag.now.layout.now.shapes) writers.items readers.items }
    ensures { IfOk result (λ runners. AreRunners L.meaning S.strand_of S.entered_of tag.now none
        runners.items) }
{
    let mut runners = Vec::with_capacity(alloc, strands.len())?;
    while let Some(strand) = strands.pop() {
        let writer = writers.pop().unwrap();
        let own = readers.pop().unwrap();
        runners.push(Runner::over(tag, strand, writer, own))?;
    }
    runners.reverse();
    Ok(runners)
}
