//! How the runners of a run are taken apart.
ghost use Rattle.std.specs.Prelude.{◌≡◌, ◌<◌, ◌≤◌, ◌+◌, length, vec_len, vec_capacity, IfOk};
ghost use Rattle.case_model.specs.Meaning.{Meaning};
ghost use Rattle.regionrun.specs.Right.{region_count};
ghost use Rattle.workers.specs.Runs.{AreApart, AreRunners};

use case_model::Law;
use endhistory::{Reader, Writer};
use regionrun::{EntryStub, Strand};
use runners::{RunTag, Runner};
use std::alloc::{AllocError, Global};

/// The strands of runners, and their ends.
#[derive(Drop)]
pub(crate) struct Parts<S> {
    pub(crate) strands: Vec<Strand<S>>,
    pub(crate) writers: Vec<Writer>,
    pub(crate) readers: Vec<Vec<Reader>>,
}

/// Room for the parts of so many runners. The error is want of memory.
pub(crate) fn room_for<S: EntryStub>(alloc: Global, count: usize) -> Result<Parts<S>, AllocError>
    ensures none { IfOk result (λ parts. (vec_len parts.strands ≡ 0)
        × (vec_len parts.writers ≡ 0) × (vec_len parts.readers ≡ 0)) }
    ensures room { IfOk result (λ parts. (count ≤ vec_capacity parts.strands)
        × (count ≤ vec_capacity parts.writers) × (count ≤ vec_capacity parts.readers)) }
{
    Ok(Parts {
        strands: Vec::with_capacity(alloc, count)?,
        writers: Vec::with_capacity(alloc, count)?,
        readers: Vec::with_capacity(alloc, count)?,
    })
}

/// Takes runners apart, in order.
pub(crate) fn take_apart<'a, 'h, L: Law, S: EntryStub>(
    tag: &RunTag<'a, 'h, L>,
    runners: Vec<Runner<'a, 'h, L, S>>,
    parts: &mut Parts<S>,
)
    requires runners { AreRunners L.meaning S.strand_of S.entered_of tag.now
        (region_count tag.now.layout.now) runners.items }
    requires none { (vec_len parts.old.strands ≡ 0)
        × (vec_len parts.old.writers ≡ 0) × (vec_len parts.old.readers ≡ 0) }
    requires room { (length runners.items ≤ vec_capacity parts.old.strands)
        × (length runners.items ≤ vec_capacity parts.old.writers)
        × (length runners.items ≤ vec_capacity parts.old.readers) }
    ensures strands { AreApart runners.entry.items parts.new.strands.items parts.new.writers.items
        parts.new.readers.items }
{
    let _ = tag;
    for runner in runners {
        let (strand, writer, readers) = runner.into_parts();
        parts.strands.push_reserved(strand);
        parts.writers.push_reserved(writer);
        parts.readers.push_reserved(readers);
    }
}
