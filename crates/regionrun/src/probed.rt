//! Where the probes of a survey lie, place by place: most strands have none, and are told so
//! without a look at each probe.
ghost use Rattle.std.specs.Prelude.{◌≡◌, ℕ, false, slice_index_or, true, IfOk};
ghost use Rattle.envelope.specs.Cells.{has_place};
ghost use Rattle.regionrun.specs.Surveys.{AreProbed, HasNoProbe};

use std::alloc::{AllocError, Global};

/// Which of so many places have a probe. The error is want of memory.
pub(crate) fn probed_places(
    alloc: Global,
    places: u64,
    probes: &[u64],
) -> Result<Vec<bool>, AllocError>
    ensures { IfOk result (λ probed. AreProbed probes.now probed.items) }
{
    let mut probed = vec![in alloc; false; places as usize]?;
    for i in 0..probes.len() {
        mark(&mut probed, probes[i]);
    }
    Ok(probed)
}

// Marks a place, where it is one of them.
fn mark(probed: &mut [bool], place: u64)
    ensures here { slice_index_or probed.new place true ≡ true }
    ensures others { (k : ℕ) → slice_index_or probed.old k true ≡ true →
        slice_index_or probed.new k true ≡ true }
{
    if (place as usize) < probed.len() {
        probed[place as usize] = true;
    }
}

/// Whether a probe may lie in one of some spans; in a span that reaches past all places it may.
pub(crate) fn may_be_probed(spans: &[(u64, u64)], probed: &[bool]) -> bool
    ensures { result ≡ false → HasNoProbe spans.now probed.now }
{
    for i in 0..spans.len() {
        if span_may_be_probed(spans[i], probed) {
            return true;
        }
    }
    false
}

// Whether a probe may lie in a span.
fn span_may_be_probed(span: (u64, u64), probed: &[bool]) -> bool
    ensures { result ≡ false → (k : ℕ) → has_place k span ≡ true →
        slice_index_or probed.now k true ≡ false }
{
    let count = probed.len() as u64;
    if span.1 > count || span.0 > count - span.1 {
        return true;
    }
    let first = span.0 as usize;
    for i in 0..span.1 as usize {
        if probed[first + i] {
            return true;
        }
    }
    false
}
