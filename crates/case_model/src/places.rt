//! Places and their numbers.
ghost use Rattle.std.specs.Prelude.{◌≡◌, ℕ, ◌+◌, ◌<◌, ◌≤◌, false, length, slice_index_or};
ghost use Rattle.case_model.specs.Accepted.{IsAcceptedMesh};
ghost use Rattle.case_model.specs.Meaning.{Meaning};
ghost use Rattle.case_model.specs.Mesh.{reaches, base_of, IsNumbered};
ghost use Rattle.case_model.specs.PlaceNumbers.{number_of, IsOn};
ghost use Rattle.case_model.specs.Places.{is_bad, is_bad_state, bad_places};
ghost use Rattle.case_model.specs.Rows.{row};

use crate::{Mesh, ProbeAt, accepted_cases_are_kept};

/// The number of a place: a node's index, or the place's count from the first of its pipe.
pub fn place_number(mesh: &Mesh, at: ProbeAt) -> u64
    requires accepted { IsAcceptedMesh mesh.now }
    requires on { IsOn mesh.now at }
    ensures { result ≡ number_of mesh.now at }
{
    accepted_cases_are_kept();
    match at {
        ProbeAt::OnPipe { pipe, place } => {
            mesh.pipes.as_slice()[pipe as usize].base + place as u64
        }
        ProbeAt::OnNode { node } => node as u64,
    }
}

/// The law of place numbers: node k is place k, place i of a pipe is its base plus i, and there are
/// no other places.
pub fn places_are_numbered()
    ensures node { (law : Meaning) (s k : ℕ) → k < length law.mesh.ends →
        slice_index_or (bad_places law s) k false ≡ is_bad_state ((row law s).state k) }
    ensures place { (law : Meaning) (s p i : ℕ) → IsNumbered law.mesh →
        p < length law.mesh.pipes → i ≤ reaches law.mesh p →
        slice_index_or (bad_places law s) (base_of law.mesh p + i) false
        ≡ is_bad ((row law s).point p i) }
    ensures all { (law : Meaning) (s : ℕ) → IsNumbered law.mesh →
        length (bad_places law s) ≡ law.mesh.places }
{}
