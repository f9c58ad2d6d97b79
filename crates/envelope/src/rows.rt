//! The laws of folds, of their extremes and of place numbers. No function here does anything.
ghost use Rattle.std.specs.Prelude.{◌≡◌, ◌≢◌, ℕ, ◌<◌, ◌≤◌, ℤ, List, [], ◌∷◌, length, Option, Some};
ghost use Rattle.std.specs.Prelude.{None, true};
ghost use Rattle.case_model.specs.declared.cases.Case.{Case};
ghost use Rattle.case_model.specs.declared.cases.ProbeAt.{ProbeAt};
ghost use Rattle.case_model.specs.declared.meshes.Mesh.{Mesh};
ghost use Rattle.case_model.specs.FirstFault.{first_fault};
ghost use Rattle.case_model.specs.Meaning.{Meaning};
ghost use Rattle.case_model.specs.Mesh.{IsNumbered};
ghost use Rattle.case_model.specs.Parts.{probe_at};
ghost use Rattle.case_model.specs.Samples.{Sample, IsGreatest, IsSmallest, IsEnvelope, sample};
ghost use Rattle.envelope.specs.Cells.{is_within};
ghost use Rattle.envelope.specs.Extremes.{IsEnvelopeOf, greatest_over, least_over, extreme_over};
ghost use Rattle.envelope.specs.Faults.{HasFault};
ghost use Rattle.envelope.specs.Folds.{Stands, spans_of, steps_of};
ghost use Rattle.envelope.specs.Kept.{extreme_kept, sample_kept};
ghost use Rattle.envelope.specs.Notings.{Noted};
ghost use Rattle.envelope.specs.RowFolds.{HasRows, IsFoldOfCase};
ghost use Rattle.case_model.specs.PlaceNumbers.{number_of, IsOn, place_at};
ghost use Rattle.envelope.specs.Rows.{rows_noted, extreme_at};
ghost use Rattle.envelope.specs.declared.extremes.Extreme.{Extreme};
ghost use Rattle.envelope.specs.declared.folds.Fold.{Fold};

/// The law of extremes found step by step: they are the greatest and the least value at the steps 0
/// to the last, each with its first step, and None exactly where no step has a value.
pub fn extremes_are_exact()
    ensures greatest { (value : ℕ → Option ℤ) (last : ℕ) (most : ℤ) (step : ℕ) →
        greatest_over value last ≡ Some (most, step) → IsGreatest value last most step }
    ensures only_greatest { (value : ℕ → Option ℤ) (last : ℕ) (most : ℤ) (step : ℕ) →
        IsGreatest value last most step → greatest_over value last ≡ Some (most, step) }
    ensures no_greatest { (value : ℕ → Option ℤ) (last : ℕ) → greatest_over value last ≡ None →
        (s : ℕ) → s ≤ last → value s ≡ None }
    ensures greatest_of_none { (value : ℕ → Option ℤ) (last : ℕ) →
        ((s : ℕ) → s ≤ last → value s ≡ None) → greatest_over value last ≡ None }
    ensures least { (value : ℕ → Option ℤ) (last : ℕ) (least : ℤ) (step : ℕ) →
        least_over value last ≡ Some (least, step) → IsSmallest value last least step }
    ensures only_least { (value : ℕ → Option ℤ) (last : ℕ) (least : ℤ) (step : ℕ) →
        IsSmallest value last least step → least_over value last ≡ Some (least, step) }
    ensures no_least { (value : ℕ → Option ℤ) (last : ℕ) → least_over value last ≡ None → (s : ℕ) →
        s ≤ last → value s ≡ None }
    ensures least_of_none { (value : ℕ → Option ℤ) (last : ℕ) →
        ((s : ℕ) → s ≤ last → value s ≡ None) → least_over value last ≡ None }
    ensures envelope { (f : ℕ → Option Sample) (last : ℕ) (e : Extreme) → IsEnvelopeOf f last e →
        e ≡ extreme_over f last }
    ensures row_envelope { (law : Meaning) (at : ProbeAt) (last : ℕ) (e : Extreme) →
        IsNumbered law.mesh → IsOn law.mesh at → first_fault law last ≡ None →
        e ≡ extreme_at law last at →
        IsEnvelope law at last e.max e.max_step e.min e.min_step e.volume e.volume_step }
{}

/// The law of place numbers: each place of a mesh has one, below the count of places, and each
/// number below that count is that of a place. The first fault of a law's rows is at one.
pub fn numbers_tell_places()
    ensures place { (mesh : Mesh) (at : ProbeAt) → IsNumbered mesh → IsOn mesh at →
        place_at mesh (number_of mesh at) ≡ at }
    ensures below { (mesh : Mesh) (at : ProbeAt) → IsNumbered mesh → IsOn mesh at →
        number_of mesh at < mesh.places }
    ensures on { (mesh : Mesh) (k : ℕ) → IsNumbered mesh → k < mesh.places →
        IsOn mesh (place_at mesh k) }
    ensures number { (mesh : Mesh) (k : ℕ) → IsNumbered mesh → k < mesh.places →
        number_of mesh (place_at mesh k) ≡ k }
    ensures fault { (law : Meaning) (last step place : ℕ) → IsNumbered law.mesh →
        first_fault law last ≡ Some (step, place) → place < law.mesh.places }
{}

/// The law of maps: a fold that stands for one stands for each other that has the same at the steps
/// 0 to the fold's last and at the places of its spans.
pub fn stands_for_equal_maps()
    ensures { (fold : Fold) (map more : Noted) →
        ((s k : ℕ) → s ≤ steps_of fold → is_within (spans_of fold) k ≡ true → map s k ≡ more s k) →
        Stands fold map → Stands fold more }
{}

/// The law of folds over rows: what a fold keeps that was told every row of a law is the first
/// fault of these rows, the samples of a case's probes and, without a fault, the extreme of each
/// place.
pub fn folds_tell_rows()
    ensures fault { (law : Meaning) (last : ℕ) (fault : Option (ℕ × ℕ)) → IsNumbered law.mesh →
        HasFault ((0, law.mesh.places) ∷ []) last (rows_noted law) fault →
        fault ≡ first_fault law last }
    ensures extreme { (law : Meaning) (fold : Fold) (at : ProbeAt) → HasRows law fold →
        first_fault law (steps_of fold) ≡ None → IsOn law.mesh at →
        extreme_kept fold (number_of law.mesh at) ≡ extreme_at law (steps_of fold) at }
    ensures sample { (law : Meaning) (case : Case) (fold : Fold) (j step : ℕ) → HasRows law fold →
        IsFoldOfCase law case fold → j < length case.probes →
        sample_kept fold j step ≡ sample law case (probe_at case j).at step }
{}
