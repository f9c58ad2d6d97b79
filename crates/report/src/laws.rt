//! Laws of the definitions.
ghost use Rattle.std.specs.Prelude.{◌≡◌, ℕ, ◌<◌, ◌≤◌, ◌%◌, length, Option};
ghost use Rattle.case_model.specs.Samples.{Sample};
ghost use Rattle.case_model.specs.declared.cases.Case.{Case};
ghost use Rattle.case_model.specs.declared.cases.ProbeAt.{ProbeAt};
ghost use Rattle.case_model.specs.declared.meshes.Mesh.{Mesh};
ghost use Rattle.case_model.specs.PlaceNumbers.{IsOn};
ghost use Rattle.envelope.specs.declared.extremes.Extreme.{Extreme};
ghost use Rattle.report.specs.Peaks.{IsHighest, IsLowest, highest, lowest};
ghost use Rattle.report.specs.Places.{IsOnPipe};
ghost use Rattle.report.specs.Report.{peak_text, report_text};

/// The law of the peak: its two places are places of pipes, and each stands before every other, by
/// head, by step and by order of places; and its line hangs on the extremes of the places of pipes
/// alone.
pub fn peak_is_of_pipes()
    ensures highest { (mesh : Mesh) (extremes : ProbeAt → Extreme) → 0 < length mesh.pipes →
        IsHighest extremes mesh (highest extremes mesh) }
    ensures lowest { (mesh : Mesh) (extremes : ProbeAt → Extreme) → 0 < length mesh.pipes →
        IsLowest extremes mesh (lowest extremes mesh) }
    ensures text { (case : Case) (mesh : Mesh) (e f : ProbeAt → Extreme) → 0 < length mesh.pipes →
        ((at : ProbeAt) → IsOnPipe mesh at → e at ≡ f at) →
        peak_text case mesh e ≡ peak_text case mesh f }
{}

/// The law of a report's numbers: the text hangs on the extremes of the mesh's places, and on the
/// samples of the probes at the steps that are sampled, and on no other.
pub fn report_is_of_its_numbers()
    ensures { (case : Case) (mesh : Mesh) (e f : ProbeAt → Extreme) (s t : ℕ → ℕ → Option Sample) →
        0 < length mesh.pipes →
        ((at : ProbeAt) → IsOn mesh at → e at ≡ f at) →
        ((j step : ℕ) → j < length case.probes → step ≤ case.steps → step % case.every ≡ 0 →
        s j step ≡ t j step) →
        report_text case mesh e s ≡ report_text case mesh f t }
{}
