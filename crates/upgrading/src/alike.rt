//! What doesn't hang on the version of a case text, nor on the lines of its parts.
ghost use Rattle.std.specs.Prelude.{◌≡◌, ℕ, Option};
ghost use Rattle.case_model.specs.declared.cases.Case.{Case};
ghost use Rattle.case_model.specs.declared.cases.ProbeAt.{ProbeAt};
ghost use Rattle.case_model.specs.declared.meshes.Mesh.{Mesh};
ghost use Rattle.case_model.specs.Meaning.{Meaning};
ghost use Rattle.case_model.specs.Samples.{Sample, sample};
ghost use Rattle.case_writing.specs.CaseText.{upgraded};
ghost use Rattle.envelope.specs.declared.extremes.Extreme.{Extreme};
ghost use Rattle.report.specs.Messages.{range_text};
ghost use Rattle.report.specs.Report.{report_text};
ghost use Rattle.round_trip.specs.Renumbered.{renumbered};
ghost use Rattle.scheme.specs.Laws.{meaning_of};

/// The law of upgraded cases: a case as version 2, with its parts on the lines of its text, means
/// the same hydraulics, and the lines that are printed of it are the same.
pub fn upgraded_case_is_alike()
    ensures meaning { (case : Case) (mesh : Mesh) →
        meaning_of (renumbered (upgraded case)) mesh ≡ meaning_of case mesh }
    ensures sample { (case : Case) (law : Meaning) (at : ProbeAt) (step : ℕ) →
        sample law (renumbered (upgraded case)) at step ≡ sample law case at step }
    ensures report { (case : Case) (mesh : Mesh) (extremes : ProbeAt → Extreme)
        (samples : ℕ → ℕ → Option Sample) →
        report_text (renumbered (upgraded case)) mesh extremes samples
        ≡ report_text case mesh extremes samples }
    ensures range { (case : Case) (mesh : Mesh) (step place : ℕ) →
        range_text (renumbered (upgraded case)) mesh step place ≡ range_text case mesh step place }
{}
