//! The answers to a text and to its upgrade.
ghost use Rattle.std.specs.Prelude.{◌≡◌, ◌≤◌, ℕ, List, Some, Ok, length};
ghost use Rattle.case_model.specs.declared.cases.Case.{Case};
ghost use Rattle.case_model.specs.declared.meshes.Mesh.{Mesh};
ghost use Rattle.case_writing.specs.CaseText.{case_text, upgraded};
ghost use Rattle.command_words.specs.CommandLine.{job_of};
ghost use Rattle.command_words.specs.declared.job.Job.{Job};
ghost use Rattle.command_words.specs.declared.job.Command.TheVariants.{Rounds};
ghost use Rattle.netfile.specs.Verdict.{verdict};
ghost use Rattle.surge_top.specs.Answer.{answer};

/// The law of upgraded texts: where a text is accepted, and its case written as version 2 has at
/// most 8 MiB, the answer for `rounds` to what was written is that to the text.
pub fn upgraded_text_answers_alike()
    ensures { (words : List (List ℕ)) (bytes : List ℕ) (job : Job) (case : Case) (mesh : Mesh) →
        job_of words ≡ Some job → job.command ≡ Rounds → verdict bytes ≡ Ok (case, mesh) →
        length (case_text (upgraded case)) ≤ 8_388_608 →
        answer words (case_text (upgraded case)) ≡ answer words bytes }
{}
