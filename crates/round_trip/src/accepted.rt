//! Laws of accepted texts: their cases can be written, and read back.
ghost use Rattle.std.specs.Prelude.{◌≡◌, ◌≤◌, ℕ, List, Ok, length};
ghost use Rattle.case_model.specs.declared.cases.Case.{Case};
ghost use Rattle.case_model.specs.declared.meshes.Mesh.{Mesh};
ghost use Rattle.case_model.specs.Refusals.{passes};
ghost use Rattle.case_model.specs.Sets.{IsEmpty, AreEmpty};
ghost use Rattle.case_rules.specs.Among.{line_rules};
ghost use Rattle.case_rules.specs.Counts.{count_rules};
ghost use Rattle.case_writing.specs.CaseText.{case_text, upgraded};
ghost use Rattle.netfile.specs.Built.{case_of};
ghost use Rattle.netfile.specs.Verdict.{verdict};
ghost use Rattle.round_trip.specs.Renumbered.{renumbered};
ghost use Rattle.round_trip.specs.Writable.{IsWritable};

/// The law of accepted cases: the case of an accepted text, and that of any lines, however many, on
/// which no pass finds a broken rule, has what a written text must have to be read: numbers and
/// references within their limits, a pipe, and names well spelt, of which no two are equal.
pub fn accepted_is_writable()
    ensures text { (bytes : List ℕ) (case : Case) (mesh : Mesh) → verdict bytes ≡ Ok (case, mesh) →
        IsWritable case }
    ensures lines { (lines : List (List (List ℕ))) → IsEmpty (line_rules lines) →
        IsEmpty (count_rules lines) → AreEmpty (passes (case_of lines)) →
        IsWritable (case_of lines) }
{}

/// The law of accepted texts: the case of a text that is accepted, written in at most 8 MiB, is
/// accepted again and means the same case, its parts on the lines of the new text, and the same
/// mesh.
pub fn accepted_text_reads_back()
    ensures back { (bytes : List ℕ) (case : Case) (mesh : Mesh) → verdict bytes ≡ Ok (case, mesh) →
        length (case_text case) ≤ 8_388_608 →
        verdict (case_text case) ≡ Ok (renumbered case, mesh) }
{}

/// The law of upgraded texts: the case of a text that is accepted, written as version 2 in at most
/// 8 MiB, is accepted and means the same case in that version, its parts on the lines of the new
/// text, and the same mesh.
pub fn upgraded_text_reads_back()
    ensures writable { (case : Case) → IsWritable case → IsWritable (upgraded case) }
    ensures back { (bytes : List ℕ) (case : Case) (mesh : Mesh) → verdict bytes ≡ Ok (case, mesh) →
        length (case_text (upgraded case)) ≤ 8_388_608 →
        verdict (case_text (upgraded case)) ≡ Ok (renumbered (upgraded case), mesh) }
{}
