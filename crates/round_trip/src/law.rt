//! Laws of the round trip of a case.
ghost use Rattle.std.specs.Prelude.{◌≡◌, ◌≤◌, Ok, length};
ghost use Rattle.case_model.specs.declared.cases.Case.{Case};
ghost use Rattle.case_model.specs.Division.{mesh_of};
ghost use Rattle.case_model.specs.Refusals.{passes};
ghost use Rattle.case_model.specs.Sets.{AreEmpty};
ghost use Rattle.case_writing.specs.CaseText.{case_text};
ghost use Rattle.netfile.specs.Built.{case_of};
ghost use Rattle.netfile.specs.Verdict.{all_passes, verdict};
ghost use Rattle.round_trip.specs.Lines.{case_lines};
ghost use Rattle.round_trip.specs.Renumbered.{renumbered};
ghost use Rattle.round_trip.specs.Writable.{IsWritable};

/// The law of the lines of a written case: they say the case, each part on the line where it
/// stands, and break no rule; neither the rules of division nor the mesh hang on the lines of
/// parts.
pub fn written_case_is_its_lines()
    ensures case { (case : Case) → IsWritable case → case_of (case_lines case) ≡ renumbered case }
    ensures kept { (case : Case) → IsWritable case → AreEmpty (all_passes (case_lines case)) }
    ensures divided { (case : Case) → AreEmpty (passes case) → AreEmpty (passes (renumbered case)) }
    ensures mesh { (case : Case) → mesh_of (renumbered case) ≡ mesh_of case }
{}

/// The law of the round trip: the written text of a case, of at most 8 MiB, means that case with
/// its parts on the lines where the text has them, and its mesh.
pub fn written_text_reads_back()
    ensures verdict { (case : Case) → IsWritable case → length (case_text case) ≤ 8_388_608 →
        verdict (case_text case) ≡ Ok (renumbered case, mesh_of (renumbered case)) }
    ensures mesh { (case : Case) → IsWritable case → length (case_text case) ≤ 8_388_608 →
        verdict (case_text case) ≡ Ok (renumbered case, mesh_of case) }
{}

/// The law that a written text stays as it is: the case that it gives back has the same text, and
/// that text gives the same case.
pub fn written_text_is_steady()
    ensures text { (case : Case) → case_text (renumbered case) ≡ case_text case }
    ensures case { (case : Case) → renumbered (renumbered case) ≡ renumbered case }
{}
