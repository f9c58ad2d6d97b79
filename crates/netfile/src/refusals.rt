//! Laws of the verdict on a text.
ghost use Rattle.std.specs.Prelude.{◌≡◌, ℕ, List, Option, Some, None, Result};
ghost use Rattle.case_model.specs.declared.cases.Case.{Case};
ghost use Rattle.case_model.specs.declared.meshes.Mesh.{Mesh};
ghost use Rattle.case_model.specs.Search.{Refusal};
ghost use Rattle.case_model.specs.Sets.{AreEmpty, IsFirst};
ghost use Rattle.netfile.specs.Verdict.{all_passes, refusal_of, verdict, IsVerdict};

/// The law of the refusal of lines: it is the least broken rule, by line and then by number, of the
/// first pass that has one, and there is none exactly where no pass has one.
pub fn refusals_are_first()
    ensures first { (lines : List (List (List ℕ))) (r : Refusal) → refusal_of lines ≡ Some r →
        IsFirst (all_passes lines) r.line r.number }
    ensures none { (lines : List (List (List ℕ))) → refusal_of lines ≡ None →
        AreEmpty (all_passes lines) }
    ensures only { (lines : List (List (List ℕ))) (line number : ℕ) →
        IsFirst (all_passes lines) line number →
        refusal_of lines ≡ Some (record { number = number; line = line }) }
    ensures empty { (lines : List (List (List ℕ))) → AreEmpty (all_passes lines) →
        refusal_of lines ≡ None }
{}

/// The law of the verdict on a text: over 8 MiB it is refusal 10 on line 0; else the least broken
/// rule, by line and then by number, of the first pass that has one; else the case that its lines
/// say and the mesh of that case. It is nothing else.
pub fn verdict_is_first()
    ensures so { (bytes : List ℕ) → IsVerdict bytes (verdict bytes) }
    ensures only { (bytes : List ℕ) (v : Result (Case × Mesh) Refusal) → IsVerdict bytes v →
        verdict bytes ≡ v }
{}
