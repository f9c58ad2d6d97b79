//! What division keeps of a case. No function here does anything: each contract is a law.
ghost use Rattle.case_model.specs.declared.cases.Case.{Case as CaseSeen};
ghost use Rattle.case_model.specs.Division.{mesh_of};
ghost use Rattle.case_model.specs.Kept.{IsKept, HasParts};
ghost use Rattle.case_model.specs.Refusals.{passes};
ghost use Rattle.case_model.specs.Sets.{AreEmpty};

/// The law of accepted cases: where no rule of division is broken, each pipe, node and probe keeps
/// the rules on it, and the mesh has the parts of its case.
pub fn accepted_cases_are_kept()
    ensures kept { (case : CaseSeen) → AreEmpty (passes case) → IsKept case }
    ensures parts { (case : CaseSeen) → HasParts case (mesh_of case) }
{}
