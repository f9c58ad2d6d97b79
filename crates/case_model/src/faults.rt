//! The law of the first fault.
ghost use Rattle.std.specs.Prelude.{◌≡◌, ℕ, ◌≤◌, Some, None};
ghost use Rattle.case_model.specs.FirstFault.{first_fault, IsFirstFault};
ghost use Rattle.case_model.specs.Meaning.{Meaning};
ghost use Rattle.case_model.specs.Places.{IsBadAt};

/// The law of the first fault: it is the least Bad pair of step and place, and there is none
/// exactly where no place is Bad up to the last step.
pub fn first_fault_is_least()
    ensures least { (law : Meaning) (last step place : ℕ) →
        first_fault law last ≡ Some (step, place) → IsFirstFault law last step place }
    ensures only { (law : Meaning) (last step place : ℕ) → IsFirstFault law last step place →
        first_fault law last ≡ Some (step, place) }
    ensures none { (law : Meaning) (last : ℕ) → first_fault law last ≡ None → (s k : ℕ) → s ≤ last →
        IsBadAt law s k → ⊥ }
    ensures some { (law : Meaning) (last : ℕ) → ((s k : ℕ) → s ≤ last → IsBadAt law s k → ⊥) →
        first_fault law last ≡ None }
{}
