//! The law of refusals.
ghost use Rattle.std.specs.Prelude.{◌≡◌, ℕ, List, Option, Some, None};
ghost use Rattle.std.specs.List.{range_with_len};
ghost use Rattle.case_model.specs.Sets.{Rules, AreEmpty, IsFirst};
ghost use Rattle.case_model.specs.Search.{Refusal, first_of};
ghost use Rattle.case_model.specs.Bounds.{IsRising, AreBounded};

/// The law of refusals: where passes of rules hold no pair beyond the lines and numbers that are
/// searched, the search finds exactly the least pair of the first pass that has one, and none
/// exactly where all passes are empty.
pub fn refusals_are_least()
    ensures found { (passes : List Rules) (numbers : List ℕ) (count line number : ℕ) →
        IsRising numbers → AreBounded numbers count passes → IsFirst passes line number
        → first_of passes numbers (range_with_len 0 count)
        ≡ Some (record { number = number; line = line }) }
    ensures least { (passes : List Rules) (numbers : List ℕ) (count : ℕ) (r : Refusal) →
        IsRising numbers → AreBounded numbers count passes
        → first_of passes numbers (range_with_len 0 count) ≡ Some r →
        IsFirst passes r.line r.number }
    ensures none { (passes : List Rules) (numbers : List ℕ) (count : ℕ) → IsRising numbers →
        AreBounded numbers count passes → AreEmpty passes
        → first_of passes numbers (range_with_len 0 count) ≡ None }
    ensures empty { (passes : List Rules) (numbers : List ℕ) (count : ℕ) → IsRising numbers →
        AreBounded numbers count passes
        → first_of passes numbers (range_with_len 0 count) ≡ None → AreEmpty passes }
{}
