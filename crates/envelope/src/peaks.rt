//! The greater and the lesser of two values with their steps.
ghost use Rattle.std.specs.Prelude.{◌≡◌, ℕ, ◌≤◌, ℤ, ◌≤ℤ◌, true, Option};
ghost use Rattle.case_model.specs.Samples.{IsGreatest, IsSmallest};
ghost use Rattle.envelope.specs.Extremes.{AgreeAlong, either};

/// A value and the first step at which it stands.
#[derive(Clone, Copy)]
pub(crate) struct Peak {
    /// Head in 1e-6 m, or volume in 1e-9 m3.
    pub(crate) value: i64,
    /// The first step at which it stands.
    pub(crate) step: u64,
}

/// The greater value, or of two equal ones the earlier.
pub(crate) fn greater(a: Peak, b: Peak) -> Peak
    ensures taken { (f g : ℕ → Option ℤ) (last : ℕ) → AgreeAlong f g →
        IsGreatest f last a.value a.step → IsGreatest g last b.value b.step →
        IsGreatest (either f g) last result.value result.step }
    ensures early { (step : ℕ) → a.step ≤ step → b.step ≤ step → result.step ≤ step }
    ensures over { a.value ≤ℤ result.value }
{
    if b.value < a.value {
        return a;
    }
    if a.value < b.value {
        return b;
    }
    if b.step < a.step { b } else { a }
}

/// The lesser value, or of two equal ones the earlier.
pub(crate) fn lesser(a: Peak, b: Peak) -> Peak
    ensures taken { (f g : ℕ → Option ℤ) (last : ℕ) → AgreeAlong f g →
        IsSmallest f last a.value a.step → IsSmallest g last b.value b.step →
        IsSmallest (either f g) last result.value result.step }
    ensures early { (step : ℕ) → a.step ≤ step → b.step ≤ step → result.step ≤ step }
    ensures under { result.value ≤ℤ a.value }
{
    if a.value < b.value {
        return a;
    }
    if b.value < a.value {
        return b;
    }
    if a.step <= b.step { a } else { b }
}

/// Whether the first is the greater value, or of two equal ones the earlier.
pub(crate) fn is_over(a: Peak, b: Peak) -> bool
    ensures over { result ≡ true → b.value ≤ℤ a.value }
    ensures taken { result ≡ true → (f g : ℕ → Option ℤ) (last : ℕ) → AgreeAlong f g →
        IsGreatest f last a.value a.step → IsGreatest g last b.value b.step →
        IsGreatest (either f g) last a.value a.step }
{
    if a.value == b.value {
        return a.step <= b.step;
    }
    b.value < a.value
}

/// Whether the first is the lesser value, or of two equal ones the earlier.
pub(crate) fn is_under(a: Peak, b: Peak) -> bool
    ensures under { result ≡ true → a.value ≤ℤ b.value }
    ensures taken { result ≡ true → (f g : ℕ → Option ℤ) (last : ℕ) → AgreeAlong f g →
        IsSmallest f last a.value a.step → IsSmallest g last b.value b.step →
        IsSmallest (either f g) last a.value a.step }
{
    if a.value == b.value {
        return a.step <= b.step;
    }
    a.value < b.value
}
