//! The earlier of two faults.
ghost use Rattle.std.specs.Prelude.{◌≡◌, ◌⊎◌, ℕ, List};
ghost use Rattle.envelope.specs.Faults.{HasFault, IsEarlier};
ghost use Rattle.envelope.specs.Notings.{Noted, Agree, union};

/// The earlier of two faults, by step and then by place.
pub(crate) fn earlier(a: Option<(u64, u64)>, b: Option<(u64, u64)>) -> Option<(u64, u64)>
    ensures { (spans : List (ℕ × ℕ)) (last : ℕ) (map more : Noted) → Agree map more →
        HasFault spans last map a → HasFault spans last more b →
        HasFault spans last (union map more) result }
{
    match (a, b) {
        (Some(a), Some(b)) => Some(earlier_pair(a, b)),
        (Some(a), None) => Some(a),
        (None, other) => other,
    }
}

fn earlier_pair(a: (u64, u64), b: (u64, u64)) -> (u64, u64)
    ensures { ((result ≡ a) × IsEarlier a b) ⊎ ((result ≡ b) × IsEarlier b a) }
{
    if b.0 < a.0 {
        return b;
    }
    if a.0 == b.0 && b.1 < a.1 { b } else { a }
}
