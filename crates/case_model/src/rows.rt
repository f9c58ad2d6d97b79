//! The laws of the mesh row by row.
ghost use Rattle.std.specs.Prelude.{◌≡◌, ℕ, ◌+◌, ◌-◌, ◌<◌, true, false, All};
ghost use Rattle.case_model.specs.Meaning.{Meaning, IsMeaning};
ghost use Rattle.case_model.specs.Mesh.{reaches};
ghost use Rattle.case_model.specs.Range.{IsPoint, IsState};
ghost use Rattle.case_model.specs.Rows.{near, end_point, row, points, states};

/// The laws of the mesh row by row: the first is the law's start, each later one is made of the one
/// before alone, and over a law in range all is in range.
pub fn rows_follow_the_law()
    ensures start_state { (law : Meaning) (k : ℕ) → (row law 0).state k ≡ law.start_node k }
    ensures start_point { (law : Meaning) (p i : ℕ) →
        ((row law 0).point p i) ≡ law.start_point p i }
    ensures state { (law : Meaning) (s k : ℕ) →
        (row law (s + 1)).state k ≡ law.node k (s + 1) ((row law s).state k)
        (near law.mesh (row law s) k) }
    ensures first { (law : Meaning) (s p : ℕ) →
        ((row law (s + 1)).point p 0) ≡ end_point law (s + 1) (row law s) p false }
    ensures last { (law : Meaning) (s p i : ℕ) → 0 < i → i ≡ reaches law.mesh p →
        ((row law (s + 1)).point p i) ≡ end_point law (s + 1) (row law s) p true }
    ensures inside { (law : Meaning) (s p i : ℕ) → 0 < i → i < reaches law.mesh p →
        ((row law (s + 1)).point p i)
        ≡ law.inner p i ((row law s).point p (i - 1)) ((row law s).point p i)
        ((row law s).point p (i + 1)) }
    ensures points_in_range { (law : Meaning) → IsMeaning law → (s p : ℕ) →
        All IsPoint (points law s p) }
    ensures states_in_range { (law : Meaning) → IsMeaning law → (s : ℕ) →
        All IsState (states law s) }
{}
