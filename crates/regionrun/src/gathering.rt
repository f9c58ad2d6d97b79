//! The folds of all strands, gathered into one.
ghost use Rattle.std.specs.Prelude.{◌≡◌, ℕ, ◌+◌, ◌*◌, ◌<◌, ◌≤◌, List, [], ◌∷◌, length};
ghost use Rattle.case_model.specs.declared.cases.Case.{Case as CaseSeen};
ghost use Rattle.case_model.specs.declared.meshes.Mesh.{Mesh as MeshSeen};
ghost use Rattle.case_model.specs.Meaning.{Meaning};
ghost use Rattle.envelope.specs.Folds.{IsSameFold, Stands, spans_of, steps_of};
ghost use Rattle.envelope.specs.Notings.{nothing};
ghost use Rattle.envelope.specs.Rows.{rows_noted};
ghost use Rattle.envelope.specs.declared.folds.Fold.{Fold as FoldSeen};
ghost use Rattle.regions.specs.declared.shapes.Layout.{Layout};
ghost use Rattle.regionrun.specs.Gathering.{AreDone, AreParts, IsDone, IsPart};
ghost use Rattle.regionrun.specs.Owned.{owned_below};
ghost use Rattle.regionrun.specs.Surveys.{IsStrandFold, IsSurvey, IsWholeFold};
ghost use Rattle.strands.specs.Marks.{marked};

use crate::lawful::layouts_are_lawful;
use crate::one_strand::Strand;
use envelope::{Fold, stands_for_equal_maps};

/// Merges the folds of all strands into one over all places.
pub fn gather<S>(strands: &[Strand<S>], into: &mut Fold)
    requires fits { AreParts into.old strands.now }
    ensures same { IsSameFold into.old into.new }
    ensures stands { (law : Meaning) (layout : Layout) → AreDone law layout strands.now →
        steps_of into.old ≤ layout.windows * layout.window →
        spans_of into.old ≡ (0, law.mesh.places) ∷ [] → Stands into.old nothing →
        Stands into.new (rows_noted law) }
{
    layouts_are_lawful();
    stands_for_equal_maps();
    for strand in strands {
        take_in(strand, into);
    }
}

// Merges the fold of one strand.
fn take_in<S>(strand: &Strand<S>, into: &mut Fold)
    requires part { IsPart into.old strand.now.frontier.fold }
    ensures same { IsSameFold into.old into.new }
    ensures stands { (law : Meaning) (layout : Layout) (x : ℕ) → IsDone law layout x strand.now →
        steps_of into.old ≤ layout.windows * layout.window →
        Stands into.old (marked law (owned_below law.mesh layout.window x)) →
        Stands into.new (marked law (owned_below law.mesh layout.window (x + 1))) }
{
    layouts_are_lawful();
    stands_for_equal_maps();
    into.merge(&strand.frontier.fold);
}

/// The law of strands' folds: each is a part of the fold over all places, also after it was told
/// something.
pub fn strand_folds_are_parts()
    ensures part { (case : CaseSeen) (mesh : MeshSeen) (layout : Layout) (probes : List ℕ) (x : ℕ)
        (whole part : FoldSeen) → IsSurvey case mesh layout probes → x < length layout.shapes →
        IsWholeFold case mesh probes whole → IsStrandFold case mesh layout probes x part →
        IsPart whole part }
    ensures later { (whole one other : FoldSeen) → IsPart whole one → IsSameFold one other →
        IsPart whole other }
{
    layouts_are_lawful();
}
