//! What a law in range makes.
ghost use Rattle.case_model.specs.Meaning.{Meaning, IsMeaning};

use case_model::Law;

// From what is in range a law makes only what is in range.
pub(crate) fn keeps_range<L: Law>(law: &L)
    ensures { IsMeaning (L.meaning law.now) }
{
    let _ = law;
}
