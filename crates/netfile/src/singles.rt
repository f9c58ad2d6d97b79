//! What the single directives of a text give.
ghost use Rattle.std.specs.Prelude.{◌≡◌, ◌==◌, List as Items, ℕ, unwrap_or, if◌then◌else◌};
ghost use Rattle.case_rules.specs.Known.{single_word};
ghost use Rattle.case_rules.specs.Tallies.{IsTally};
ghost use Rattle.netfile.specs.Built.{single_amount, friction_from};
ghost use Rattle.netfile.specs.Settings.{amount_by, friction_told};

use case_lines::{Quantity, Single, amount, friction_of};
use case_model::Friction;
use case_rules::Tally;

/// What the first line of a single directive gives, or the default where there is no such line.
pub(crate) fn single_amount(tally: &Tally, single: Single, quantity: Quantity, default: i64) -> i64
    ensures { (lines : Items (Items (Items ℕ))) → IsTally tally.now lines →
        result ≡ single_amount (single_word single) quantity default lines }
{
    match tally.text(single) {
        Some(text) => amount(quantity, text),
        None => default,
    }
}

/// How friction is taken, by the version of the text.
#[tactic(auto, unfolding(crate::specs::Built::friction_from))]
pub(crate) fn friction_from(tally: &Tally) -> Friction
    ensures { (lines : Items (Items (Items ℕ))) → IsTally tally.now lines →
        result ≡ friction_from tally.now.version lines }
{
    if tally.version == 1 {
        return Friction::Explicit;
    }
    match tally.text(Single::FrictionForm) {
        Some(text) => friction_of(text).unwrap_or(Friction::Explicit),
        None => Friction::Explicit,
    }
}
