//! The second pass over a text: the counts of its parts.
ghost use Rattle.std.specs.Prelude.{◌≡◌, ◌==◌, ◌||◌, List, ℕ, Err, IfOk};
ghost use Rattle.case_model.specs.Sets.{IsEmpty, IsLeast};
ghost use Rattle.case_lines.specs.declared.words.Single.{Single};
ghost use Rattle.case_rules.specs.Counts.{are_many, count_rules};
ghost use Rattle.case_rules.specs.Known.{lacks_single};
ghost use Rattle.case_rules.specs.Tallies.{IsTally};

use crate::singles::{Given, single_line};
use crate::tally::Tally;
use case_lines::Single;
use case_model::{CaseFault, MOST_PROBES};

// The most tables of a case.
const MOST_TABLES: u32 = 1_024;

/// The most nodes of a case, and the most of its pipes.
pub(crate) const MOST_PARTS: u32 = 4_096;

/// Whether a text lacks no directive and has not too many parts, by its tally. `Refused` is 8
/// directive missing, or else 10 too many or too long, on line 0.
pub fn judge_counts(tally: &Tally) -> Result<(), CaseFault>
    ensures kept { IfOk result (λ u. (lines : List (List (List ℕ))) → IsTally tally.now lines →
        IsEmpty (count_rules lines)) }
    ensures refused { (number line : ℕ) → result ≡ Err (CaseFault.Refused number line) →
        (lines : List (List (List ℕ))) → IsTally tally.now lines →
        IsLeast (count_rules lines) line number }
{
    if is_incomplete(tally) {
        return Err(CaseFault::Refused { number: 8, line: 0 });
    }
    if is_too_large(tally) {
        return Err(CaseFault::Refused {
            number: 10,
            line: 0,
        });
    }
    Ok(())
}

fn is_incomplete(tally: &Tally) -> bool
    ensures { result ≡ (lacks_single tally.now.singles.items Single.Step
        || lacks_single tally.now.singles.items Single.Steps || (tally.now.pipes.count == 0)) }
{
    is_missing(&tally.singles, Single::Step)
        || is_missing(&tally.singles, Single::Steps)
        || tally.pipes.count == 0
}

// Whether no line has a single directive.
fn is_missing(singles: &[Given], single: Single) -> bool
    ensures { result ≡ lacks_single singles.now single }
{
    single_line(singles, single).is_none()
}

fn is_too_large(tally: &Tally) -> bool
    ensures { result ≡ are_many tally.now.tables.count tally.now.nodes.count tally.now.pipes.count
        tally.now.probes }
{
    tally.tables.count > MOST_TABLES
        || tally.nodes.count > MOST_PARTS
        || tally.pipes.count > MOST_PARTS
        || tally.probes as usize > MOST_PROBES
}
