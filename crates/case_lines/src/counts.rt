//! How many fields a line must have.
ghost use Rattle.std.specs.Prelude.{◌≡◌, ◌+◌, ◌*◌, ◌%◌, ◌==◌, ◌&&◌, ◌≤◌, nat_lt, nat_le, length};
ghost use Rattle.case_model.specs.Limits.{least_entries, most_entries};
ghost use Rattle.case_lines.specs.Fields.{has_count as is_counted, has_too_many as is_over};

use crate::fields::node_fields;
use crate::words::Directive;
use case_model::TableKind;

/// Whether a line of so many fields has as many as its directive asks for; a table has a name and
/// whole pairs, and not too few of them.
#[tactic(auto, unfolding(crate::specs::Fields::has_count))]
pub fn has_count(directive: Directive, count: usize) -> bool
    ensures { result ≡ is_counted directive count }
{
    match directive {
        Directive::OfSingle(_) => count == 2,
        Directive::OfTable(kind) => count % 2 == 0 && 2 * least_pairs(kind) + 2 <= count,
        Directive::OfNode(node) => count == node_fields(node).len() + 3,
        Directive::OfPipe => count == 9,
        Directive::OfProbe => count == 3,
        Directive::OfWatch => count == 2,
    }
}

/// Whether a line of so many fields has too many pairs.
#[tactic(auto, unfolding(crate::specs::Fields::has_too_many))]
pub fn has_too_many(directive: Directive, count: usize) -> bool
    ensures { result ≡ is_over directive count }
{
    match directive {
        Directive::OfTable(kind) => 2 * most_pairs(kind) + 2 < count,
        Directive::OfSingle(_)
        | Directive::OfNode(_)
        | Directive::OfPipe
        | Directive::OfProbe
        | Directive::OfWatch => false,
    }
}

// The least count of pairs of a table.
fn least_pairs(kind: TableKind) -> usize
    ensures value { result ≡ least_entries kind }
    ensures few { result ≤ 2 }
{
    match kind {
        TableKind::Heads | TableKind::Flows | TableKind::Openings | TableKind::Speeds => 1,
        TableKind::Curve | TableKind::Gas => 2,
    }
}

// The greatest count of pairs of a table.
fn most_pairs(kind: TableKind) -> usize
    ensures value { result ≡ most_entries kind }
    ensures few { result ≤ most_entries TableKind.Heads }
{
    match kind {
        TableKind::Heads | TableKind::Flows | TableKind::Openings | TableKind::Speeds => 256,
        TableKind::Curve => 32,
        TableKind::Gas => 64,
    }
}
