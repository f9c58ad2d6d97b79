//! The pairs of a table and their order.
ghost use Rattle.std.specs.Prelude.{◌≡◌, ◌+◌, ◌-◌, ◌*◌, ◌/◌, ◌<◌, ◌≤◌, ◌&&◌, not, true};
ghost use Rattle.std.specs.Prelude.{unsigned_abs, length, map};
ghost use Rattle.case_lines.specs.Fields.{has_count};
ghost use Rattle.case_lines.specs.Tables.{pair_count as count_of_pairs, pair_at as pair_said};
ghost use Rattle.case_lines.specs.Tables.{rises as may_rise, falls as may_fall};
ghost use Rattle.case_lines.specs.Tables.{may_follow as may_stand_behind};
ghost use Rattle.case_lines.specs.Tables.{may_begin as may_stand_first, follow as all_follow};
ghost use Rattle.case_lines.specs.Tables.{is_ordered as is_in_order};
ghost use Rattle.case_lines.specs.Tables.{is_disordered as is_out_of_order};

use crate::amounts::amount;
use crate::fields::{first_quantity, second_quantity};
use crate::spelling::field;
use crate::words::Directive;
use case_model::TableKind;

/// Pair number `pair` of a table, counted from 0, of the fields of its line.
#[tactic(auto, unfolding(crate::specs::Tables::pair_at))]
pub fn pair_at(kind: TableKind, fields: &[&[u8]], pair: usize) -> (i64, i64)
    requires { 2 * pair + 3 < length fields.now }
    ensures value { result ≡ pair_said kind (map (λ f. f.now) fields.now) pair }
    ensures first { unsigned_abs result.0 ≤ 1_000_000_000_000_000_000 }
    ensures second { unsigned_abs result.1 ≤ 1_000_000_000_000_000_000 }
{
    let first = amount(first_quantity(kind), field(fields, 2 * pair + 2));
    let second = amount(second_quantity(kind), field(fields, 2 * pair + 3));
    (first, second)
}

/// Whether the pairs of a table are in order, by the fields of its line.
#[tactic(auto, unfolding(crate::specs::Tables::is_ordered))]
pub fn is_ordered(kind: TableKind, fields: &[&[u8]]) -> bool
    requires { 4 ≤ length fields.now }
    ensures { result ≡ is_in_order kind (map (λ f. f.now) fields.now) }
{
    may_begin(kind, pair_at(kind, fields, 0)) && follow(kind, fields)
}

// Whether the pairs of a table follow one another.
fn follow(kind: TableKind, fields: &[&[u8]]) -> bool
    requires { 4 ≤ length fields.now }
    ensures { result ≡ all_follow kind (map (λ f. f.now) fields.now)
        (count_of_pairs (length fields.now)) }
{
    let mut before = pair_at(kind, fields, 0);
    for pair in 1..(fields.len() - 2) / 2 {
        let next = pair_at(kind, fields, pair);
        if !may_follow(kind, before, next) {
            return false;
        }
        before = next;
    }
    true
}

#[tactic(auto, unfolding(crate::specs::Tables::may_follow))]
fn may_follow(kind: TableKind, before: (i64, i64), next: (i64, i64)) -> bool
    requires { unsigned_abs before.0 ≤ 1_000_000_000_000_000_000 }
    ensures { result ≡ may_stand_behind kind before next }
{
    rises(kind, before.0, next.0) && falls(kind, before.1, next.1)
}

fn rises(kind: TableKind, x: i64, y: i64) -> bool
    requires { unsigned_abs x ≤ 1_000_000_000_000_000_000 }
    ensures { result ≡ may_rise kind x y }
{
    match kind {
        TableKind::Curve => x + 1_000 <= y,
        _ => x + 1 <= y,
    }
}

fn falls(kind: TableKind, x: i64, y: i64) -> bool
    ensures { result ≡ may_fall kind x y }
{
    match kind {
        TableKind::Curve => y < x,
        TableKind::Gas => y < x,
        _ => true,
    }
}

fn may_begin(kind: TableKind, first: (i64, i64)) -> bool
    ensures { result ≡ may_stand_first kind first }
{
    match kind {
        TableKind::Curve => first.0 == 0,
        _ => true,
    }
}

/// Whether a line is a table that is not in order, by its fields.
#[tactic(auto, unfolding(crate::specs::Tables::is_disordered))]
pub(crate) fn is_disordered(directive: Directive, fields: &[&[u8]]) -> bool
    requires { has_count directive (length fields.now) ≡ true }
    ensures { result ≡ is_out_of_order directive (map (λ f. f.now) fields.now) }
{
    match directive {
        Directive::OfTable(kind) => !is_ordered(kind, fields),
        _ => false,
    }
}
