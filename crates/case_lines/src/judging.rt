//! The least rule that a line breaks by itself.
ghost use Rattle.std.specs.Prelude.{◌≡◌, ◌-◌, ◌≤◌, ◌==◌, ◌&&◌, ◌||◌, ℕ, Bool, true, not, IsTrue};
ghost use Rattle.std.specs.Prelude.{IfSome, length, map};
ghost use Rattle.case_model.specs.Sets.{FindsLeast};
ghost use Rattle.case_lines.specs.Fields.{has_count, is_heading};
ghost use Rattle.case_lines.specs.Alone.{breaks_name, breaks_reference, breaks_number};
ghost use Rattle.case_lines.specs.Alone.{breaks_friction, breaks_field, breaks_fields};
ghost use Rattle.case_lines.specs.Alone.{breaks_counted, breaks_known, breaks_alone};

use crate::amounts::{is_outside, is_spelt, quantity_in};
use crate::counts::{has_count, has_too_many};
use crate::fields::{FieldKind, field_kind};
use crate::lines::Line;
use crate::order::is_disordered;
use crate::quantities::{Quantity, limits};
use crate::spelling::{field, is_heading, is_marked, is_name, is_reference};
use crate::words::{Directive, directive_in, friction_of};

/// The least rule that a line breaks by itself, by the version of the text and its number in the
/// text: 1 first line, 2 unknown word, 3 count of fields, 4 spelling, 5 number out of limits, 10
/// too many or too long, 14 table order. `None` where it breaks none.
#[tactic(auto, unfolding(crate::specs::Alone::breaks_alone))]
pub fn judge_line(version: u8, number: u64, line: &Line) -> Option<u8>
    ensures { FindsLeast (breaks_alone version number line.now) result }
{
    if number == 1 {
        return judge_heading(line.fields());
    }
    if line.count() == 0 {
        return None;
    }
    judge_known(directive_in(version, line.directive()), line.fields())
}

fn judge_heading(fields: &[&[u8]]) -> Option<u8>
    ensures { FindsLeast (λ n. (n == 1) && not (is_heading (map (λ f. f.now) fields.now))) result }
{
    if is_heading(fields) { None } else { Some(1) }
}

// The least rule that a line with this directive breaks.
fn judge_known(directive: Option<Directive>, fields: &[&[u8]]) -> Option<u8>
    requires { 1 ≤ length fields.now }
    ensures { FindsLeast (breaks_known directive (map (λ f. f.now) fields.now)) result }
{
    match directive {
        Some(directive) => {
            if has_count(directive, fields.len()) {
                judge_counted(directive, fields)
            } else {
                Some(3)
            }
        }
        None => Some(2),
    }
}

// The least rule that a line with the right count of fields breaks.
#[tactic(auto, unfolding(crate::specs::Alone::breaks_counted))]
fn judge_counted(directive: Directive, fields: &[&[u8]]) -> Option<u8>
    requires some { 1 ≤ length fields.now }
    requires counted { has_count directive (length fields.now) ≡ true }
    ensures { FindsLeast (breaks_counted directive (map (λ f. f.now) fields.now)) result }
{
    let least = judge_fields(directive, fields);
    if least.is_some() {
        return least;
    }
    if has_too_many(directive, fields.len()) {
        return Some(10);
    }
    if is_disordered(directive, fields) {
        return Some(14);
    }
    None
}

// The least rule that the fields behind the word of a line break.
fn judge_fields(directive: Directive, fields: &[&[u8]]) -> Option<u8>
    requires { 1 ≤ length fields.now }
    ensures least { FindsLeast
        (breaks_fields directive (map (λ f. f.now) fields.now) (length fields.now - 1)) result }
    ensures few { IfSome result (λ n. n ≤ 10) }
{
    let mut least = None;
    for place in 1..fields.len() {
        let found = judge_field(field_kind(directive, place), field(fields, place));
        least = lesser(least, found);
    }
    least
}

// The least rule that a field breaks.
#[tactic(auto, unfolding(crate::specs::Alone::breaks_field))]
fn judge_field(kind: FieldKind, text: &[u8]) -> Option<u8>
    ensures least { FindsLeast (breaks_field kind text.now) result }
    ensures few { IfSome result (λ n. n ≤ 10) }
{
    match kind {
        FieldKind::NewName => judge_name(text),
        FieldKind::NodeName => judge_name(text),
        FieldKind::PipeName => judge_name(text),
        FieldKind::Reference(_) => judge_reference(text),
        FieldKind::Number(quantity) => judge_number(quantity, text),
        FieldKind::Value(quantity, _) => {
            if is_marked(text) {
                judge_reference(text)
            } else {
                judge_number(quantity, text)
            }
        }
        FieldKind::FrictionWord => judge_friction(text),
    }
}

#[tactic(auto, unfolding(crate::specs::Alone::breaks_name))]
fn judge_name(text: &[u8]) -> Option<u8>
    ensures least { FindsLeast (breaks_name text.now) result }
    ensures few { IfSome result (λ n. n ≤ 10) }
{
    if !is_name(text) {
        return Some(4);
    }
    if text.len() > 32 {
        return Some(10);
    }
    None
}

#[tactic(auto, unfolding(crate::specs::Alone::breaks_reference))]
fn judge_reference(text: &[u8]) -> Option<u8>
    ensures least { FindsLeast (breaks_reference text.now) result }
    ensures few { IfSome result (λ n. n ≤ 10) }
{
    if !is_reference(text) {
        return Some(4);
    }
    if text.len() > 33 {
        return Some(10);
    }
    None
}

#[tactic(auto, unfolding(crate::specs::Alone::breaks_number))]
fn judge_number(quantity: Quantity, text: &[u8]) -> Option<u8>
    ensures least { FindsLeast (breaks_number quantity text.now) result }
    ensures few { IfSome result (λ n. n ≤ 10) }
{
    let number = quantity_in(quantity, text);
    if !is_spelt(number) {
        return Some(4);
    }
    if is_outside(limits(quantity), number) {
        return Some(5);
    }
    None
}

#[tactic(auto, unfolding(crate::specs::Alone::breaks_friction))]
fn judge_friction(text: &[u8]) -> Option<u8>
    ensures least { FindsLeast (breaks_friction text.now) result }
    ensures few { IfSome result (λ n. n ≤ 10) }
{
    if friction_of(text).is_some() {
        None
    } else {
        Some(4)
    }
}

/// The lesser of two rules, each the least of its set: the least of both sets.
pub fn lesser(one: Option<u8>, other: Option<u8>) -> Option<u8>
    ensures least { (some others : ℕ → Bool) → FindsLeast some one → FindsLeast others other →
        FindsLeast (λ n. some n || others n) result }
    ensures few { IfSome one (λ n. n ≤ 10) → IfSome other (λ n. n ≤ 10) →
        IfSome result (λ n. n ≤ 10) }
{
    match (one, other) {
        (Some(one), Some(other)) => Some(one.min(other)),
        (Some(one), None) => Some(one),
        (None, other) => other,
    }
}
