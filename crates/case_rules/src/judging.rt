//! The least rule that a line breaks, by itself and among the others.
ghost use Rattle.std.specs.Prelude.{◌≡◌, ◌≤◌, ◌+◌, ◌-◌, ◌==◌, ◌||◌, ◌&&◌, not, false};
ghost use Rattle.std.specs.Prelude.{List as Items, ℕ, length, take};
ghost use Rattle.std.specs.List.{list_any};
ghost use Rattle.case_model.specs.Sets.{FindsLeast};
ghost use Rattle.case_lines.specs.Fields.{field as field_at};
ghost use Rattle.case_rules.specs.Said.{is_definition as is_definition_line, defines};
ghost use Rattle.case_rules.specs.Said.{is_single as is_single_line, is_single_of, defines_part};
ghost use Rattle.case_rules.specs.Known.{AreNames, is_earlier as is_before};
ghost use Rattle.case_rules.specs.Tallies.{IsTally};
ghost use Rattle.case_rules.specs.Among.{is_unknown as is_unknown_in};
ghost use Rattle.case_rules.specs.Among.{uses_unknown as uses_unknown_in, breaks_counted};
ghost use Rattle.case_rules.specs.Among.{breaks_among, breaks_line};

use crate::parts::{Part, directive_said, is_definition, table_part};
use crate::singles::{single_in, single_line};
use crate::tally::Tally;
use case_lines::{
    Directive, FieldKind, Line, directive_in, field_kind, has_count, is_marked, judge_line, lesser,
    referred,
};
use std::collections::HashSet;

// Names with the kind of their parts.
type Names<'a> = HashSet<(Part, &'a [u8])>;

/// The least rule that a line breaks, by itself and among the others, by the tally of all lines and
/// the count of those before it.
#[tactic(auto, unfolding(crate::specs::Among::breaks_line))]
pub(crate) fn judge(tally: &Tally, before: u32, line: &Line) -> Option<u8>
    requires { before ≤ 8_388_608 }
    ensures { (all : Items (Items (Items ℕ))) → IsTally tally.now all →
        FindsLeast (breaks_line (take before all) all (before + 1) line.now) result }
{
    if before > 0 && line.count() == 0 {
        return None;
    }
    let alone = judge_line(tally.version, before as u64 + 1, line);
    if before == 0 {
        return alone;
    }
    let directive = directive_in(tally.version, directive_said(line));
    lesser(alone, judge_among(tally, before, directive, line))
}

// The least rule that a line with this directive breaks among the others.
#[tactic(auto, unfolding(crate::specs::Among::breaks_among))]
fn judge_among(tally: &Tally, before: u32, directive: Option<Directive>, line: &Line) -> Option<u8>
    ensures { (all : Items (Items (Items ℕ))) → IsTally tally.now all →
        FindsLeast (breaks_among (take before all) all directive line.now) result }
{
    let Some(directive) = directive else {
        return None;
    };
    if !has_count(directive, line.count()) {
        return None;
    }
    judge_counted(tally, before, directive, line)
}

// The same where the count of fields is right.
#[tactic(auto, unfolding(crate::specs::Among::breaks_counted))]
fn judge_counted(tally: &Tally, before: u32, directive: Directive, line: &Line) -> Option<u8>
    ensures { (all : Items (Items (Items ℕ))) → IsTally tally.now all →
        FindsLeast (breaks_counted (take before all) all directive line.now) result }
{
    if repeats_name(tally, before, line) {
        return Some(6);
    }
    if uses_unknown(directive, line, &tally.kinds) {
        return Some(7);
    }
    if repeats_single(tally, before, line) {
        return Some(9);
    }
    None
}

// Whether a line defines a name again.
fn repeats_name(tally: &Tally, before: u32, line: &Line) -> bool
    ensures { (all : Items (Items (Items ℕ))) → IsTally tally.now all →
        result ≡ (is_definition_line line.now
        && list_any (defines (field_at line.now 1)) (take before all)) }
{
    is_definition(line) && is_earlier(before, tally.names.get(&line.field(1)).copied())
}

// Whether a line has a single directive again.
fn repeats_single(tally: &Tally, before: u32, line: &Line) -> bool
    ensures { (all : Items (Items (Items ℕ))) → IsTally tally.now all →
        result ≡ (is_single_line line.now
        && list_any (is_single_of (field_at line.now 0)) (take before all)) }
{
    match single_in(directive_said(line)) {
        Some(single) => is_earlier(before, single_line(&tally.singles, single)),
        None => false,
    }
}

// Whether an index is below this count.
fn is_earlier(count: u32, index: Option<u32>) -> bool
    ensures { result ≡ is_before count index }
{
    match index {
        Some(index) => index < count,
        None => false,
    }
}

// Whether a line uses a name that none defines in the kind that is wanted.
fn uses_unknown(directive: Directive, line: &Line, names: &Names) -> bool
    ensures { (all : Items (Items (Items ℕ))) → AreNames names.now all →
        result ≡ uses_unknown_in all directive line.now (length line.now - 1) }
{
    for place in 1..line.count() {
        if is_unknown(field_kind(directive, place), line.field(place), names) {
            return true;
        }
    }
    false
}

// Whether a field uses such a name.
#[tactic(auto, unfolding(crate::specs::Among::is_unknown))]
fn is_unknown(kind: FieldKind, text: &[u8], names: &Names) -> bool
    ensures { (all : Items (Items (Items ℕ))) → AreNames names.now all →
        result ≡ is_unknown_in all kind text.now }
{
    match kind {
        FieldKind::NodeName => !is_known(Part::ANode, text, names),
        FieldKind::PipeName => !is_known(Part::APipe, text, names),
        FieldKind::Reference(kind) => !is_known(table_part(kind), referred(text), names),
        FieldKind::Value(_, kind) => {
            is_marked(text) && !is_known(table_part(kind), referred(text), names)
        }
        _ => false,
    }
}

fn is_known(part: Part, name: &[u8], names: &Names) -> bool
    ensures { (all : Items (Items (Items ℕ))) → AreNames names.now all →
        result ≡ list_any (defines_part part name.now) all }
{
    names.contains(&(part, name))
}
