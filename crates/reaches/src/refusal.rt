//! The least of the broken rules.
ghost use Rattle.std.specs.Prelude.{ℕ, Bool, Option, Some};
ghost use Rattle.case_model.specs.Sets.{Rules, FindsLeast, on_line, either};
ghost use Rattle.case_model.specs.Bounds.{LeastOrNone};

use std::marker::Model;

/// A broken rule by its number, and the line on which it is broken.
#[derive(Drop, Debug)]
pub(crate) struct Refusal {
    pub(crate) line: u32,
    pub(crate) number: u8,
}

impl Model for Refusal {
    ghost use Rattle.case_model.specs.Search.{Refusal as Broken};

    ghost Value = { Broken };

    ghost view = { λ r. record { number = r.number; line = r.line } };
}

/// The refusal of the least rule that an item on this line breaks.
pub(crate) fn on(line: u32, number: Option<u8>) -> Option<Refusal>
    ensures { (breaks : ℕ → Bool) → FindsLeast breaks number →
        LeastOrNone (on_line line breaks) result }
{
    match number {
        Some(number) => Some(Refusal { line, number }),
        None => None,
    }
}

/// The lesser of two refusals, by line and then by number.
pub(crate) fn lesser(one: Option<Refusal>, other: Option<Refusal>) -> Option<Refusal>
    ensures { (some others : Rules) → LeastOrNone some one → LeastOrNone others other →
        LeastOrNone (either some others) result }
{
    match (one, other) {
        (Some(one), Some(other)) => Some(lesser_of(one, other)),
        (Some(one), None) => Some(one),
        (None, other) => other,
    }
}

fn lesser_of(one: Refusal, other: Refusal) -> Refusal
    ensures { (some others : Rules) → LeastOrNone some (Some one) →
        LeastOrNone others (Some other) → LeastOrNone (either some others) (Some result) }
{
    if one.line < other.line || one.line == other.line && one.number <= other.number {
        one
    } else {
        other
    }
}
