//! The single directives of a text: where each first stands, and what it gives.
ghost use Rattle.std.specs.Prelude.{◌≡◌, IfOk};
ghost use Rattle.case_lines.specs.declared.words.Single.{Single};
ghost use Rattle.std.specs.Option.{option_or};
ghost use Rattle.case_rules.specs.Known.{given_at, told};
ghost use Rattle.case_rules.specs.Known.{line_told, text_told, seen};
ghost use Rattle.case_rules.specs.Known.{single_here, single_in as single_of_directive};

use crate::parts::directive_said;
use case_lines::{Directive, Line, Single};
use std::alloc::AllocError;

/// What the first line of a single directive gives.
#[derive(Clone, Copy, Debug)]
pub struct Given<'a> {
    /// The directive.
    pub(crate) single: Single,
    /// How many lines stand before its line.
    pub(crate) before: u32,
    /// Its field.
    pub(crate) text: &'a [u8],
}

/// How many lines stand before the first of a single directive, if it is kept.
pub(crate) fn single_line(singles: &[Given], single: Single) -> Option<u32>
    ensures { result ≡ line_told (given_at singles.now single) }
{
    match find_single(singles, single) {
        Some(given) => Some(given.before),
        None => None,
    }
}

/// The field that the first line of a single directive gives, if it is kept.
pub(crate) fn single_text<'a>(singles: &[Given<'a>], single: Single) -> Option<&'a [u8]>
    ensures { seen result ≡ text_told (given_at singles.now single) }
{
    match find_single(singles, single) {
        Some(given) => Some(given.text),
        None => None,
    }
}

// What is kept of a single directive, if anything.
fn find_single<'a>(singles: &[Given<'a>], single: Single) -> Option<Given<'a>>
    ensures { told result ≡ given_at singles.now single }
{
    for given in singles {
        if given.single == single {
            return Some(*given);
        }
    }
    None
}

/// Keeps the single directive of a line that has one, where none is kept yet.
pub(crate) fn add_single<'a>(
    singles: &mut Vec<Given<'a>>,
    before: u32,
    line: &Line<'a>,
) -> Result<(), AllocError>
    ensures { IfOk result (λ u. (single : Single) →
        given_at singles.new.items single
        ≡ option_or (given_at singles.old.items single)
        (single_here single before line.now)) }
{
    if let Some(single) = single_in(directive_said(line)) {
        if single_line(singles, single).is_none() {
            let text = line.field(1);
            singles.push(Given {
                single,
                before,
                text,
            })?;
        }
    }
    Ok(())
}

/// The single directive that a directive is, if any.
pub(crate) fn single_in(directive: Option<Directive>) -> Option<Single>
    ensures { result ≡ single_of_directive directive }
{
    match directive {
        Some(Directive::OfSingle(single)) => Some(single),
        _ => None,
    }
}
