//! The lines of a text, each with what it says and its fields.
ghost use Rattle.std.specs.Prelude.{◌≡◌, ◌<◌, ◌∷◌, [], List as Items, ℕ, MatchOption, IfOk};
ghost use Rattle.std.specs.Prelude.{length, map};
ghost use Rattle.case_lines.specs.Words.{directive_of as directive_said};
ghost use Rattle.case_lines.specs.Fields.{field as field_at};
ghost use Rattle.case_lines.specs.Texts.{fields_of as fields_cut, lines_of};

use crate::cutting::{cut_line, fields_of};
use crate::spelling::field;
use crate::words::{Directive, directive_of};
use std::alloc::{AllocError, Global};
use std::marker::Model;

/// A line of a case text: its fields, and what the first of them says. Clauses see the fields.
#[derive(Drop)]
pub struct Line<'a> {
    directive: Option<Directive>,
    fields: Vec<&'a [u8]>,
}

impl<'a> Model for Line<'a> {
    ghost Value = { Items (Items ℕ) };

    ghost view = { λ l. map (λ f. f.now) l.fields.items };

    ghost invariant = { λ l. l.directive
        ≡ directive_said (field_at (map (λ f. f.now) l.fields.items) 0) };
}

impl<'a> Line<'a> {
    /// The directive that the first field is, in whatever version; `None` where it is none.
    pub fn directive(&self) -> Option<Directive>
        ensures { result ≡ directive_said (field_at self.now 0) }
    {
        self.directive
    }

    /// The fields, with the word of the directive at place 0.
    pub fn fields(&self) -> &[&'a [u8]]
        ensures { map (λ f. f.now) result.now ≡ self.now }
    {
        &self.fields
    }

    /// A field by its place; an empty one where there is none.
    pub fn field(&self, place: usize) -> &'a [u8]
        ensures { result.now ≡ field_at self.now place }
    {
        field(&self.fields, place)
    }

    /// The count of its fields, the word among them.
    pub fn count(&self) -> usize
        ensures { result ≡ length self.now }
    {
        self.fields.len()
    }
}

/// The first line of a text, and the text behind that line; `None` where the text has no line.
/// Fails only for want of memory.
pub fn next_line<'a>(
    alloc: Global,
    text: &'a [u8],
) -> Result<Option<(Line<'a>, &'a [u8])>, AllocError>
    ensures { IfOk result (λ found. MatchOption found
        (lines_of text.now ≡ [])
        (λ r. (lines_of text.now ≡ r.0 ∷ lines_of r.1.now)
        × (length r.1.now < length text.now))) }
{
    if !text.is_empty() && text[0] == b'\n' {
        let (directive, fields) = (None, Vec::new(alloc));
        return Ok(Some((Line { directive, fields }, &text[1..])));
    }
    match cut_line(text) {
        Some((line, others)) => Ok(Some((line_of(alloc, line)?, others))),
        None => Ok(None),
    }
}

/// The line of this text, which has no line end. Fails only for want of memory.
pub fn line_of<'a>(alloc: Global, text: &'a [u8]) -> Result<Line<'a>, AllocError>
    ensures { IfOk result (λ line. line ≡ fields_cut text.now) }
{
    let fields = fields_of(alloc, text)?;
    let directive = directive_of(field(&fields, 0));
    Ok(Line { directive, fields })
}
