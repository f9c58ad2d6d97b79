//! The lines of a text and the fields of a line.
ghost use Rattle.std.specs.Prelude.{◌≡◌, ◌-◌, ◌==◌, ◌<◌, ◌≤◌, ◌∷◌, ◌++◌, [], if◌then◌else◌};
ghost use Rattle.std.specs.Prelude.{MatchOption, IfNone, IfOk, length, map, take, filter};
ghost use Rattle.std.specs.Prelude.{slice_index_or};
ghost use Rattle.std.specs.List.{slice_split, position_or_len};
ghost use Rattle.case_lines.specs.Texts.{text_lines, without_return as returned};
ghost use Rattle.case_lines.specs.Texts.{without_comment as uncommented, is_blank as blank};
ghost use Rattle.case_lines.specs.Texts.{is_some as has_bytes, parts_of as parts};
ghost use Rattle.case_lines.specs.Texts.{fields_of as fields};

use std::alloc::{AllocError, Global};

/// The first line of a text without its line end, and the text behind that line; `None` where the
/// text has no line.
pub(crate) fn cut_line(text: &[u8]) -> Option<(&[u8], &[u8])>
    ensures { MatchOption result
        (text_lines text.now ≡ [])
        (λ r. (text_lines text.now ≡ r.0.now ∷ text_lines r.1.now)
        × (length r.1.now < length text.now)) }
{
    if text.is_empty() {
        return None;
    }
    let (line, others) = cut_at_end(text);
    match others {
        Some(rest) => Some((line, rest)),
        None => Some((line, &[])),
    }
}

/// The fields of a line. Fails only for want of memory.
#[tactic(auto, unfolding(crate::specs::Texts::fields_of))]
pub(crate) fn fields_of(alloc: Global, line: &[u8]) -> Result<Vec<&[u8]>, AllocError>
    ensures { IfOk result (λ found. map (λ f. f.now) found.items ≡ fields line.now) }
{
    parts_of(alloc, without_comment(without_return(line)))
}

// The fields of a text without a comment.
#[tactic(auto, unfolding(crate::specs::Texts::parts_of))]
fn parts_of(alloc: Global, text: &[u8]) -> Result<Vec<&[u8]>, AllocError>
    ensures { IfOk result (λ found. map (λ f. f.now) found.items ≡ parts text.now) }
{
    let mut found = Vec::new(alloc);
    let mut rest = Some(text);
    while let Some(left) = rest {
        let (part, others) = cut_at_blank(left);
        add_part(&mut found, part)?;
        rest = others;
    }
    Ok(found)
}

// Adds a part that has bytes.
fn add_part<'a>(found: &mut Vec<&'a [u8]>, part: &'a [u8]) -> Result<(), AllocError>
    ensures { IfOk result (λ u. map (λ f. f.now) found.new.items
        ≡ map (λ f. f.now) found.old.items ++ filter has_bytes (part.now ∷ [])) }
{
    if !part.is_empty() {
        found.push(part)?;
    }
    Ok(())
}

fn without_return(line: &[u8]) -> &[u8]
    ensures { result.now ≡ returned line.now }
{
    match line {
        [] => line,
        [.., last] => {
            if *last == b'\r' {
                &line[..line.len() - 1]
            } else {
                line
            }
        }
    }
}

fn without_comment(line: &[u8]) -> &[u8]
    ensures { result.now ≡ uncommented line.now }
{
    &line[..mark_place(line, b'#')]
}

// The part before the first line end, and the text behind that where there is one.
fn cut_at_end(text: &[u8]) -> (&[u8], Option<&[u8]>)
    ensures parts { MatchOption result.1
        (slice_split (λ b. b == 10) text.now ≡ result.0.now ∷ [])
        (λ rest. (slice_split (λ b. b == 10) text.now
        ≡ result.0.now ∷ slice_split (λ b. b == 10) rest.now)
        × (length rest.now < length text.now)) }
    ensures whole { IfNone result.1 (result.0.now ≡ text.now) }
{
    let end = mark_place(text, b'\n');
    if end == text.len() {
        return (text, None);
    }
    (&text[..end], Some(&text[end + 1..]))
}

// The part before the first blank or tab, and the text behind that where there is one.
fn cut_at_blank(text: &[u8]) -> (&[u8], Option<&[u8]>)
    ensures { MatchOption result.1
        (slice_split blank text.now ≡ result.0.now ∷ [])
        (λ rest. (slice_split blank text.now ≡ result.0.now ∷ slice_split blank rest.now)
        × (length rest.now < length text.now)) }
{
    let end = blank_place(text);
    if end == text.len() {
        return (text, None);
    }
    (&text[..end], Some(&text[end + 1..]))
}

// Where the first mark stands, or the length.
fn mark_place(bytes: &[u8], mark: u8) -> usize
    ensures value { result ≡ position_or_len (λ b. b == mark) bytes.now }
    ensures within { result ≤ length bytes.now }
{
    for (i, b) in bytes.iter().enumerate() {
        if *b == mark {
            return i;
        }
    }
    bytes.len()
}

// Where the first blank or tab stands, or the length.
fn blank_place(bytes: &[u8]) -> usize
    ensures value { result ≡ position_or_len blank bytes.now }
    ensures within { result ≤ length bytes.now }
{
    for (i, b) in bytes.iter().enumerate() {
        if is_blank(*b) {
            return i;
        }
    }
    bytes.len()
}

fn is_blank(byte: u8) -> bool
    ensures { result ≡ blank byte }
{
    byte == b' ' || byte == b'\t'
}
