//! How fields are spelt: names, references and the first line.
ghost use Rattle.std.specs.Prelude.{◌≡◌, ◌==◌, ◌&&◌, ◌||◌, nat_lt, length, map, slice_index_or};
ghost use Rattle.std.specs.Prelude.{codes};
ghost use Rattle.std.specs.List.{list_all};
ghost use Rattle.std.specs.Str.{bytes_eq};
ghost use Rattle.case_lines.specs.Fields.{field, is_version, is_heading, heading_version, is_name};
ghost use Rattle.case_lines.specs.Fields.{is_name_byte, is_marked, is_reference, referred};

/// A field by its place, counted from 0; an empty one where there is none.
pub fn field<'a>(fields: &[&'a [u8]], place: usize) -> &'a [u8]
    ensures { result.now ≡ field (map (λ f. f.now) fields.now) place }
{
    fields.get(place).copied().unwrap_or(&[])
}

/// Whether fields are those of the first line.
pub(crate) fn is_heading(fields: &[&[u8]]) -> bool
    ensures { result ≡ is_heading (map (λ f. f.now) fields.now) }
{
    fields.len() == 2 && field(fields, 0) == b"surge".as_slice() && is_version(field(fields, 1))
}

fn is_version(text: &[u8]) -> bool
    ensures { result ≡ is_version text.now }
{
    text == b"1".as_slice() || text == b"2".as_slice()
}

/// The version of the case text that the fields of the first line decide.
#[tactic(auto, unfolding(crate::specs::Fields::heading_version))]
pub fn heading_version(fields: &[&[u8]]) -> u8
    ensures { result ≡ heading_version (map (λ f. f.now) fields.now) }
{
    if field(fields, 1) == b"2".as_slice() {
        2
    } else {
        1
    }
}

/// Whether a text is spelt as a name, of whatever length.
pub(crate) fn is_name(text: &[u8]) -> bool
    ensures { result ≡ is_name text.now }
{
    !text.is_empty() && has_name_bytes(text)
}

fn has_name_bytes(text: &[u8]) -> bool
    ensures { result ≡ list_all is_name_byte text.now }
{
    text.iter().all(|b| is_name_byte(*b))
}

fn is_name_byte(byte: u8) -> bool
    ensures { result ≡ is_name_byte byte }
{
    byte.is_ascii_alphanumeric() || byte == b'_' || byte == b'-' || byte == b'.'
}

/// Whether a field begins with the mark of a reference.
pub fn is_marked(text: &[u8]) -> bool
    ensures { result ≡ is_marked text.now }
{
    !text.is_empty() && text[0] == b'@'
}

/// What stands behind that mark.
pub fn referred(text: &[u8]) -> &[u8]
    ensures { result.now ≡ referred text.now }
{
    match text {
        [] => &[],
        [_, name @ ..] => name,
    }
}

/// Whether a field is spelt as a reference, of whatever length.
pub(crate) fn is_reference(text: &[u8]) -> bool
    ensures { result ≡ is_reference text.now }
{
    is_marked(text) && is_name(referred(text))
}
