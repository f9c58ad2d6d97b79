//! Texts of one line of the table.
use std::alloc::{AllocError, Global};

/// The bytes that a piece of the table stands for: `\n`, `\r`, `\t`, `\s` and `\0` stand for
/// a line's end, a return, a tab, a blank and a byte of value 0.
pub(crate) fn bytes_of(alloc: Global, piece: &str) -> Result<Vec<u8>, AllocError> {
    let mut found = Vec::new(alloc);
    let mut marked = false;
    for byte in piece.as_bytes() {
        if marked {
            found.push(meant(*byte))?;
            marked = false;
        } else if *byte == b'\\' {
            marked = true;
        } else {
            found.push(*byte)?;
        }
    }
    Ok(found)
}

// The byte that a letter behind a backslash stands for.
fn meant(letter: u8) -> u8 {
    match letter {
        b's' => b' ',
        b'n' => b'\n',
        b'r' => b'\r',
        b't' => b'\t',
        b'0' => 0,
        _ => letter,
    }
}

/// A piece with a number at each `%`, and the next number at each `&`.
pub(crate) fn numbered(alloc: Global, piece: &str, number: u64) -> Result<String, AllocError> {
    let one = number_text(alloc, number)?;
    let next = number_text(alloc, number.saturating_add(1))?;
    let mut found = String::new(alloc);
    for letter in piece.chars() {
        match letter {
            '%' => found.push_str(&one)?,
            '&' => found.push_str(&next)?,
            _ => found.push(letter)?,
        }
    }
    Ok(found)
}

// A number as text.
fn number_text(alloc: Global, number: u64) -> Result<String, AllocError> {
    format!(in alloc; "{number}")
}

/// A word and what stands behind the blank after it.
pub(crate) fn cut(line: &str) -> (&str, &str) {
    match line.split_once(' ') {
        Some(parts) => parts,
        None => (line, ""),
    }
}

/// The number that a piece spells, else one over each number of the table.
pub(crate) fn number(piece: &str) -> u64 {
    match piece.parse::<u64>() {
        Ok(number) => number,
        Err(_) => u64::MAX,
    }
}
