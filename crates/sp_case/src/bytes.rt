//! The bytes that the lines of a case say.
use crate::lines::{line_of, repeated};
use std::alloc::{AllocError, Global};

/// The number of spaces before the first bracket, and what stands behind that; none for 0.
fn spaces(text: &str) -> Option<(usize, &str)> {
    let (digits, rest) = text.split_once(']')?;
    match digits.parse() {
        Ok(count) if count > 0 => Some((count, rest)),
        _ => None,
    }
}

/// Adds a byte so many times.
fn add_times(bytes: &mut Vec<u8>, count: usize, byte: u8) -> Result<(), AllocError> {
    for _ in 0..count {
        bytes.push(byte)?;
    }
    Ok(())
}

/// Adds a text in which `[n]` stands for n spaces, but `[0]` for itself.
fn add_spaced(bytes: &mut Vec<u8>, text: &str) -> Result<(), AllocError> {
    let mut pieces = text.split('[');
    bytes.extend_from_slice(pieces.next().unwrap_or("").as_bytes())?;
    for piece in pieces {
        match spaces(piece) {
            Some((count, rest)) => {
                add_times(bytes, count, b' ')?;
                bytes.extend_from_slice(rest.as_bytes())?;
            }
            None => {
                bytes.push(b'[')?;
                bytes.extend_from_slice(piece.as_bytes())?;
            }
        }
    }
    Ok(())
}

/// Adds bytes, each written as the character of its number.
fn add_bytes(bytes: &mut Vec<u8>, line: &str) -> Result<(), AllocError> {
    for char in line.chars() {
        bytes.push(u8::try_from(char).unwrap_or(b'?'))?;
    }
    Ok(())
}

/// Adds the header of a sheet with this label, and the empty line below it.
fn add_header(bytes: &mut Vec<u8>, label: &str) -> Result<(), AllocError> {
    if !label.is_empty() {
        add_times(bytes, 74usize.saturating_sub(label.len()), b' ')?;
        bytes.extend_from_slice(label.as_bytes())?;
        bytes.push(b'.')?;
    }
    bytes.extend_from_slice(b"\n\n")?;
    Ok(())
}

/// Adds a text so many times.
fn add_repeated(bytes: &mut Vec<u8>, line: &str) -> Result<(), AllocError> {
    let (count, text) = repeated(line);
    for _ in 0..count {
        bytes.extend_from_slice(text.as_bytes())?;
    }
    Ok(())
}

/// Adds the bytes that a line of a kind says.
fn add(bytes: &mut Vec<u8>, kind: u8, rest: &str) -> Result<(), AllocError> {
    match kind {
        b'#' => return add_header(bytes, rest),
        b'+' => return add_spaced(bytes, rest),
        b'^' | b'"' | b'\'' => return add_bytes(bytes, rest),
        b'<' | b':' => add_spaced(bytes, rest)?,
        b'(' | b')' => add_repeated(bytes, rest)?,
        _ => bytes.extend_from_slice(rest.as_bytes())?,
    }
    bytes.push(b'\n')?;
    Ok(())
}

/// The bytes that the lines of some kinds say. A sheet ends with a form feed, where a line is no row of it.
pub fn said(alloc: Global, text: &str, kinds: &[u8]) -> Result<Vec<u8>, AllocError> {
    let mut bytes = Vec::new(alloc);
    let mut in_sheet = false;
    for line in text.split('\n') {
        let it = line_of(line);
        if !kinds.contains(&it.kind) {
            continue;
        }
        if in_sheet && it.kind != b':' {
            bytes.push(b'\x0c')?;
        }
        in_sheet = it.kind == b'#' || (in_sheet && it.kind == b':');
        for _ in 0..it.count {
            add(&mut bytes, it.kind, it.rest)?;
        }
    }
    if in_sheet {
        bytes.push(b'\x0c')?;
    }
    Ok(bytes)
}

/// What has to be written.
pub fn written_of(alloc: Global, text: &str) -> Result<Vec<u8>, AllocError> {
    said(alloc, text, b"#:<+")
}
