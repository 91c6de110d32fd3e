//! Parts of a line, by places of bytes (docs/RULES.md, "Places and parts").
ghost use Rattle.std.specs.Prelude.{◌≡◌, ◌≤◌, ◌++◌, length, take, slice_range, IfSome, OnOk};
ghost use Rattle.spec_text.specs.Parts.{Lies, Parts};
ghost use Rattle.spec_script.specs.Spans.{part, place_in, text_in};

use spec_text::Span;
use std::alloc::AllocError;
use std::str;

/// The most bytes that a line has.
pub const LINE_LIMIT: usize = 4096;

/// The part of a text that lies between the places.
pub fn part_of(text: &str, span: Span) -> &str
    requires { Lies text.now span }
    ensures { result.now ≡ slice_range text.now span.0 span.1 }
{
    &text[span.0 as usize..span.1 as usize]
}

/// Adds the part from one place to another, if it has a byte. An error is want of memory.
pub fn push_part(parts: &mut Vec<Span>, from: usize, to: usize) -> Result<(), AllocError>
    requires order { from ≤ to }
    requires low { to ≤ 4096 }
    ensures { OnOk result (parts.new.items ≡ parts.old.items ++ part from to) }
{
    if from < to {
        parts.push((from as u32, to as u32))?;
    }
    Ok(())
}

/// The place in the line of a byte of the kept text, if that has so many.
pub fn place_of(kept: &[Span], byte: usize) -> Option<u32>
    ensures { result ≡ place_in kept.now byte }
{
    let mut left = byte;
    for span in kept {
        let len = span.1.saturating_sub(span.0) as usize;
        if left < len {
            return Some(span.0 + left as u32);
        }
        left -= len;
    }
    None
}

/// The kept text of a line whose parts are one or none.
pub fn whole_text<'a>(text: &'a str, kept: &[Span]) -> Option<&'a str>
    requires { Parts text.now 0 kept.now }
    ensures { IfSome result (λ whole. whole.now ≡ text_in text.now kept.now) }
{
    match kept {
        [] => Some(""),
        [span] => Some(part_of(text, *span)),
        _ => None,
    }
}

/// The kept text of a line: a part of the line where the parts are one, and otherwise a copy in the buffer. It takes
/// no memory.
pub fn joined_text<'a>(text: &'a str, kept: &[Span], buffer: &'a mut [u8; LINE_LIMIT]) -> &'a str
    requires long { length text.now ≤ 4096 }
    requires kept { Parts text.now 0 kept.now }
    ensures { result.now ≡ text_in text.now kept.now }
{
    match kept {
        [] => "",
        [span] => part_of(text, *span),
        _ => {
            let used = copy_parts(text, kept, buffer);
            match str::from_utf8(&buffer[..used]) {
                Ok(joined) => joined,
                Err(_) => unreachable!(),
            }
        }
    }
}

/// Copies the bytes of the kept parts to the front of the buffer, and tells how many they are.
fn copy_parts(text: &str, kept: &[Span], buffer: &mut [u8; LINE_LIMIT]) -> usize
    requires long { length text.now ≤ 4096 }
    requires kept { Parts text.now 0 kept.now }
    ensures within { result ≤ 4096 }
    ensures copied { take result buffer.new ≡ text_in text.now kept.now }
{
    let mut used = 0;
    for span in kept {
        let part = part_of(text, *span).as_bytes();
        buffer[used..used + part.len()].copy_from_slice(part);
        used += part.len();
    }
    used
}
