//! The line that tells of a sample.
ghost use Rattle.std.specs.Prelude.{◌≡◌, IfOk};
ghost use Rattle.spec_sample.specs.Sample.{told_line};

use crate::numbers::add_numbered;
use std::alloc::{AllocError, Global};

/// The line that tells of the state behind the session of a sample of so many rooms: how many lines and how many sheets it
/// has, its round, and the digest of all its sheets, in hexadecimal (docs/RULES.md, "The sample"). `AllocError` comes for want
/// of memory alone.
pub fn told_line(
    alloc: Global,
    rooms: u32,
    lines: usize,
    sheets: usize,
    round: u8,
    digest: &str,
) -> Result<Vec<u8>, AllocError>
    ensures { IfOk result (λ line. line.items ≡ told_line rooms lines sheets round digest.now) }
{
    let mut line = Vec::new(alloc);
    add_numbered(&mut line, b"sample ", u64::from(rooms))?;
    add_numbered(&mut line, b": ", lines as u64)?;
    add_numbered(&mut line, b" lines, ", sheets as u64)?;
    add_numbered(&mut line, b" sheets, round ", u64::from(round))?;
    line.extend_from_slice(b", sha256 ")?;
    line.extend_from_slice(digest.as_bytes())?;
    line.extend_from_slice(b"\n")?;
    Ok(line)
}
