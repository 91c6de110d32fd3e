//! The runs of a line.
ghost use Rattle.std.specs.Prelude.{◌≡◌, ◌+◌, ◌^◌, ◌<◌, ◌≤◌, List, ◌++◌, None, length, take, replicate, slice_index_or, slice_range, OnOk, IfOk};
ghost use Rattle.std.specs.List.{list_any, sum_by};
ghost use Rattle.spec_text.specs.Parts.{Lies, Parts};
ghost use Rattle.spec_script.specs.declared.Run.{Run};
ghost use Rattle.spec_script.specs.Runs.{RunParts};
ghost use Rattle.spec_script.specs.Spans.{span_len, text_in};
ghost use Rattle.spec_script.specs.Emphasis.{is_markup, seen_run, byte_runs, byte_runs_in, joined, runs_of, part_runs};
ghost use Rattle.sp_emph.specs.Joining.{joined_with};

use crate::joins::Joiner;
use crate::looks::looks_of;
use crate::marks::is_markup;
use spec_script::Run;
use spec_text::Span;
use std::alloc::{AllocError, Global};

/// The bytes of a part of a line.
fn part_of(text: &str, span: Span) -> &[u8]
    requires { Lies text.now span }
    ensures { result.now ≡ slice_range text.now span.0 span.1 }
{
    text[span.0 as usize..span.1 as usize].as_bytes()
}

/// The cleaned text of a line: the bytes of its kept parts.
fn cleaned(alloc: Global, text: &str, kept: &[Span]) -> Result<Vec<u8>, AllocError>
    requires { Parts text.now 0 kept.now }
    ensures { IfOk result (λ v. v.items ≡ text_in text.now kept.now) }
{
    let mut line = Vec::new(alloc);
    for span in kept {
        line.extend_from_slice(part_of(text, *span))?;
    }
    Ok(line)
}

/// How many bytes, from the first on, look like it.
fn stretch_len(looks: &[Option<u8>]) -> usize
    requires { 0 < length looks.now }
    ensures some { 0 < result }
    ensures within { result ≤ length looks.now }
    ensures alike { take result looks.now ≡ replicate result (slice_index_or looks.now 0 None) }
{
    let first = looks[0];
    let mut len = 1;
    while len < looks.len() && looks[len] == first {
        len += 1;
    }
    len
}

/// Adds a piece of the line, if anything is seen of it.
fn add_piece(runs: &mut Joiner, from: u32, to: u32, look: Option<u8>) -> Result<(), AllocError>
    ensures { OnOk result ((more : List Run)
        → joined_with runs.new more ≡ joined_with runs.old (seen_run from to look ++ more)) }
{
    match look {
        Some(style) => runs.add(Run { from, to, style }),
        None => Ok(()),
    }
}

/// Adds what is seen of a part that begins at a place.
fn add_part(runs: &mut Joiner, from: u32, looks: &[Option<u8>]) -> Result<(), AllocError>
    requires { from + length looks.now < 2 ^ 32 }
    ensures { OnOk result ((more : List Run)
        → joined_with runs.new more ≡ joined_with runs.old (byte_runs from looks.now ++ more)) }
{
    let mut place = from;
    let mut rest = looks;
    while !rest.is_empty() {
        let look = rest[0];
        let (piece, after) = rest.split_at(stretch_len(rest));
        let end = place + piece.len() as u32;
        add_piece(runs, place, end, look)?;
        place = end;
        rest = after;
    }
    Ok(())
}

/// The runs of parts, by what is seen of their bytes.
fn seen_runs(alloc: Global, kept: &[Span], looks: &[Option<u8>]) -> Result<Vec<Run>, AllocError>
    requires { sum_by span_len kept.now ≤ length looks.now }
    ensures { IfOk result (λ v. v.items ≡ joined (byte_runs_in kept.now looks.now)) }
{
    let mut runs = Joiner::new(alloc);
    let mut rest = looks;
    for span in kept {
        let (part, after) = rest.split_at(span.1.saturating_sub(span.0) as usize);
        add_part(&mut runs, span.0, part)?;
        rest = after;
    }
    runs.finish()
}

/// Whether a text has a mark or a `\`, without which nothing of it is emphasized or removed.
fn has_markup(text: &str) -> bool
    ensures { result ≡ list_any is_markup text.now }
{
    let mut found = false;
    for byte in text.as_bytes() {
        found |= is_markup(*byte);
    }
    found
}

/// The runs of parts that are seen as they stand.
fn plain_runs(alloc: Global, kept: &[Span]) -> Result<Vec<Run>, AllocError>
    ensures { IfOk result (λ v. v.items ≡ joined (part_runs kept.now)) }
{
    let mut runs = Joiner::new(alloc);
    for span in kept {
        if span.0 >= span.1 {
            continue;
        }
        runs.add(Run {
            from: span.0,
            to: span.1,
            style: 0,
        })?;
    }
    runs.finish()
}

/// The runs of a line, by what is seen of each byte of its cleaned text.
fn marked_runs(alloc: Global, text: &str, kept: &[Span]) -> Result<Vec<Run>, AllocError>
    requires short { length text.now ≤ 4096 }
    requires parts { Parts text.now 0 kept.now }
    ensures { IfOk result (λ v. v.items ≡ runs_of text.now kept.now) }
{
    let line = cleaned(alloc, text, kept)?;
    let looks = looks_of(alloc, &line)?;
    seen_runs(alloc, kept, &looks)
}

/// The visible parts of a line with their styles, in order (docs/RULES.md, "Emphasis"). The line has at most 4,096
/// bytes. The kept parts are what its cleaned text is made of, and runs are parts of the line too, all by places of
/// bytes in it. The error is want of memory alone.
pub fn runs(alloc: Global, text: &str, kept: &[Span]) -> Result<Vec<Run>, AllocError>
    requires short { length text.now ≤ 4096 }
    requires parts { Parts text.now 0 kept.now }
    ensures value { IfOk result (λ v. v.items ≡ runs_of text.now kept.now) }
    ensures parts { IfOk result (λ v. RunParts text.now v.items) }
{
    if !has_markup(text) {
        return plain_runs(alloc, kept);
    }
    marked_runs(alloc, text, kept)
}
