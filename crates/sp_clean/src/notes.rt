//! Notes (docs/RULES.md, "Notes").
ghost use Rattle.std.specs.Prelude.{◌≡◌, ◌+◌, ◌<◌, ◌≤◌, ◌++◌, not, map, length, IfOk, OnOk, if◌then◌else◌};
ghost use Rattle.std.specs.List.{All, sum_by};
ghost use Rattle.spec_text.specs.Parts.{Parts};
ghost use Rattle.spec_script.specs.Marked.{covered, inside_after, open_at, turns_at};
ghost use Rattle.spec_script.specs.Notes.{note_turns, note_scanned};
ghost use Rattle.spec_script.specs.Spans.{span_len, runs_left, cut_spans};

use crate::parts::{LINE_LIMIT, joined_text, place_of, push_part};
use spec_text::Span;
use std::alloc::{AllocError, Global};
use std::marker::Model;

/// What [`note_scan`] finds in a line.
#[derive(Drop)]
pub struct NoteScan {
    /// The parts in notes, in order.
    pub gone: Vec<Span>,
    /// Whether the next line begins inside a note.
    pub inside: bool,
    /// The place of an opening in this line that the line doesn't close.
    pub unclosed: Option<u32>,
}

impl Model for NoteScan {
    ghost use Rattle.spec_script.specs.Notes.{ScannedNotes};

    ghost Value = { ScannedNotes };

    ghost view = { λ n. record { gone = n.gone.items; inside = n.inside; unclosed = n.unclosed } };
}

/// What of a line's kept parts lies in notes, where each opening is taken as closed later; `inside` says whether the
/// line begins inside a note, as the first line of a stanza never does. Where the stanza ends inside a note, all from
/// the last `unclosed` on is literal, in its line and in those behind it. An error is want of memory.
/// (docs/RULES.md, "Notes")
pub fn note_scan(
    alloc: Global,
    text: &str,
    kept: &[Span],
    inside: bool,
) -> Result<NoteScan, AllocError>
    requires long { length text.now ≤ 4096 }
    requires kept { Parts text.now 0 kept.now }
    ensures value { IfOk result (λ n. n ≡ note_scanned text.now kept.now inside) }
    ensures parts { IfOk result (λ n. Parts text.now 0 n.gone) }
{
    if !inside && !text.as_bytes().contains(&b'[') {
        return Ok(NoteScan {
            gone: Vec::new(alloc),
            inside: false,
            unclosed: None,
        });
    }
    let mut buffer = [0; LINE_LIMIT];
    let bytes = joined_text(text, kept, &mut buffer).as_bytes();
    let notes = flags_of(alloc, bytes, inside)?;
    let gone = flagged_parts(alloc, kept, &notes.flags)?;
    let unclosed = match notes.open {
        Some(byte) => place_of(kept, byte),
        None => None,
    };
    Ok(NoteScan {
        gone,
        inside: notes.inside,
        unclosed,
    })
}

/// Which bytes of a line lie in notes, whether the next line begins inside one, and the opening left unclosed.
#[derive(Drop)]
struct NoteFlags {
    flags: Vec<bool>,
    inside: bool,
    open: Option<usize>,
}

fn flags_of(alloc: Global, bytes: &[u8], began: bool) -> Result<NoteFlags, AllocError>
    ensures flags { IfOk result (λ n. n.flags.items ≡ covered note_turns began bytes.now) }
    ensures inside { IfOk result (λ n. n.inside ≡ inside_after note_turns began bytes.now) }
    ensures opening { IfOk result (λ n. n.«open» ≡ open_at note_turns began None 0 bytes.now) }
{
    let mut flags = Vec::new(alloc);
    let mut inside = began;
    let mut open = None;
    let mut at = 0;
    while at < bytes.len() {
        if turns(bytes, at, inside) {
            flags.push(true)?;
            flags.push(true)?;
            open = opened(inside, at);
            inside = !inside;
            at += 2;
            continue;
        }
        flags.push(inside)?;
        at += 1;
    }
    Ok(NoteFlags {
        flags,
        inside,
        open,
    })
}

/// The opening that is unclosed after a mark at a place: that mark, or none where it closes one.
fn opened(inside: bool, at: usize) -> Option<usize>
    ensures { result ≡ (if inside then None else Some at) }
{
    if inside { None } else { Some(at) }
}

/// Whether the two bytes at a place end the state that the line is in there.
fn turns(bytes: &[u8], at: usize, inside: bool) -> bool
    requires { at < length bytes.now }
    ensures { result ≡ turns_at note_turns inside bytes.now at }
{
    if at + 1 >= bytes.len() {
        return false;
    }
    let mark = if inside { b']' } else { b'[' };
    bytes[at] == mark && bytes[at + 1] == mark
}

/// What is flagged of the kept parts; the flags are those of their bytes, in order.
fn flagged_parts(alloc: Global, kept: &[Span], flags: &[bool]) -> Result<Vec<Span>, AllocError>
    requires order { All (λ span. (span.0 ≤ span.1) × (span.1 ≤ 4096)) kept.now }
    requires all { length flags.now ≡ sum_by span_len kept.now }
    ensures { IfOk result (λ v. v.items ≡ cut_spans kept.now (map not flags.now)) }
{
    let mut parts = Vec::new(alloc);
    let mut used = 0;
    for span in kept {
        let end = used + (span.1 - span.0) as usize;
        push_flagged(&mut parts, span.0 as usize, &flags[used..end])?;
        used = end;
    }
    Ok(parts)
}

/// Adds the longest runs of flagged places; the first flag is that of the place `start`.
fn push_flagged(parts: &mut Vec<Span>, start: usize, flags: &[bool]) -> Result<(), AllocError>
    requires { start + length flags.now ≤ 4096 }
    ensures { OnOk result (parts.new.items ≡ parts.old.items ++ runs_left start start (map not flags.now)) }
{
    let mut from = start;
    let mut at = start;
    for flag in flags {
        if !*flag {
            push_part(parts, from, at)?;
            from = at + 1;
        }
        at += 1;
    }
    push_part(parts, from, at)
}
