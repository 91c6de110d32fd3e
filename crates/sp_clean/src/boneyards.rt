//! Boneyards, and the sorts of lines (docs/RULES.md, "Boneyards" and "Sorts of lines").
ghost use Rattle.std.specs.Prelude.{◌≡◌, ◌==◌, ◌<◌, ◌≤◌, ◌&&◌, ◌||◌, length, IfOk};
ghost use Rattle.std.specs.List.{list_all};
ghost use Rattle.spec_text.specs.Parts.{Parts};
ghost use Rattle.spec_script.specs.Marked.{covered, inside_after, turns_at};
ghost use Rattle.spec_script.specs.Boneyards.{yard_turns, sort_by, scanned};
ghost use Rattle.spec_script.specs.Trim.{is_space};
ghost use Rattle.spec_script.specs.Spans.{runs_left, is_touched, text_in};

use crate::parts::{part_of, push_part};
use crate::spaces::all_spaces;
use spec_script::Sort;
use spec_text::Span;
use std::alloc::{AllocError, Global};
use std::marker::Model;

/// What [`scan`] finds in a line.
#[derive(Drop)]
pub struct LineScan {
    /// The parts outside boneyards, in order.
    pub kept: Vec<Span>,
    /// Whether the next line begins inside a boneyard.
    pub inside: bool,
    /// What the line is before notes are looked for.
    pub sort: Sort,
}

impl Model for LineScan {
    ghost use Rattle.spec_script.specs.Boneyards.{ScannedLine};

    ghost Value = { ScannedLine };

    ghost view = { λ s. record { kept = s.kept.items; inside = s.inside; sort = s.sort } };
}

/// The parts of a line outside boneyards, whether the next line begins inside one, and the line's sort; `inside` says
/// whether this line begins inside one, as the first line of a text never does. An error is want of memory.
/// (docs/RULES.md, "Boneyards" and "Sorts of lines")
pub fn scan(alloc: Global, text: &str, inside: bool) -> Result<LineScan, AllocError>
    requires { length text.now ≤ 4096 }
    ensures value { IfOk result (λ s. s ≡ scanned text.now inside) }
    ensures parts { IfOk result (λ s. Parts text.now 0 s.kept) }
{
    let bytes = text.as_bytes();
    let outside = outside_yards(alloc, bytes, inside)?;
    let sort = sort(text, &outside.kept, outside.touched);
    Ok(LineScan {
        kept: outside.kept,
        inside: outside.inside,
        sort,
    })
}

/// What is outside boneyards in a line, and whether a boneyard touches it.
#[derive(Drop)]
struct Outside {
    kept: Vec<Span>,
    inside: bool,
    touched: bool,
}

fn outside_yards(alloc: Global, bytes: &[u8], inside: bool) -> Result<Outside, AllocError>
    requires { length bytes.now ≤ 4096 }
    ensures kept { IfOk result (λ p. p.kept.items ≡ runs_left 0 0 (covered yard_turns inside bytes.now)) }
    ensures inside { IfOk result (λ p. p.inside ≡ inside_after yard_turns inside bytes.now) }
    ensures touched { IfOk result (λ p. p.touched ≡ (inside || is_touched (covered yard_turns inside bytes.now))) }
{
    let mut kept = Vec::new(alloc);
    if !inside && !bytes.contains(&b'/') {
        push_part(&mut kept, 0, bytes.len())?;
        return Ok(Outside {
            kept,
            inside: false,
            touched: false,
        });
    }
    let mut inside = inside;
    let mut touched = inside;
    let mut from = 0;
    let mut at = 0;
    while at < bytes.len() {
        if turns(bytes, at, inside) {
            push_part(&mut kept, from, at)?;
            inside = !inside;
            touched = true;
            at += 2;
            from = at;
            continue;
        }
        at += 1;
        if inside {
            from = at;
        }
    }
    push_part(&mut kept, from, at)?;
    Ok(Outside {
        kept,
        inside,
        touched,
    })
}

/// Whether the two bytes at a place end the state that the line is in there.
fn turns(bytes: &[u8], at: usize, inside: bool) -> bool
    requires { at < length bytes.now }
    ensures { result ≡ turns_at yard_turns inside bytes.now at }
{
    if at + 1 >= bytes.len() {
        return false;
    }
    if inside {
        bytes[at] == b'*' && bytes[at + 1] == b'/'
    } else {
        bytes[at] == b'/' && bytes[at + 1] == b'*'
    }
}

/// The sort of a line by its kept parts, and whether it begins in a boneyard or has a part of one.
fn sort(text: &str, kept: &[Span], touched: bool) -> Sort
    requires { Parts text.now 0 kept.now }
    ensures { result ≡ sort_by text.now (text_in text.now kept.now) touched }
{
    if !only_spaces(text, kept) {
        Sort::Plain
    } else if touched {
        Sort::Absent
    } else if text.len() >= 2 && all_blank(text.as_bytes()) {
        Sort::Held
    } else {
        Sort::Empty
    }
}

/// Whether the parts have only spaces.
fn only_spaces(text: &str, kept: &[Span]) -> bool
    requires { Parts text.now 0 kept.now }
    ensures { result ≡ list_all is_space (text_in text.now kept.now) }
{
    for span in kept {
        if !all_spaces(part_of(text, *span).as_bytes()) {
            return false;
        }
    }
    true
}

/// Whether each byte is U+0020.
fn all_blank(bytes: &[u8]) -> bool
    ensures { result ≡ list_all (λ b. b == 32) bytes.now }
{
    bytes.iter().all(|b| *b == b' ')
}
