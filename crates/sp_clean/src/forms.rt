//! The forms of a line that stand by themselves (docs/RULES.md, "Letter tests").
ghost use Rattle.std.specs.Prelude.{◌≡◌, ◌==◌, ◌≤◌, ◌&&◌, ◌||◌, not, codes, length, slice_index_or};
ghost use Rattle.std.specs.List.{ends_with};
ghost use Rattle.spec_text.specs.Parts.{Parts};
ghost use Rattle.spec_script.specs.Trim.{trim};
ghost use Rattle.spec_script.specs.Spans.{text_in};
ghost use Rattle.spec_script.specs.Letters.{begins_with_one, is_uppercase};
ghost use Rattle.spec_script.specs.Forms.{opens_with, is_natural_heading, is_forced_heading, is_natural_transition, is_natural_cue, without_caret, cue_name};

use crate::letters::{begins_alphanumeric, begins_with_one, begins_with_word, ends, is_uppercase};
use crate::parts::{LINE_LIMIT, joined_text, whole_text};
use crate::spaces::trim;
use spec_text::Span;

/// Whether the kept text of a line, trimmed, is a natural heading. It takes no memory.
/// (docs/RULES.md, "Letter tests")
pub fn is_heading(text: &str, kept: &[Span]) -> bool
    requires long { length text.now ≤ 4096 }
    requires kept { Parts text.now 0 kept.now }
    ensures { result ≡ is_natural_heading (trim (text_in text.now kept.now)) }
{
    match whole_text(text, kept) {
        Some(whole) => is_natural_heading(trim(whole)),
        None => {
            let mut buffer = [0; LINE_LIMIT];
            is_natural_heading(trim(joined_text(text, kept, &mut buffer)))
        }
    }
}

/// Whether the kept text of a line is a natural transition. It takes no memory. (docs/RULES.md, "Letter tests")
pub fn is_transition(text: &str, kept: &[Span]) -> bool
    requires long { length text.now ≤ 4096 }
    requires kept { Parts text.now 0 kept.now }
    ensures { result ≡ is_natural_transition (text_in text.now kept.now) }
{
    match whole_text(text, kept) {
        Some(whole) => is_natural_transition(whole),
        None => {
            let mut buffer = [0; LINE_LIMIT];
            is_natural_transition(joined_text(text, kept, &mut buffer))
        }
    }
}

/// Whether the kept text of a line, trimmed, is a natural cue. It takes no memory. (docs/RULES.md, "Letter tests")
pub fn is_cue(text: &str, kept: &[Span]) -> bool
    requires long { length text.now ≤ 4096 }
    requires kept { Parts text.now 0 kept.now }
    ensures { result ≡ is_natural_cue (trim (text_in text.now kept.now)) }
{
    match whole_text(text, kept) {
        Some(whole) => is_natural_cue(trim(whole)),
        None => {
            let mut buffer = [0; LINE_LIMIT];
            is_natural_cue(trim(joined_text(text, kept, &mut buffer)))
        }
    }
}

fn is_natural_heading(text: &str) -> bool
    ensures { result ≡ is_natural_heading text.now }
{
    let bytes = text.as_bytes();
    opens_with(bytes, b"INT")
        || opens_with(bytes, b"EXT")
        || opens_with(bytes, b"EST")
        || opens_with(bytes, b"INT./EXT")
        || opens_with(bytes, b"INT/EXT")
        || opens_with(bytes, b"I/E")
}

/// Whether a text begins with the word, ASCII letter case ignored, and `.` or U+0020 follows.
fn opens_with(text: &[u8], word: &[u8]) -> bool
    ensures { result ≡ opens_with text.now word.now }
{
    begins_with_word(text, word) && ends_word(text, word.len())
}

/// Whether `.` or U+0020 stands at a place.
fn ends_word(text: &[u8], at: usize) -> bool
    ensures { result ≡ ((slice_index_or text.now at 0 == 46) || (slice_index_or text.now at 0 == 32)) }
{
    at < text.len() && (text[at] == b'.' || text[at] == b' ')
}

/// Whether a trimmed text is a forced heading: it begins with `.` and an alphanumeric character.
/// (docs/RULES.md, "Letter tests")
pub fn is_forced_heading(text: &str) -> bool
    ensures { result ≡ is_forced_heading text.now }
{
    match text.strip_prefix('.') {
        Some(rest) => begins_alphanumeric(rest),
        None => false,
    }
}

/// Whether the trimmed text is uppercase, and the text ends in `TO:`, which is told sooner.
fn is_uppercase_to(text: &str, trimmed: &str) -> bool
    ensures { result ≡ (is_uppercase trimmed.now && ends_with (λ a b. a == b) text.now (codes "TO:")) }
{
    text.as_bytes().ends_with(b"TO:") && is_uppercase(trimmed)
}

fn is_natural_transition(text: &str) -> bool
    ensures { result ≡ is_natural_transition text.now }
{
    let trimmed = trim(text);
    is_uppercase_to(text, trimmed)
        && !begins_with_one(trimmed, b"!>~")
        && !is_forced_heading(trimmed)
}

/// Whether a text has an uppercase name, and begins with no mark of another form, which is told sooner.
fn has_uppercase_name(text: &str) -> bool
    ensures { result ≡ (is_uppercase (cue_name (without_caret text.now))
        && not (begins_with_one (codes "!@>~#=") text.now)) }
{
    !begins_with_one(text, b"!@>~#=") && is_uppercase(cue_name(without_caret(text)))
}

fn is_natural_cue(text: &str) -> bool
    ensures { result ≡ is_natural_cue text.now }
{
    has_uppercase_name(text) && !is_natural_heading(text) && !is_forced_heading(text)
}

/// A text without one `^` at its end, trimmed.
fn without_caret(text: &str) -> &str
    ensures { result.now ≡ without_caret text.now }
{
    match text.strip_suffix('^') {
        Some(rest) => trim(rest),
        None => trim(text),
    }
}

/// The name of a cue, without what stands in brackets at its end.
fn cue_name(cue: &str) -> &str
    ensures { result.now ≡ cue_name cue.now }
{
    if !ends(cue, b')') {
        return cue;
    }
    match cue.split_once('(') {
        Some((name, _)) => trim(name),
        None => cue,
    }
}
