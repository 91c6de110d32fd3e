//! Rows that end a sentence.
ghost use Rattle.std.specs.Prelude.{◌≡◌, Bool, IfSome, false, fold};
ghost use Rattle.std.specs.Str.{chars};
ghost use Rattle.spec_script.specs.Runs.{RunParts};
ghost use Rattle.spec_pages.specs.Sentences.{is_closing, is_stop, ends_sentence, shown_chars};
ghost use Rattle.sp_columns.specs.Sentences.{ends_after};

use spec_script::Run;

/// Whether the character is a quotation mark or a bracket that may stand behind the end of a sentence.
fn is_closing(char: char) -> bool
    ensures { result ≡ is_closing char }
{
    matches!(char, '"' | '\'' | ')' | ']' | '\u{201d}' | '\u{2019}')
}

fn is_stop(char: char) -> bool
    ensures { result ≡ is_stop char }
{
    matches!(char, '.' | '!' | '?' | '\u{2026}')
}

/// The last character of a text, where it is one of ASCII and no closing one: it alone tells whether the text ends a sentence.
fn last_open(text: &str) -> Option<char>
    ensures { IfSome result (λ last. (before : Bool) → fold ends_after before (chars text.now) ≡ is_stop last) }
{
    let bytes = text.as_bytes();
    if bytes.is_empty() {
        return None;
    }
    let last = bytes[bytes.len() - 1];
    if last >= 0x80 || is_closing(last as char) {
        return None;
    }
    Some(last as char)
}

/// Whether the text behind another ends a sentence, by whether that one does.
fn ends_after(before: bool, text: &str) -> bool
    ensures { result ≡ fold ends_after before (chars text.now) }
{
    match last_open(text) {
        Some(last) => is_stop(last),
        None => ends_with_all(before, text),
    }
}

/// The same by all its characters.
fn ends_with_all(before: bool, text: &str) -> bool
    ensures { result ≡ fold ends_after before (chars text.now) }
{
    text.chars().fold(before, |ends, char| {
        if is_closing(char) {
            ends
        } else {
            is_stop(char)
        }
    })
}

/// Whether what the runs show of a text, by places of bytes, ends a sentence (docs/RULES.md, "Elements").
pub fn ends_sentence(text: &str, runs: &[Run]) -> bool
    requires { RunParts text.now runs.now }
    ensures { result ≡ ends_sentence (shown_chars text.now runs.now) }
{
    let mut ends = false;
    for run in runs {
        ends = ends_after(ends, &text[run.from as usize..run.to as usize]);
    }
    ends
}
