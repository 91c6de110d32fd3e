//! Tests of letters, and of what a text begins and ends with (docs/RULES.md, "Letter tests").
ghost use Rattle.std.specs.Prelude.{◌≡◌};
ghost use Rattle.std.specs.Char.{eq_ignore_ascii_case};
ghost use Rattle.std.specs.List.{starts_with};
ghost use Rattle.spec_script.specs.Letters.{has_no_lowercase, has_alphabetic, is_uppercase, is_alphanumeric, begins_alphanumeric, begins, ends, begins_with_one};
ghost use Rattle.unicode_segmentation.specs.Segments.{is_number};

use unicode::properties::{GeneralCategory, is_alphabetic, is_lowercase};

/// Whether a text is uppercase: no character is Lowercase, and at least one is Alphabetic.
pub fn is_uppercase(text: &str) -> bool
    ensures { result ≡ is_uppercase text.now }
{
    has_no_lowercase(text) && has_alphabetic(text)
}

fn has_no_lowercase(text: &str) -> bool
    ensures { result ≡ has_no_lowercase text.now }
{
    text.chars().all(|c| !is_lowercase(c))
}

fn has_alphabetic(text: &str) -> bool
    ensures { result ≡ has_alphabetic text.now }
{
    text.chars().any(|c| is_alphabetic(c))
}

/// Whether the first character is alphanumeric: Alphabetic, or of general category Nd, Nl or No.
pub fn begins_alphanumeric(text: &str) -> bool
    ensures { result ≡ begins_alphanumeric text.now }
{
    match text.chars().next() {
        Some(c) => is_alphanumeric(c),
        None => false,
    }
}

fn is_alphanumeric(c: char) -> bool
    ensures { result ≡ is_alphanumeric c }
{
    is_alphabetic(c) || is_number(GeneralCategory::for_char(c))
}

fn is_number(category: GeneralCategory) -> bool
    ensures { result ≡ is_number category }
{
    matches!(
        category,
        GeneralCategory::DecimalNumber
            | GeneralCategory::LetterNumber
            | GeneralCategory::OtherNumber
    )
}

/// Whether the first byte is one of the marks.
pub fn begins_with_one(text: &str, marks: &[u8]) -> bool
    ensures { result ≡ begins_with_one marks.now text.now }
{
    marks.iter().any(|mark| begins(text, *mark))
}

/// Whether the first byte is the given one.
pub fn begins(text: &str, byte: u8) -> bool
    ensures { result ≡ begins byte text.now }
{
    let bytes = text.as_bytes();
    !bytes.is_empty() && bytes[0] == byte
}

/// Whether the last byte is the given one.
pub fn ends(text: &str, byte: u8) -> bool
    ensures { result ≡ ends byte text.now }
{
    ends_in(text.as_bytes(), byte)
}

/// Whether the last of these bytes is the given one.
pub fn ends_in(bytes: &[u8], byte: u8) -> bool
    ensures { result ≡ ends byte bytes.now }
{
    !bytes.is_empty() && bytes[bytes.len() - 1] == byte
}

/// Whether a text begins with the word, ASCII letter case ignored.
pub fn begins_with_word(text: &[u8], word: &[u8]) -> bool
    ensures { result ≡ starts_with eq_ignore_ascii_case text.now word.now }
{
    text.len() >= word.len() && word.eq_ignore_ascii_case(&text[..word.len()])
}
