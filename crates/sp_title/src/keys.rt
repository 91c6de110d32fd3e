//! The keys of a title page, by the kept text of a line.
ghost use Rattle.std.specs.Prelude.{◌≡◌, ◌≤◌, length};
ghost use Rattle.std.specs.List.{list_any};
ghost use Rattle.spec_script.specs.Title.{begins_with_key, centred_keys, other_keys, colon, has_key, is_centred_key, is_indented, same_word, value_from};

use sp_clean::letters::begins_with_word;

/// Whether the text begins with a key whose values are centred, and a colon.
pub fn begins_with_centred_key(text: &[u8]) -> bool
    ensures { result ≡ list_any (begins_with_key text.now) centred_keys }
{
    begins_with_word(text, b"Title:")
        || begins_with_word(text, b"Credit:")
        || begins_with_word(text, b"Author:")
        || begins_with_word(text, b"Authors:")
        || begins_with_word(text, b"Source:")
}

/// Whether the text begins with one of the other keys, and a colon.
pub fn begins_with_other_key(text: &[u8]) -> bool
    ensures { result ≡ list_any (begins_with_key text.now) other_keys }
{
    begins_with_word(text, b"Draft date:")
        || begins_with_word(text, b"Contact:")
        || begins_with_word(text, b"Notes:")
        || begins_with_word(text, b"Copyright:")
}

/// How many bytes stand before the first colon; all, where there is none.
fn colon(text: &[u8]) -> usize
    ensures value { result ≡ colon text.now }
    ensures within { result ≤ length text.now }
{
    text.iter().take_while(|byte| **byte != b':').count()
}

/// Whether the text begins with a tab or three U+0020.
fn is_indented(text: &[u8]) -> bool
    ensures { result ≡ is_indented text.now }
{
    (!text.is_empty() && text[0] == b'\t') || text.starts_with(b"   ")
}

/// Whether a line with this kept text has a key, on a title page. (docs/RULES.md, "Title page")
pub fn has_key(text: &[u8]) -> bool
    ensures { result ≡ has_key text.now }
{
    let colon = colon(text);
    !is_indented(text) && 0 < colon && colon < text.len()
}

/// Where the value of a line with this kept text begins in that text: behind its key's colon, or at 0 where it has no
/// key. (docs/RULES.md, "Title page")
pub fn value_from(text: &[u8]) -> usize
    ensures value { result ≡ value_from text.now }
    ensures within { result ≤ length text.now }
{
    if has_key(text) { colon(text) + 1 } else { 0 }
}

/// Whether the key is the word, ASCII letter case ignored.
fn is_key(key: &[u8], word: &[u8]) -> bool
    ensures { result ≡ same_word key.now word.now }
{
    key.len() == word.len() && begins_with_word(key, word)
}

/// Whether the values of the key that stands before the first colon are centred.
pub fn is_centred_key(text: &[u8]) -> bool
    ensures { result ≡ is_centred_key text.now }
{
    let key = &text[..colon(text)];
    is_key(key, b"Title")
        || is_key(key, b"Credit")
        || is_key(key, b"Author")
        || is_key(key, b"Authors")
        || is_key(key, b"Source")
}
