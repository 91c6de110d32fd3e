//! Lines of a title page (docs/RULES.md, "Title page"). No call takes memory.
//!
//! All places are places of bytes in the line, from 0. A line has at most 4,096 bytes. The kept parts lie in the line,
//! begin and end between characters, and stand in order; the kept text is what they have, one after the other.
#![tactic(auto)]

mod keys;

ghost use Rattle.std.specs.Prelude.{◌≡◌, ◌≤◌, ◌+◌, ◌&&◌, drop, not, length};
ghost use Rattle.std.specs.List.{position_or_len};
ghost use Rattle.spec_text.specs.Parts.{Parts};
ghost use Rattle.spec_script.specs.Spans.{text_in};
ghost use Rattle.spec_script.specs.Trim.{is_space};
ghost use Rattle.spec_script.specs.Title.{place_or_end, title_line_of, title_opens};

pub use crate::keys::{has_key, value_from};
use crate::keys::{begins_with_centred_key, begins_with_other_key, is_centred_key};
use sp_clean::parts::{LINE_LIMIT, joined_text, place_of};
use sp_clean::spaces::{all_spaces, spaces_before};
pub use spec_script::TitleLine;
pub use spec_text::Span;

/// Whether the line opens a title page: its kept text begins with one of the nine keys, ASCII letter case ignored, and
/// a colon directly behind it. (docs/RULES.md, "Title page")
pub fn title_opens(text: &str, kept: &[Span]) -> bool
    requires short { length text.now ≤ 4096 }
    requires parts { Parts text.now 0 kept.now }
    ensures { result ≡ title_opens (text_in text.now kept.now) }
{
    let mut buffer = [0; LINE_LIMIT];
    let joined = joined_text(text, kept, &mut buffer).as_bytes();
    begins_with_centred_key(joined) || begins_with_other_key(joined)
}

/// Whether a stanza that begins with the line is a title page: it is the first of its text, and the line opens one.
/// (docs/RULES.md, "Blocks")
pub fn is_title_page(first: bool, text: &str, kept: &[Span]) -> bool
    requires short { length text.now ≤ 4096 }
    requires parts { Parts text.now 0 kept.now }
    ensures { result ≡ (first && title_opens (text_in text.now kept.now)) }
{
    first && title_opens(text, kept)
}

/// What the line is on a title page: `Opens` with a new key, whose values are `centred` or not, `Value` with a further
/// value of the key before it, and `Nothing` where its kept text has only spaces, as a held line's has.
///
/// `from` is the place in the line of the value's first byte, or the line's length where a new key has no value of its
/// own. The value ends before the spaces at the kept text's end. (docs/RULES.md, "Title page")
pub fn title_line(text: &str, kept: &[Span]) -> TitleLine
    requires short { length text.now ≤ 4096 }
    requires parts { Parts text.now 0 kept.now }
    ensures { result ≡ title_line_of text.now kept.now }
{
    let mut buffer = [0; LINE_LIMIT];
    let joined = joined_text(text, kept, &mut buffer).as_bytes();
    if all_spaces(joined) {
        return TitleLine::Nothing;
    }
    let from = place_or_end(text, kept, unspaced(joined, value_from(joined)));
    if has_key(joined) {
        TitleLine::Opens {
            from,
            centred: is_centred_key(joined),
        }
    } else {
        TitleLine::Value { from }
    }
}

/// The first byte from a byte on that is no space, or the length.
fn unspaced(text: &[u8], from: usize) -> usize
    requires { from ≤ length text.now }
    ensures { result ≡ from + position_or_len (λ b. not (is_space b)) (drop from text.now) }
{
    from + spaces_before(&text[from..])
}

/// The place in the line of a byte of its kept text, or the line's end where that has no such byte.
fn place_or_end(text: &str, kept: &[Span], byte: usize) -> u32
    requires { length text.now ≤ 4096 }
    ensures { result ≡ place_or_end text.now kept.now byte }
{
    place_of(kept, byte).unwrap_or(text.len() as u32)
}
