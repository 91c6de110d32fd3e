ghost use Rattle.std.specs.Prelude.{◌≡◌, ◌==◌, ◌-◌, IfOk, MatchOption, option_map, length, take, position};
ghost use Rattle.sp_packet.specs.Cuts.{IsUncut, IsCut};
ghost use Rattle.spec_script.specs.Letters.{ends};
ghost use Rattle.spec_labels.specs.LabelReading.{label_read};
ghost use Rattle.spec_packet.specs.SheetReadings.{two_labels, labels_in, one_label, header_labels, last_word};

use sp_labels::{Label, compare, parse};
use std::alloc::{AllocError, Global};
use std::cmp::Ordering;
use std::marker::Model;

/// The labels that a sheet stands for, from the first to the last (docs/RULES.md, "Collation").
#[derive(Drop)]
pub struct SheetLabel {
    pub first: Label,
    pub last: Label,
}

impl Model for SheetLabel {
    ghost use Rattle.spec_sheets.specs.Sheets.{SheetLabelOf};

    ghost Value = { SheetLabelOf };

    ghost view = { λ s. record { first = s.first; last = s.last } };
}

/// What stands before the first such byte, and what behind it.
pub fn cut_at(bytes: &[u8], byte: u8) -> Option<(&[u8], &[u8])>
    ensures { MatchOption result (IsUncut (λ b. b == byte) bytes.now) (λ parts.
        IsCut (λ b. b == byte) bytes.now parts.0.now parts.1.now) }
{
    match place_of(bytes, byte) {
        Some(place) => Some((&bytes[..place], &bytes[place + 1..])),
        None => None,
    }
}

/// The place of a byte.
fn place_of(bytes: &[u8], byte: u8) -> Option<usize>
    ensures { result ≡ position (λ b. b == byte) bytes.now }
{
    bytes.iter().position(|b| *b == byte)
}

/// The last byte is a full stop.
pub fn ends_in_stop(header: &[u8]) -> bool
    ensures { result ≡ ends 46 header.now }
{
    !header.is_empty() && header[header.len() - 1] == b'.'
}

/// The labels that a header spells that ends in a full stop: its last word, without that stop, is one label or two, the
/// first below the second, joined by `-`. `AllocError` comes for want of memory alone.
pub fn header_labels(alloc: Global, header: &[u8]) -> Result<Option<SheetLabel>, AllocError>
    ensures { IfOk result (λ labels. labels ≡ header_labels header.now) }
{
    let Some(word) = last_word(header) else {
        return Ok(None);
    };
    labels_in(alloc, without_last(word))
}

/// All but the last byte.
fn without_last(word: &[u8]) -> &[u8]
    ensures { result.now ≡ take (length word.now - 1) word.now }
{
    if word.is_empty() {
        word
    } else {
        &word[..word.len() - 1]
    }
}

/// The word behind the last space, where there is a space.
fn last_word(header: &[u8]) -> Option<&[u8]>
    ensures { option_map (λ word. word.now) result ≡ last_word header.now }
{
    let mut at = header.len();
    while at > 0 {
        if header[at - 1] == b' ' {
            return Some(&header[at..]);
        }
        at -= 1;
    }
    None
}

/// The labels that a word spells.
fn labels_in(alloc: Global, word: &[u8]) -> Result<Option<SheetLabel>, AllocError>
    ensures { IfOk result (λ labels. labels ≡ labels_in word.now) }
{
    match cut_at(word, b'-') {
        Some((first, last)) => both_labels(alloc, first, last),
        None => one_word(alloc, word),
    }
}

/// The labels that two words spell.
fn both_labels(alloc: Global, first: &[u8], last: &[u8]) -> Result<Option<SheetLabel>, AllocError>
    ensures { IfOk result (λ labels. labels ≡ two_labels (label_read first.now) (label_read last.now)) }
{
    let first = label_in(alloc, first)?;
    let last = label_in(alloc, last)?;
    Ok(two_labels(first, last))
}

/// The label that one word spells.
fn one_word(alloc: Global, word: &[u8]) -> Result<Option<SheetLabel>, AllocError>
    ensures { IfOk result (λ labels. labels ≡ option_map one_label (label_read word.now)) }
{
    let label = label_in(alloc, word)?;
    one_label(alloc, label)
}

/// One label alone is both first and last.
fn one_label(alloc: Global, label: Option<Label>) -> Result<Option<SheetLabel>, AllocError>
    ensures { IfOk result (λ labels. labels ≡ option_map one_label label) }
{
    match label {
        Some(first) => {
            let last = first.copy(alloc)?;
            Ok(Some(SheetLabel { first, last }))
        }
        None => Ok(None),
    }
}

/// Two labels, where the first is below the second.
fn two_labels(first: Option<Label>, last: Option<Label>) -> Option<SheetLabel>
    ensures { result ≡ two_labels first last }
{
    match (first, last) {
        (Some(first), Some(last)) => {
            if compare(&first, &last) == Ordering::Less {
                Some(SheetLabel { first, last })
            } else {
                None
            }
        }
        _ => None,
    }
}

/// The label that bytes spell.
fn label_in(alloc: Global, bytes: &[u8]) -> Result<Option<Label>, AllocError>
    ensures { IfOk result (λ label. label ≡ label_read bytes.now) }
{
    match str::from_utf8(bytes) {
        Ok(text) => parse(alloc, text),
        Err(_) => Ok(None),
    }
}
