//! Marks of a cleaned line, and the layers that they make markers for.
ghost use Rattle.std.specs.Prelude.{◌≡◌, ◌+◌, ◌^◌, ◌<◌, ◌≤◌};
ghost use Rattle.spec_script.specs.Trim.{is_space};
ghost use Rattle.spec_script.specs.Emphasis.{mark_of, size_of, style_of, is_markup, byte_at, byte_before, is_mark, is_escape, opens, closes};

use spec_script::Layer;

/// The mark of a layer.
fn mark_of(layer: Layer) -> u8
    ensures { result ≡ mark_of layer }
{
    match layer {
        Layer::Italic | Layer::Bold | Layer::BoldItalic => b'*',
        Layer::Underline => b'_',
    }
}

/// How many marks are one marker of a layer.
pub fn size_of(layer: Layer) -> usize
    ensures value { result ≡ size_of layer }
    ensures small { result ≤ 3 }
{
    match layer {
        Layer::Italic | Layer::Underline => 1,
        Layer::Bold => 2,
        Layer::BoldItalic => 3,
    }
}

/// The style that a pair of a layer gives.
pub fn style_of(layer: Layer) -> u8
    ensures { result ≡ style_of layer }
{
    match layer {
        Layer::Italic => 1,
        Layer::Bold => 2,
        Layer::BoldItalic => 3,
        Layer::Underline => 4,
    }
}

fn is_space(byte: u8) -> bool
    ensures { result ≡ is_space byte }
{
    byte == b' ' || byte == b'\t'
}

/// The byte at a place; behind the line's end stand spaces.
fn byte_at(line: &[u8], place: usize) -> u8
    ensures { result ≡ byte_at line.now place }
{
    line.get(place).copied().unwrap_or(b' ')
}

/// The byte directly before a place; before the line's first byte stands a space.
fn byte_before(line: &[u8], place: usize) -> u8
    ensures { result ≡ byte_before line.now place }
{
    if place == 0 {
        b' '
    } else {
        byte_at(line, place - 1)
    }
}

/// Whether a byte is a mark of some layer, or `\`. In a text without such bytes nothing is emphasized or removed.
pub fn is_markup(byte: u8) -> bool
    ensures { result ≡ is_markup byte }
{
    matches!(byte, b'*' | b'_' | b'\\')
}

/// Whether a layer's mark stands at a place, and no `\` makes it literal.
pub fn is_mark(layer: Layer, line: &[u8], place: usize) -> bool
    ensures { result ≡ is_mark layer line.now place }
{
    byte_at(line, place) == mark_of(layer) && byte_before(line, place) != b'\\'
}

/// Whether a `\` that is removed stands at a place.
pub fn is_escape(line: &[u8], place: usize) -> bool
    requires { place < 2 ^ 63 }
    ensures { result ≡ is_escape line.now place }
{
    byte_at(line, place) == b'\\' && matches!(byte_at(line, place + 1), b'*' | b'_')
}

/// Whether a marker of a layer stands directly before a character that is no space.
pub fn opens(layer: Layer, line: &[u8], marker: usize) -> bool
    requires { marker < 2 ^ 62 }
    ensures { result ≡ opens layer line.now marker }
{
    !is_space(byte_at(line, marker + size_of(layer)))
}

/// Whether a marker stands directly after a character that is no space.
pub fn closes(line: &[u8], marker: usize) -> bool
    ensures { result ≡ closes line.now marker }
{
    !is_space(byte_before(line, marker))
}
