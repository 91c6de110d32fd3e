//! Text with escapes in place of the three bytes that HTML gives a meaning, and spaces in place of tabs.
ghost use Rattle.std.specs.Prelude.{◌≡◌, ◌<◌, ◌^◌, true, position, IfSome};
ghost use Rattle.sp_kit.specs.Outside.{Writes};
ghost use Rattle.spec_sheets.specs.RowBytes.{untabbed};
ghost use Rattle.spec_html.specs.HtmlSheets.{escaped};
ghost use Rattle.sp_html.specs.Written.{is_changed, written};

use sp_kit::{Failed, Sink, write_whole};

/// Whether a byte is written as something else.
fn is_changed(byte: u8) -> bool
    ensures { result ≡ is_changed byte }
{
    byte == b'\t' || byte == b'&' || byte == b'<' || byte == b'>'
}

/// The place of the first byte that is written as something else.
fn first_changed(text: &[u8]) -> Option<usize>
    ensures place { result ≡ position is_changed text.now }
    ensures bound { IfSome result (λ at. at < 2 ^ 63) }
{
    text.iter().position(|byte| is_changed(*byte))
}

/// What is written of such a byte.
fn write_byte<O: Sink>(sink: &mut O, byte: u8) -> Result<(), Failed>
    requires { is_changed byte ≡ true }
    ensures { Writes (O.state sink.old) (O.state sink.new) (written byte) result }
{
    if byte == b'\t' {
        return write_whole(sink, b"    ");
    }
    if byte == b'&' {
        return write_whole(sink, b"&amp;");
    }
    if byte == b'<' {
        return write_whole(sink, b"&lt;");
    }
    write_whole(sink, b"&gt;")
}

/// Writes a text, each tab as four spaces, and the three bytes as escapes.
pub(crate) fn write_escaped<O: Sink>(sink: &mut O, text: &[u8]) -> Result<(), Failed>
    ensures { Writes (O.state sink.old) (O.state sink.new) (escaped (untabbed text.now)) result }
{
    let mut rest = text;
    while let Some(at) = first_changed(rest) {
        write_whole(sink, &rest[..at])?;
        write_byte(sink, rest[at])?;
        rest = &rest[at + 1..];
    }
    write_whole(sink, rest)
}
