//! The marks round a text with a style.
ghost use Rattle.std.specs.Prelude.{◌≡◌};
ghost use Rattle.sp_kit.specs.Outside.{Writes};
ghost use Rattle.spec_html.specs.Marks.{closing, marks_of, opening, tag_if};

use sp_kit::{Failed, Sink, write_whole};

/// Whether a style, the sum of 1 for italic, 2 for bold and 4 for underlined, is italic.
fn is_italic(style: u8) -> bool
    ensures { result ≡ (marks_of style).italic }
{
    style % 2 == 1
}

fn is_bold(style: u8) -> bool
    ensures { result ≡ (marks_of style).bold }
{
    style / 2 % 2 == 1
}

fn is_underlined(style: u8) -> bool
    ensures { result ≡ (marks_of style).underlined }
{
    style / 4 % 2 == 1
}

/// Writes a tag where it is wanted.
fn write_tag<O: Sink>(sink: &mut O, wanted: bool, tag: &[u8]) -> Result<(), Failed>
    ensures { Writes (O.state sink.old) (O.state sink.new) (tag_if wanted tag.now) result }
{
    if wanted {
        return write_whole(sink, tag);
    }
    Ok(())
}

/// Opens the marks of a style.
pub(crate) fn write_opening<O: Sink>(sink: &mut O, style: u8) -> Result<(), Failed>
    ensures { Writes (O.state sink.old) (O.state sink.new) (opening (marks_of style)) result }
{
    write_tag(sink, is_italic(style), b"<i>")?;
    write_tag(sink, is_bold(style), b"<b>")?;
    write_tag(sink, is_underlined(style), b"<u>")
}

/// Closes them, in the other order.
pub(crate) fn write_closing<O: Sink>(sink: &mut O, style: u8) -> Result<(), Failed>
    ensures { Writes (O.state sink.old) (O.state sink.new) (closing (marks_of style)) result }
{
    write_tag(sink, is_underlined(style), b"</u>")?;
    write_tag(sink, is_bold(style), b"</b>")?;
    write_tag(sink, is_italic(style), b"</i>")
}
