//! Parts between the marks of their styles.
ghost use Rattle.sp_kit.specs.Outside.{Writes};
ghost use Rattle.spec_sheets.specs.Cells.{shown_bytes};
ghost use Rattle.spec_sheets.specs.RowBytes.{untabbed};
ghost use Rattle.spec_html.specs.HtmlSheets.{escaped};
ghost use Rattle.sp_print.specs.Views.{text_of};
ghost use Rattle.sp_html.specs.Written.{marked_part};

use crate::escape::write_escaped;
use crate::marks::{write_closing, write_opening};
use sp_kit::{Failed, Sink};
use sp_print::{CellText, PartWriter};

/// Writes each part between the marks of its style.
#[derive(Drop)]
pub(crate) struct MarkedText;

fn write_text<O: Sink>(sink: &mut O, text: CellText<'_>) -> Result<(), Failed>
    ensures { Writes (O.state sink.old) (O.state sink.new)
        (escaped (untabbed (shown_bytes (text_of text.entry)))) result }
{
    match text {
        CellText::Slice(text) => write_escaped(sink, text.as_bytes()),
        CellText::Label(label) => sp_labels::write(label, sink),
    }
}

fn write_marked<O: Sink>(sink: &mut O, style: u8, text: CellText<'_>) -> Result<(), Failed>
    ensures { Writes (O.state sink.old) (O.state sink.new)
        (marked_part style (shown_bytes (text_of text.entry))) result }
{
    write_opening(sink, style)?;
    write_text(sink, text)?;
    write_closing(sink, style)
}

impl PartWriter for MarkedText {
    ghost use Rattle.sp_html.specs.Written.{marked_part};

    ghost written = { marked_part };

    fn write_part<O: Sink>(
        &self,
        sink: &mut O,
        style: u8,
        text: CellText<'_>,
    ) -> Result<(), Failed> {
        write_marked(sink, style, text)
    }
}
