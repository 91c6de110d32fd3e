//! Parts without marks.
ghost use Rattle.sp_kit.specs.Outside.{Writes};
ghost use Rattle.spec_sheets.specs.Cells.{shown_bytes};
ghost use Rattle.spec_sheets.specs.RowBytes.{untabbed};
ghost use Rattle.sp_print.specs.Views.{text_of};

use crate::CellText;
use crate::part_writer::PartWriter;
use crate::spaces::write_untabbed;
use sp_kit::{Failed, Sink};

/// Writes each part as it is, with four spaces for a tab, whatever its style.
#[derive(Drop)]
pub(crate) struct PlainText;

fn write_text<O: Sink>(sink: &mut O, text: CellText<'_>) -> Result<(), Failed>
    ensures { Writes (O.state sink.old) (O.state sink.new) (untabbed (shown_bytes (text_of text.entry))) result }
{
    match text {
        CellText::Slice(text) => write_untabbed(sink, text.as_bytes()),
        CellText::Label(label) => sp_labels::write(label, sink),
    }
}

impl PartWriter for PlainText {
    ghost use Rattle.sp_print.specs.Writing.{plain_part};

    ghost written = { plain_part };

    fn write_part<O: Sink>(
        &self,
        sink: &mut O,
        _style: u8,
        text: CellText<'_>,
    ) -> Result<(), Failed> {
        write_text(sink, text)
    }
}
