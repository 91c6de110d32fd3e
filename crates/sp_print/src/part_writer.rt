ghost use Rattle.std.specs.Prelude.{ℕ, List};
ghost use Rattle.sp_kit.specs.Outside.{Writes};
ghost use Rattle.spec_sheets.specs.Cells.{shown_bytes};
ghost use Rattle.sp_print.specs.Views.{text_of};

use crate::CellText;
use sp_kit::{Failed, Sink};

/// What writes the text of a part of a cell, which `write_rows` puts at its column. What can be told of it is the bytes that
/// it writes of a text with a style, the sum of 1 for italic, 2 for bold and 4 for underlined.
pub trait PartWriter {
    ghost written: { ℕ → List ℕ → List ℕ };

    /// Writes a text that isn't empty. `Failed` comes only where the sink's count of faults rose in this call, and then the
    /// sink took a proper prefix.
    fn write_part<O: Sink>(&self, sink: &mut O, style: u8, text: CellText<'_>) -> Result<(), Failed>
        ensures { Writes (O.state sink.old) (O.state sink.new)
            (written style (shown_bytes (text_of text.entry))) result };
}
