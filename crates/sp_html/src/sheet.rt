ghost use Rattle.std.specs.Prelude.{◌≡◌, ◌∷◌, ◌++◌, []};
ghost use Rattle.std.specs.List.{flat_map};
ghost use Rattle.sp_kit.specs.Outside.{Writes};
ghost use Rattle.spec_sheets.specs.Sheets.{sheet_bytes};
ghost use Rattle.spec_html.specs.HtmlReading.{plain_text, styled_text};
ghost use Rattle.spec_html.specs.HtmlSheets.{row_html_line, sheet_html};
ghost use Rattle.spec_html.specs.StyledSheets.{sheet_styled};

use crate::marked_text::MarkedText;
use sp_kit::{Failed, Sink, write_whole};
use sp_print::{PageView, write_header_row, write_rows};

fn write_marked_rows<O: Sink>(page: &PageView<'_>, sink: &mut O) -> Result<(), Failed>
    ensures { Writes (O.state sink.old) (O.state sink.new) (flat_map row_html_line page.now.rows) result }
{
    write_rows(&MarkedText, page, sink)
}

fn write_sheet<O: Sink>(page: &PageView<'_>, sink: &mut O) -> Result<(), Failed>
    ensures { Writes (O.state sink.old) (O.state sink.new) (sheet_html page.now) result }
{
    write_whole(sink, b"<pre><b>")?;
    write_header_row(page, sink)?;
    write_whole(sink, b"</b>\n\n")?;
    write_marked_rows(page, sink)?;
    write_whole(sink, b"</pre>")
}

/// Writes a sheet as HTML: its header in bold, an empty row, and its rows, each part between the marks of its style
/// (docs/RULES.md, "HTML pages"). It writes in small pieces, and walks over the rows once. Read back, that is the sheet's
/// bytes without the form feed, each part of a row in its own style. `Failed` comes only where the sink's count of faults
/// rose in this call, and then the sink took a proper prefix of the sheet's HTML. Takes no memory.
pub fn write_html<O: Sink>(page: &PageView<'_>, sink: &mut O) -> Result<(), Failed>
    ensures wrote { Writes (O.state sink.old) (O.state sink.new) (sheet_html page.now) result }
    ensures text { plain_text (sheet_html page.now) ++ 12 ∷ [] ≡ sheet_bytes page.now }
    ensures styles { styled_text (sheet_html page.now) ≡ sheet_styled page.now }
{
    write_sheet(page, sink)
}
