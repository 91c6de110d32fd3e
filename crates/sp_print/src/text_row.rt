ghost use Rattle.std.specs.Prelude.{◌≡◌, false};
ghost use Rattle.std.specs.Option.{option_copied};
ghost use Rattle.spec_sheets.specs.Shown.{row_label};
ghost use Rattle.spec_sheets.specs.PageRows.{starred};

use crate::cue::repeated_cue;
use crate::row_cells::row_cells;
use crate::row_view::RowView;
use crate::views::{CellText, lone_cell};
use sp_labels::Label;
use sp_layout::{Element, Row, Shape, begins_heading};
use sp_text::Lines;
use spec_pages::{NUMBER_BEFORE, NUMBER_BEHIND};
use std::marker::Model;

/// A row of an element, with the label of the element's scene where it has one (docs/RULES.md, "Sheets"). It holds the lines,
/// the element and the label borrowed.
#[derive(Drop)]
pub struct TextRow<'a> {
    /// The lines from whose places the element counts its lines.
    pub lines: &'a Lines,
    pub element: &'a Element,
    /// One of the rows of the element.
    pub row: &'a Row,
    pub label: Option<&'a Label>,
}

impl<'a> Model for TextRow<'a> {
    ghost use Rattle.std.specs.Prelude.{All};
    ghost use Rattle.std.specs.Option.{option_copied};
    ghost use Rattle.spec_text.specs.Lines.{line_texts};
    ghost use Rattle.spec_pages.specs.Rows.{placed_rows, shifted_row};
    ghost use Rattle.spec_sheets.specs.Cells.{RowShows};
    ghost use Rattle.spec_sheets.specs.Shown.{Shown, element_cue, shown_of};

    ghost Value = { Shown };

    ghost view = { λ t. shown_of t.lines.now.lines (element_cue (line_texts t.lines.now.lines) (placed_rows t.element.now)) (option_copied t.label) (shifted_row t.element.now.first t.row.now) };

    ghost invariant = { λ t. RowShows (line_texts t.lines.now.lines) (shifted_row t.element.now.first t.row.now) × All (RowShows (line_texts t.lines.now.lines)) (placed_rows t.element.now) };
}

/// The label that stands beside a row: that of its element on the first row of a heading.
fn row_label<'a>(label: Option<&'a Label>, row: &Row) -> Option<&'a Label>
    ensures { option_copied result ≡ row_label (option_copied label.entry) row.now }
{
    if begins_heading(&row.shape) {
        label
    } else {
        None
    }
}

impl<'a> TextRow<'a> {
    /// The row as page ends see it. Takes no memory.
    pub fn shape(&self) -> Shape
        ensures { result ≡ self.now.shape }
    {
        let row = self.row;
        row.shape
    }

    /// The row as a sheet of this round shows it, without the empty rows of its lead (docs/RULES.md, "Sheets"). Takes no memory.
    pub fn view(&self, round: u8) -> RowView<'a>
        ensures { result ≡ starred round self.now }
    {
        let row = self.row;
        let element = self.element;
        let first = element.first;
        let star = 0 < row.mark && row.mark == round;
        match row_label(self.label, row) {
            Some(label) => RowView {
                before: Some(lone_cell(NUMBER_BEFORE, CellText::Label(label))),
                cells: Some(row_cells(self.lines, first, row, true)),
                behind: Some(lone_cell(NUMBER_BEHIND, CellText::Label(label))),
                star,
            },
            None => RowView {
                before: None,
                cells: Some(row_cells(self.lines, first, row, false)),
                behind: None,
                star,
            },
        }
    }

    /// The cue of its speech, as it stands again above a page; a row without cells where its element doesn't begin with a cue.
    /// Takes no memory.
    pub fn cue(&self) -> RowView<'a>
        ensures { result ≡ record { cells = self.now.cue; star = false } }
    {
        repeated_cue(self.lines, self.element)
    }
}
