ghost use Rattle.std.specs.Prelude.{◌≡◌, ◌+◌, ◌*◌, ◌<◌, ◌≤◌, ◌^◌, ◌&&◌, length, map, slice_get};
ghost use Rattle.spec_text.specs.Lines.{line_texts};
ghost use Rattle.spec_pages.specs.Rows.{shifted_cell, shifted_row};
ghost use Rattle.spec_sheets.specs.Cells.{RowShows, ShowsParts, shown_cell, text_at};
ghost use Rattle.sp_print.specs.Views.{IsSlice, cell_views, cells_views, kept_cells, part_count, runs_views, view_of};

use crate::views::{CONTINUED, CellText, CellView};
use sp_layout::{Cell, Row};
use sp_text::Lines;
use std::marker::Model;

/// The cells of a row, and the place of the line from which they count their lines. `unnumbered` leaves out a written number.
#[derive(Drop)]
pub(crate) struct RowCells<'a> {
    lines: &'a Lines,
    first: u64,
    cells: &'a [Cell],
    unnumbered: bool,
}

impl<'a> Model for RowCells<'a> {
    ghost use Rattle.std.specs.Prelude.{◌≤◌, List, All, length, map};
    ghost use Rattle.spec_text.specs.Lines.{line_texts};
    ghost use Rattle.spec_pages.specs.Rows.{shifted_cell};
    ghost use Rattle.spec_sheets.specs.Cells.{ShownCell, ShowsParts, shown_cell};
    ghost use Rattle.sp_print.specs.Views.{kept_cells};

    ghost Value = { List ShownCell };

    ghost view = { λ r. map (shown_cell (line_texts r.lines.now.lines)) (kept_cells r.unnumbered (map (shifted_cell r.first) r.cells.now)) };

    ghost invariant = { λ r. (length r.cells.now ≤ 4) × All (ShowsParts (line_texts r.lines.now.lines)) (map (shifted_cell r.first) r.cells.now) };
}

/// The text of the line so many lines behind a place.
pub(crate) fn line_text<'a>(lines: &'a Lines, first: u64, line: u32) -> &'a str
    requires { first + line < length (line_texts lines.now.lines) }
    ensures text { text_at (line_texts lines.now.lines) (first + line) ≡ result.now }
    ensures short { length result.now ≤ 4096 }
{
    let count = lines.len() as u64;
    prove!(first < count);
    lines.line(first as usize + line as usize).text
}

/// Whether a cell is left out.
fn is_left_out(unnumbered: bool, cell: &Cell) -> bool
    ensures { result ≡ (unnumbered && cell.now.number) }
{
    unnumbered && cell.is_number()
}

/// How many parts a cell has.
fn part_count(cell: &Cell) -> usize
    ensures value { result ≡ part_count cell.now }
    ensures bound { result < 2 ^ 60 }
{
    if cell.is_fixed() {
        return 1;
    }
    cell.runs().len()
}

/// The part at a place of a cell.
fn cell_part<'a>(lines: &'a Lines, first: u64, cell: &Cell, place: usize) -> CellView<'a>
    requires shows { ShowsParts (line_texts lines.now.lines) (shifted_cell first cell.now) }
    requires within { place < part_count cell.now }
    ensures view { slice_get (cell_views (shown_cell (line_texts lines.now.lines) (shifted_cell first cell.now)))
        place ≡ Some (view_of result) }
    ensures slice { IsSlice result.text }
{
    if cell.is_fixed() {
        return CellView {
            column: cell.column,
            first: true,
            style: 0,
            text: CellText::Slice(CONTINUED),
        };
    }
    run_part(lines, first, cell, place)
}

/// The part at a place of a cell that shows parts of its line.
fn run_part<'a>(lines: &'a Lines, first: u64, cell: &Cell, place: usize) -> CellView<'a>
    requires shows { ShowsParts (line_texts lines.now.lines) (shifted_cell first cell.now) }
    requires within { place < length cell.now.runs }
    ensures view { slice_get (runs_views (line_texts lines.now.lines) (shifted_cell first cell.now))
        place ≡ Some (view_of result) }
    ensures slice { IsSlice result.text }
{
    let text = line_text(lines, first, cell.line);
    let run = cell.runs()[place];
    CellView {
        column: cell.column,
        first: place == 0,
        style: run.style,
        text: CellText::Slice(&text[run.from as usize..run.to as usize]),
    }
}

/// The cells of a row of an element that begins at this line, all or without a written number.
pub(crate) fn row_cells<'a>(
    lines: &'a Lines,
    first: u64,
    row: &'a Row,
    unnumbered: bool,
) -> RowCells<'a>
    requires { RowShows (line_texts lines.now.lines) (shifted_row first row.now) }
    ensures { result ≡ map (shown_cell (line_texts lines.now.lines))
        (kept_cells unnumbered (shifted_row first row.now).cells) }
{
    RowCells {
        lines,
        first,
        cells: row.cells.as_slice(),
        unnumbered,
    }
}

impl<'a> RowCells<'a> {
    /// How many parts the cells have.
    pub(crate) fn count(&self) -> usize
        ensures value { result ≡ length (cells_views self.now) }
        ensures bound { result ≤ 4 * 2 ^ 60 }
    {
        let mut count = 0;
        for cell in self.cells {
            if is_left_out(self.unnumbered, cell) {
                continue;
            }
            count += part_count(cell);
        }
        count
    }

    /// The part at a place of all cells together.
    pub(crate) fn part(&self, place: usize) -> CellView<'a>
        requires { place < length (cells_views self.now) }
        ensures view { slice_get (cells_views self.now) place ≡ Some (view_of result) }
        ensures slice { IsSlice result.text }
    {
        let mut left = place;
        for cell in self.cells {
            if is_left_out(self.unnumbered, cell) {
                continue;
            }
            let count = part_count(cell);
            if left < count {
                return cell_part(self.lines, self.first, cell, left);
            }
            left -= count;
        }
        unreachable!()
    }
}
