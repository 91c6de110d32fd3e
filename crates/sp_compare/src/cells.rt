//! Cells of rows, compared.
ghost use Rattle.std.specs.Prelude.{◌≡◌, ◌+◌, ◌<◌, ◌≤◌, All, drop, false, length, map, slice_index_or};
ghost use Rattle.spec_text.specs.Lines.{line_texts};
ghost use Rattle.spec_text.specs.Parts.{Lies};
ghost use Rattle.spec_script.specs.Runs.{RunParts, span_of};
ghost use Rattle.spec_pages.specs.Rows.{shifted_cell};
ghost use Rattle.spec_sheets.specs.Cells.{ShowsParts, shown_part, slice_of, without_numbers};
ghost use Rattle.spec_state.specs.SameRows.{same_cell, same_cells, same_part, same_parts};
ghost use Rattle.sp_compare.specs.BareRows.{own_runs, own_text, cell_in, cells_in};

use sp_layout::Cell;
use sp_text::{Lines, OldLines};
use spec_script::Run;

/// What a fixed cell shows.
const CONTINUED: &str = "(CONT'D)";

const WHOLE: &[Run] = &[Run {
    from: 0,
    to: 8,
    style: 0,
}];

/// The part of a text that a run shows.
fn part_of(text: &str, run: Run) -> &str
    requires { Lies text.now (span_of run) }
    ensures { result.now ≡ slice_of text.now run }
{
    &text[run.from as usize..run.to as usize]
}

/// Whether parts of two texts are the same.
fn same_part(old: &str, one: Run, new: &str, other: Run) -> bool
    requires one { Lies old.now (span_of one) }
    requires other { Lies new.now (span_of other) }
    ensures { result ≡ same_part (shown_part old.now one) (shown_part new.now other) }
{
    one.style == other.style && part_of(old, one) == part_of(new, other)
}

/// Whether parts of two texts are the same, one by one.
fn same_parts(old: &str, olds: &[Run], new: &str, news: &[Run]) -> bool
    requires olds { RunParts old.now olds.now }
    requires news { RunParts new.now news.now }
    ensures { result ≡ same_parts (map (shown_part old.now) olds.now) (map (shown_part new.now) news.now) }
{
    if olds.len() != news.len() {
        return false;
    }
    for (place, run) in olds.iter().enumerate() {
        if !same_part(old, *run, new, news[place]) {
            return false;
        }
    }
    true
}

/// The parts of its text that a cell shows.
fn own_runs(cell: &Cell) -> &[Run]
    ensures { result.now ≡ own_runs cell.now }
{
    if cell.is_fixed() { WHOLE } else { cell.runs() }
}

/// The text of a cell before the change.
fn old_text<'a>(old: &OldLines<'a>, first: u64, cell: &Cell) -> &'a str
    requires { first + cell.now.line < length (line_texts old.now) }
    ensures { result.now ≡ own_text (line_texts old.now) first cell.now }
{
    if cell.is_fixed() {
        CONTINUED
    } else {
        old.text(first, cell.line)
    }
}

/// The text of a cell after the change.
fn new_text<'a>(new: &'a Lines, first: u64, cell: &Cell) -> &'a str
    requires { first + cell.now.line < length (line_texts new.now.lines) }
    ensures { result.now ≡ own_text (line_texts new.now.lines) first cell.now }
{
    if cell.is_fixed() {
        return CONTINUED;
    }
    let count = new.len() as u64;
    prove!(first < count);
    new.line((first + cell.line as u64) as usize).text
}

/// Whether cells before the change and after it are the same.
fn same_cell(
    old: &OldLines<'_>,
    old_first: u64,
    one: &Cell,
    new: &Lines,
    new_first: u64,
    other: &Cell,
) -> bool
    requires one { ShowsParts (line_texts old.now) (shifted_cell old_first one.now) }
    requires other { ShowsParts (line_texts new.now.lines) (shifted_cell new_first other.now) }
    ensures { result ≡ same_cell (cell_in old.now old_first one.now) (cell_in new.now.lines new_first other.now) }
{
    let was = old_text(old, old_first, one);
    let is = new_text(new, new_first, other);
    one.column == other.column && same_parts(was, own_runs(one), is, own_runs(other))
}

/// The first cell from a place on that isn't a written number.
fn next_bare(cells: &[Cell], from: usize) -> usize
    requires { from ≤ length cells.now }
    ensures within { result ≤ length cells.now }
    ensures same { without_numbers (drop from cells.now) ≡ without_numbers (drop result cells.now) }
    ensures bare { (d : Cell) → result < length cells.now → (slice_index_or cells.now result d).number ≡ false }
{
    let mut place = from;
    while place < cells.len() && cells[place].is_number() {
        place += 1;
    }
    place
}

/// Whether cells before the change and after it are the same, one by one, without written numbers.
pub(crate) fn same_cells(
    old: &OldLines<'_>,
    old_first: u64,
    olds: &[Cell],
    new: &Lines,
    new_first: u64,
    news: &[Cell],
) -> bool
    requires olds { All (ShowsParts (line_texts old.now)) (map (shifted_cell old_first) olds.now) }
    requires news { All (ShowsParts (line_texts new.now.lines)) (map (shifted_cell new_first) news.now) }
    ensures { result ≡ same_cells (cells_in old.now old_first olds.now) (cells_in new.now.lines new_first news.now) }
{
    let mut place = 0;
    for one in olds {
        if one.is_number() {
            continue;
        }
        place = next_bare(news, place);
        if place == news.len() {
            return false;
        }
        if !same_cell(old, old_first, one, new, new_first, &news[place]) {
            return false;
        }
        place += 1;
    }
    next_bare(news, place) == news.len()
}
