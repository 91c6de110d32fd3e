//! Sheets of elements laid out, lent.
ghost use Rattle.std.specs.Prelude.{◌≡◌, ◌+◌, ◌<◌, ◌≤◌, All, AllPairs, IfNone, IfSome, length, option_map, vec_items, slice_range};
ghost use Rattle.std.specs.Option.{option_copied};
ghost use Rattle.spec_text.specs.Lines.{line_texts};
ghost use Rattle.spec_labels.specs.PageRecords.{LiesWithin};
ghost use Rattle.spec_sheets.specs.Cells.{RowShows};
ghost use Rattle.spec_sheets.specs.Layout.{placed_in};
ghost use Rattle.spec_state.specs.StateSheets.{shown_sheet};
ghost use Rattle.sp_layout.specs.Bodies.{row_count};
ghost use Rattle.sp_print.specs.Views.{label_of};
ghost use Rattle.sp_sheets.specs.Places.{HasPlaces, title_at, sheet_of, rows_shown, title_from, IsSheetAt};

use crate::{Made, greatest, labels_past, page_behind};
use sp_labels::Label;
use sp_layout::Body;
use sp_locks::Sheet;
use sp_print::{PageView, SheetLabel};
use sp_text::Lines;

/// The labels, where there are some.
fn lent_labels(labels: &Option<Vec<Label>>) -> Option<&[Label]>
    ensures { option_copied result ≡ option_map vec_items labels.now }
{
    match labels {
        None => None,
        Some(labels) => Some(labels.as_slice()),
    }
}

/// The sheet of the rows of elements from one to before another, with the labels of all their headings.
fn rows_view<'a>(
    lines: &'a Lines,
    body: &'a Body,
    labels: Option<&'a [Label]>,
    from: usize,
    to: usize,
    label: Option<SheetLabel<'a>>,
    round: u8,
) -> PageView<'a>
    requires order { from < to }
    requires within { to ≤ row_count body.now.elements }
    requires few { row_count body.now.elements ≤ 16777216 }
    requires show { All (RowShows (line_texts lines.now.lines)) (placed_in body.now.elements) }
    ensures { result ≡ sheet_of (option_map label_of label.entry) round
        (slice_range (rows_shown lines.now (option_copied labels.entry) body.now) from to) }
{
    let page = body.page(from, to);
    let numbers = labels_past(labels, page.headings);
    PageView::new(
        lines,
        page.elements,
        numbers,
        page.from,
        page.to,
        label,
        round,
    )
}

/// The title sheet at a place of those with these first rows.
fn title_view<'a>(
    lines: &'a Lines,
    titles: &'a Body,
    starts: &[usize],
    place: usize,
) -> PageView<'a>
    requires inside { place < length starts.now }
    requires rising { AllPairs (λ one other. one < other) starts.now }
    requires within { All (λ page. page < row_count titles.now.elements) starts.now }
    requires few { row_count titles.now.elements ≤ 16777216 }
    requires show { All (RowShows (line_texts lines.now.lines)) (placed_in titles.now.elements) }
    ensures { result ≡ title_from lines.now.lines titles.now.elements starts.now place }
{
    let from = starts[place];
    let to = page_behind(starts, place, titles.rows());
    let round = greatest(titles.marks(), from, to);
    rows_view(lines, titles, None, from, to, None, round)
}

/// A sheet of the body, with the labels of all its headings.
fn body_view<'a>(
    lines: &'a Lines,
    body: &'a Body,
    labels: Option<&'a [Label]>,
    sheet: &'a Sheet,
) -> PageView<'a>
    requires lies { LiesWithin (row_count body.now.elements) sheet.now }
    requires few { row_count body.now.elements ≤ 16777216 }
    requires show { All (RowShows (line_texts lines.now.lines)) (placed_in body.now.elements) }
    ensures { result ≡ shown_sheet (rows_shown lines.now (option_copied labels.entry) body.now) sheet.now }
{
    let label = SheetLabel {
        first: &sheet.first,
        last: &sheet.last,
    };
    if sheet.omitted {
        return PageView::omitted(label, sheet.round);
    }
    rows_view(
        lines,
        body,
        labels,
        sheet.start,
        sheet.end,
        Some(label),
        sheet.round,
    )
}

/// How many title sheets there are.
pub fn title_count(made: &Made) -> usize
    ensures { result ≡ length made.now.numbered.title_starts }
{
    let numbered = &made.numbered;
    numbered.title_starts.len()
}

/// How many sheets there are.
pub fn sheet_count(made: &Made) -> usize
    ensures { result ≡ length made.now.numbered.title_starts + length made.now.numbered.sheets }
{
    let numbered = &made.numbered;
    numbered.title_starts.len() + numbered.sheets.len()
}

/// The title sheet at a place.
pub fn made_title<'a>(lines: &'a Lines, made: &'a Made, place: usize) -> PageView<'a>
    requires inside { place < length made.now.numbered.title_starts }
    requires places { HasPlaces lines.now.lines made.now }
    ensures { result ≡ title_at lines.now.lines made.now place }
{
    let layout = &made.layout;
    let numbered = &made.numbered;
    title_view(lines, &layout.titles, &numbered.title_starts, place)
}

/// The sheet at a place behind the title sheets.
pub fn made_sheet<'a>(lines: &'a Lines, made: &'a Made, place: usize) -> Option<PageView<'a>>
    requires { HasPlaces lines.now.lines made.now }
    ensures some { IfSome result (IsSheetAt lines.now.lines made.now place) }
    ensures none { IfNone result (length made.now.numbered.sheets ≤ place) }
{
    let layout = &made.layout;
    let numbered = &made.numbered;
    match numbered.sheets.get(place) {
        None => None,
        Some(sheet) => Some(body_view(lines, &layout.body, lent_labels(&numbered.labels), sheet)),
    }
}
