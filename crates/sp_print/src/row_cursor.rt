//! A walk over the rows of elements.
ghost use Rattle.std.specs.Prelude.{◌≡◌, ◌≤◌, ◌∷◌, [], All, MatchOption, slice_range};
ghost use Rattle.std.specs.Option.{option_copied};
ghost use Rattle.spec_text.specs.Lines.{line_texts};
ghost use Rattle.spec_sheets.specs.Cells.{RowShows};
ghost use Rattle.spec_sheets.specs.Layout.{placed_in};
ghost use Rattle.spec_sheets.specs.Shown.{heading_label, labels_behind, shown_rows};

use crate::TextRow;
use sp_labels::Label;
use sp_layout::{Element, is_heading_element};
use sp_text::Lines;
use std::marker::Model;

/// The next rows of elements: `left` of them, behind the first `skip`. `numbers` are the labels of the headings.
#[derive(Drop)]
pub(crate) struct RowCursor<'a> {
    lines: &'a Lines,
    elements: &'a [Element],
    numbers: Option<&'a [Label]>,
    skip: usize,
    left: usize,
}

impl<'a> Model for RowCursor<'a> {
    ghost use Rattle.std.specs.Prelude.{List, All, drop, take};
    ghost use Rattle.std.specs.Option.{option_copied};
    ghost use Rattle.spec_text.specs.Lines.{line_texts};
    ghost use Rattle.spec_sheets.specs.Cells.{RowShows};
    ghost use Rattle.spec_sheets.specs.Layout.{placed_in};
    ghost use Rattle.spec_sheets.specs.Shown.{Shown, shown_rows};

    ghost Value = { List Shown };

    ghost view = { λ r. take r.left (drop r.skip (shown_rows r.lines.now.lines (option_copied r.numbers) r.elements.now)) };

    ghost invariant = { λ r. All (RowShows (line_texts r.lines.now.lines)) (placed_in r.elements.now) };
}

/// The label of an element that is a heading: the first of the labels.
fn heading_label<'a>(numbers: Option<&'a [Label]>, element: &Element) -> Option<&'a Label>
    ensures { option_copied result ≡ heading_label (option_copied numbers.entry) element.now }
{
    let labels = numbers?;
    if is_heading_element(element) {
        labels.first()
    } else {
        None
    }
}

/// The labels of the headings behind an element.
fn labels_behind<'a>(numbers: Option<&'a [Label]>, element: &Element) -> Option<&'a [Label]>
    ensures { option_copied result ≡ labels_behind (option_copied numbers.entry) element.now }
{
    let labels = numbers?;
    if !is_heading_element(element) {
        return Some(labels);
    }
    match labels.split_first() {
        Some((_, others)) => Some(others),
        None => Some(labels),
    }
}

impl<'a> RowCursor<'a> {
    /// The rows `from` to before `to` of these elements.
    pub(crate) fn new(
        lines: &'a Lines,
        elements: &'a [Element],
        numbers: Option<&'a [Label]>,
        from: usize,
        to: usize,
    ) -> RowCursor<'a>
        requires order { from ≤ to }
        requires show { All (RowShows (line_texts lines.now.lines)) (placed_in elements.now) }
        ensures { result ≡ slice_range (shown_rows lines.now.lines (option_copied numbers.entry) elements.now) from to }
    {
        RowCursor {
            lines,
            elements,
            numbers,
            skip: from,
            left: to - from,
        }
    }

    /// The same rows once more.
    pub(crate) fn again(&self) -> RowCursor<'a>
        ensures { result ≡ self.now }
    {
        RowCursor {
            lines: self.lines,
            elements: self.elements,
            numbers: self.numbers,
            skip: self.skip,
            left: self.left,
        }
    }

    /// The next row.
    pub(crate) fn next(&mut self) -> Option<TextRow<'a>>
        ensures { MatchOption result (self.old ≡ []) (λ row. self.old ≡ row ∷ self.new) }
    {
        if self.left == 0 {
            return None;
        }
        while let Some((element, others)) = self.elements.split_first() {
            let count = element.rows.len();
            if self.skip < count {
                let next = TextRow {
                    lines: self.lines,
                    element,
                    row: &element.rows[self.skip],
                    label: heading_label(self.numbers, element),
                };
                self.skip += 1;
                self.left -= 1;
                return Some(next);
            }
            self.skip -= count;
            self.numbers = labels_behind(self.numbers, element);
            self.elements = others;
        }
        None
    }
}
