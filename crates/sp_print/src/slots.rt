//! The rows of a page below its header.
ghost use Rattle.std.specs.Prelude.{◌≡◌, ◌<◌, ◌≤◌, ◌∷◌, [], length, slice_get, MatchOption};
ghost use Rattle.spec_sheets.specs.PageRows.{height_above, page_body, page_height};

use crate::row_cursor::RowCursor;
use crate::{RowView, TextRow, empty_row, more_row};
use sp_fill::{continues_speech, goes_on};
use std::marker::Model;

/// The rows of a page that come next: one that stands by itself, so many empty rows, and a row of an element with those
/// behind it.
#[derive(Drop)]
pub(crate) struct Slots<'a> {
    extra: Option<RowView<'a>>,
    empty: usize,
    row: Option<TextRow<'a>>,
    later: RowCursor<'a>,
    round: u8,
}

impl<'a> Model for Slots<'a> {
    ghost use Rattle.std.specs.Prelude.{List};
    ghost use Rattle.spec_sheets.specs.RowBytes.{ShownRow};
    ghost use Rattle.sp_print.specs.Slots.{slots};

    ghost Value = { List ShownRow };

    ghost view = { λ s. slots s.extra s.empty s.row s.later s.round };
}

/// The row that a speech takes above a page that goes on with it.
fn height_above(row: &TextRow<'_>) -> usize
    ensures value { result ≡ height_above row.now }
    ensures bound { result ≤ 1 }
{
    if continues_speech(&row.shape()) { 1 } else { 0 }
}

impl<'a> Slots<'a> {
    /// The rows of a page with these rows of elements.
    pub(crate) fn new(rows: RowCursor<'a>, round: u8) -> Slots<'a>
        ensures { result ≡ page_body round rows.entry }
    {
        let mut later = rows;
        let row = later.next();
        let extra = match &row {
            Some(first) if continues_speech(&first.shape()) => Some(first.cue()),
            _ => None,
        };
        Slots {
            extra,
            empty: 0,
            row,
            later,
            round,
        }
    }

    /// The next row.
    pub(crate) fn next(&mut self) -> Option<RowView<'a>>
        ensures { MatchOption result (self.old ≡ []) (λ row. self.old ≡ row ∷ self.new) }
    {
        if let Some(extra) = self.extra.take() {
            return Some(extra);
        }
        if 0 < self.empty {
            self.empty -= 1;
            return Some(empty_row());
        }
        let row = self.row.take()?;
        match self.later.next() {
            Some(next) => {
                self.empty = next.shape().lead as usize;
                self.row = Some(next);
            }
            None if goes_on(&row.shape()) => self.extra = Some(more_row()),
            None => {}
        }
        Some(row.view(self.round))
    }
}

/// How many rows a page with these rows of elements has.
pub(crate) fn page_height(rows: RowCursor<'_>) -> usize
    requires { length rows ≤ 16777216 }
    ensures { result ≡ page_height rows.entry }
{
    let mut rows = rows;
    let Some(first) = rows.next() else {
        return 0;
    };
    let mut count = height_above(&first) + 1;
    let mut last = first.shape();
    while let Some(row) = rows.next() {
        last = row.shape();
        count += last.lead as usize + 1;
    }
    if goes_on(&last) { count + 1 } else { count }
}

/// The row at a place among those that come next.
pub(crate) fn slot_at<'a>(slots: Slots<'a>, k: usize) -> RowView<'a>
    requires { k < length slots }
    ensures { slice_get slots.entry k ≡ Some result }
{
    let mut slots = slots;
    for _ in 0..k {
        let _ = slots.next();
    }
    match slots.next() {
        Some(row) => row,
        None => unreachable!(),
    }
}
