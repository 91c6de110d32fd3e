//! The rows of a text before a change.
ghost use Rattle.std.specs.Prelude.{◌≡◌, ◌+◌, ◌<◌, ◌≤◌, All, IfSome, drop, length, take};
ghost use Rattle.spec_sheets.specs.Layout.{placed_in};
ghost use Rattle.spec_pages.specs.Rows.{shifted_row};
ghost use Rattle.sp_layout.specs.Bodies.{keyed_elements, row_count};
ghost use Rattle.sp_layout.specs.Exchanges.{CanMove, rows_at};
ghost use Rattle.sp_compare.specs.OldElements.{AreOtherRows, others_from, others_to, with_others, old_body, HasFewRows, rows_behind};
ghost use Rattle.sp_compare.specs.BareRows.{StandsAt};

use sp_layout::{Body, Row};
use spec_labels::RowKey;
use std::marker::Model;

/// From which place to before which other elements stand in the place of those that a change took out. Before it the lines of
/// those behind were less and more by so much.
#[derive(Clone, Copy)]
pub struct RunPlaces {
    pub from: usize,
    pub to: usize,
    pub less: u64,
    pub more: u64,
}

/// Rows that an element had before a change, and which of those after it that is.
#[derive(Drop)]
pub struct OtherRows<'a> {
    pub element: usize,
    pub rows: &'a [Row],
}

impl<'a> Model for OtherRows<'a> {
    ghost use Rattle.sp_compare.specs.OldElements.{OtherRowsOf};

    ghost Value = { OtherRowsOf };

    ghost view = { λ o. record { element = o.element; rows = o.rows.now } };
}

/// A row, its key, and the line from which it counts its lines.
#[derive(Drop)]
pub(crate) struct KeyedRow<'a> {
    pub first: u64,
    pub row: &'a Row,
    pub key: RowKey,
}

/// The row with so many rows before it.
pub(crate) fn row_at(body: &Body, row: usize) -> KeyedRow<'_>
    requires { row < row_count body.now.elements }
    ensures row { StandsAt (placed_in body.now.elements) row (shifted_row result.first result.row.now) }
    ensures key { StandsAt body.now.keys row result.key }
{
    let place = body.element_of_row(row);
    let start = body.row_start(place);
    let element = &body.elements()[place];
    KeyedRow {
        first: element.first,
        row: &element.rows[row - start],
        key: *body.keys().at(row),
    }
}

/// The rows that the element at a place had.
fn old_rows_at<'a>(body: &'a Body, others: &Option<OtherRows<'a>>, place: usize) -> &'a [Row]
    requires { place < length body.now.elements }
    ensures { result.now ≡ rows_at (with_others (keyed_elements body.now) others.now).elements place }
{
    if let Some(others) = others {
        if others.element == place {
            return others.rows;
        }
    }
    let element = &body.elements()[place];
    &element.rows
}

/// A row behind the elements before a place, with the lines that it had before these were moved.
fn row_behind<'a>(
    body: &'a Body,
    others: &Option<OtherRows<'a>>,
    at: RunPlaces,
    row: usize,
) -> KeyedRow<'a>
    requires within { at.to ≤ length body.now.elements }
    requires later { All (CanMove at.less at.more) (drop at.to body.now.elements) }
    requires others { IfSome others.now (AreOtherRows body.now.elements at.to) }
    requires row { row_count (take at.to body.now.elements) + row < row_count body.now.elements }
    ensures row { StandsAt (rows_behind body.now others.now at) row (shifted_row result.first result.row.now) }
    ensures key { StandsAt body.now.keys (row_count (take at.to body.now.elements) + row) result.key }
{
    let _len = body.len();
    let place = body.rows_before(at.to) + row;
    let it = body.element_of_row(place);
    let start = body.row_start(it);
    let element = &body.elements()[it];
    let first = element.first - at.less + at.more;
    let rows = old_rows_at(body, others, it);
    KeyedRow {
        first,
        row: &rows[place - start],
        key: *body.keys().at(place),
    }
}

/// From which row to before which other the element stands that has other rows; the row behind a place twice, where there is none.
pub(crate) fn rows_of_others(
    body: &Body,
    to: usize,
    others: &Option<OtherRows<'_>>,
) -> (usize, usize)
    requires within { to ≤ length body.now.elements }
    requires others { IfSome others.now (AreOtherRows body.now.elements to) }
    ensures from { result.0 ≡ others_from body.now.elements to others.now }
    ensures to { result.1 ≡ others_to body.now.elements to others.now }
{
    match others {
        Some(others) => {
            let place = others.element;
            let _len = body.len();
            (body.rows_before(place), body.rows_before(place + 1))
        }
        None => {
            let row = body.rows_before(to);
            (row, row)
        }
    }
}

/// The elements of a text before a change, by those after it: some of these stand in the place of others, the lines of those
/// behind them were less and more by so much, and one of these may have had other rows. No row is copied.
#[derive(Drop)]
pub struct OldRows<'a> {
    news: &'a Body,
    gone: &'a Body,
    at: RunPlaces,
    others: Option<OtherRows<'a>>,
}

impl<'a> Model for OldRows<'a> {
    ghost use Rattle.std.specs.Prelude.{◌≤◌, All, IfSome, drop, length};
    ghost use Rattle.sp_layout.specs.Bodies.{KeyedElements};
    ghost use Rattle.sp_layout.specs.Exchanges.{CanMove};
    ghost use Rattle.sp_compare.specs.OldElements.{AreOtherRows, HasFewRows, old_body};

    ghost Value = { KeyedElements };

    ghost view = { λ o. old_body o.news.now o.others o.at o.gone.now };

    ghost invariant = { λ o. (o.at.from ≤ o.at.to) × (o.at.to ≤ length o.news.now.elements) × All (CanMove o.at.less o.at.more) (drop o.at.to o.news.now.elements)
        × IfSome o.others (AreOtherRows o.news.now.elements o.at.to)
        × HasFewRows (old_body o.news.now o.others o.at o.gone.now) };
}

impl<'a> OldRows<'a> {
    /// The elements before a change that put those of `news` at some places in the place of `gone`, where one behind these had
    /// other rows, or none.
    pub fn new(
        news: &'a Body,
        gone: &'a Body,
        at: RunPlaces,
        others: Option<OtherRows<'a>>,
    ) -> OldRows<'a>
        requires order { at.from ≤ at.to }
        requires within { at.to ≤ length news.now.elements }
        requires later { All (CanMove at.less at.more) (drop at.to news.now.elements) }
        requires others { IfSome others (AreOtherRows news.now.elements at.to) }
        requires few { HasFewRows (old_body news.now others at gone.now) }
        ensures { result ≡ old_body news.now others.entry at gone.now }
    {
        OldRows {
            news,
            gone,
            at,
            others,
        }
    }

    /// How many rows there were.
    pub(crate) fn rows(&self) -> usize
        ensures { result ≡ row_count self.now.elements }
    {
        let front = self.news.rows_before(self.at.from);
        let till = self.news.rows_before(self.at.to);
        front + self.gone.rows() + (self.news.rows() - till)
    }

    /// The row that had so many rows before it.
    pub(crate) fn row(&self, row: usize) -> KeyedRow<'a>
        requires { row < row_count self.now.elements }
        ensures row { StandsAt (placed_in self.now.elements) row (shifted_row result.first result.row.now) }
        ensures key { StandsAt self.now.keys row result.key }
    {
        let _news = self.news.len();
        let _gone = self.gone.len();
        let front = self.news.rows_before(self.at.from);
        if row < front {
            return row_at(self.news, row);
        }
        let inside = row - front;
        let count = self.gone.rows();
        if inside < count {
            return row_at(self.gone, inside);
        }
        row_behind(self.news, &self.others, self.at, inside - count)
    }
}
