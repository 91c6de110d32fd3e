//! A text laid out before a change of its lines and after it.
ghost use Rattle.std.specs.Prelude.{◌≡◌, ◌+◌, ◌<◌, ◌≤◌, All, IfSome, drop, length};
ghost use Rattle.spec_state.specs.SameRows.{same_list, same_row};
ghost use Rattle.sp_layout.specs.Bodies.{keyed_elements, row_count};
ghost use Rattle.sp_layout.specs.Exchanges.{CanMove};
ghost use Rattle.sp_compare.specs.BareRows.{AreLaid, AreSameRows, StayOutside, TellsSameRows, both_of, new_rows, old_rows, row_is, row_was};
ghost use Rattle.sp_compare.specs.OldElements.{AreOtherRows, old_body, HasFewRows};

use crate::cells::same_cells;
use crate::old_rows::{OldRows, OtherRows, RunPlaces, row_at, rows_of_others};
use crate::shapes::{same_key, same_shape};
use sp_layout::{Body, Cell, Row};
use sp_text::{Lines, OldLines};
use std::marker::Model;

/// A text laid out before a change of its lines and after it. The first rows of both are the same, and those from some row
/// of the one on are those from some row of the other on, but for the rows of one element among these.
#[derive(Drop)]
pub struct BothTexts<'a> {
    old: OldLines<'a>,
    olds: OldRows<'a>,
    new: &'a Lines,
    news: &'a Body,
    same_to: usize,
    old_from: usize,
    new_from: usize,
    others_from: usize,
    others_to: usize,
}

impl<'a> Model for BothTexts<'a> {
    ghost use Rattle.sp_layout.specs.Bodies.{keyed_elements};
    ghost use Rattle.sp_compare.specs.BareRows.{AreLaid, AreSameAround, Both};

    ghost Value = { Both };

    ghost view = { λ b. record { old = b.old; olds = b.olds.elements; new = b.new.now.lines; news = b.news.now.elements } };

    ghost invariant = { λ b. AreLaid b.old b.olds × AreLaid b.new.now.lines (keyed_elements b.news.now)
        × AreSameAround b.old b.olds.elements b.new.now.lines b.news.now.elements
        b.same_to b.old_from b.new_from b.others_from b.others_to };
}

/// The cells of a row.
fn cells_of(row: &Row) -> &[Cell]
    ensures { result.now ≡ row.now.cells }
{
    row.cells.as_slice()
}

impl<'a> BothTexts<'a> {
    /// A text before a change and after it, where the elements of `news` at some places stand in the place of `gone`, and one
    /// behind these had other rows, or none. No row is copied.
    pub fn exchanged(
        old: OldLines<'a>,
        gone: &'a Body,
        at: RunPlaces,
        others: Option<OtherRows<'a>>,
        new: &'a Lines,
        news: &'a Body,
    ) -> BothTexts<'a>
        requires order { at.from ≤ at.to }
        requires within { at.to ≤ length news.now.elements }
        requires later { All (CanMove at.less at.more) (drop at.to news.now.elements) }
        requires others { IfSome others (AreOtherRows news.now.elements at.to) }
        requires few { HasFewRows (old_body news.now others at gone.now) }
        requires olds { AreLaid old (old_body news.now others at gone.now) }
        requires news { AreLaid new.now.lines (keyed_elements news.now) }
        requires outside { StayOutside old new.now.lines news.now.elements at.from at.to at.less at.more }
        ensures { result ≡ both_of old.entry (old_body news.now others.entry at gone.now)
            new.now.lines (keyed_elements news.now) }
    {
        let same_to = news.rows_before(at.from);
        let new_from = news.rows_before(at.to);
        let (others_from, others_to) = rows_of_others(news, at.to, &others);
        let olds = OldRows::new(news, gone, at, others);
        let _rows = olds.rows();
        let old_from = same_to + gone.rows();
        BothTexts {
            old,
            olds,
            new,
            news,
            same_to,
            old_from,
            new_from,
            others_from,
            others_to,
        }
    }

    /// How many rows there were before the change.
    pub fn rows_before(&self) -> usize
        ensures { result ≡ row_count self.now.olds }
    {
        self.olds.rows()
    }

    /// How many rows there are after the change.
    pub fn rows_after(&self) -> usize
        ensures { result ≡ row_count self.now.news }
    {
        self.news.rows()
    }

    /// Whether a row before the change and one after it are the same.
    fn same_row(&self, row: usize, other: usize) -> bool
        requires row { row < row_count self.now.olds }
        requires other { other < row_count self.now.news }
        ensures { result ≡ same_row (row_was self.now row) (row_is self.now other) }
    {
        let one = self.olds.row(row);
        let it = row_at(self.news, other);
        let was = one.row;
        let now = it.row;
        if !same_key(one.key, it.key) {
            return false;
        }
        if !same_shape(was.shape, now.shape) {
            return false;
        }
        if was.mark != now.mark {
            return false;
        }
        same_cells(
            &self.old,
            one.first,
            cells_of(was),
            self.new,
            it.first,
            cells_of(now),
        )
    }

    /// Whether so many rows before the change and after it are the same.
    fn same_run(&self, from: usize, start: usize, count: usize) -> bool
        requires old { from + count ≤ row_count self.now.olds }
        requires new { start + count ≤ row_count self.now.news }
        ensures { result ≡ same_list (old_rows self.now from (from + count)) (new_rows self.now start (start + count)) }
    {
        let _olds = self.olds.rows();
        let _news = self.news.rows();
        for k in 0..count {
            if !self.same_row(from + k, start + k) {
                return false;
            }
        }
        true
    }

    /// Which of so many rows are compared, from one to before another: the others are the same before the change and after it.
    fn compared(&self, from: usize, start: usize, count: usize) -> (usize, usize)
        requires old { from + count ≤ row_count self.now.olds }
        requires new { start + count ≤ row_count self.now.news }
        ensures order { result.0 ≤ result.1 }
        ensures within { result.1 ≤ count }
        ensures front { AreSameRows self.now from (from + result.0) start (start + result.0) }
        ensures behind { AreSameRows self.now (from + result.1) (from + count) (start + result.1) (start + count) }
    {
        let _olds = self.olds.rows();
        if from == start && from + count <= self.same_to {
            return (0, 0);
        }
        if from < self.old_from || start < self.new_from {
            return (0, count);
        }
        if from - self.old_from != start - self.new_from {
            return (0, count);
        }
        let first = self.others_from.saturating_sub(start);
        let end = self.others_to.saturating_sub(start);
        (first.min(count), end.min(count))
    }

    /// Whether the rows from one to before another, before the change, are the same as those after it: by their keys,
    /// shapes, marks, and cells without scene numbers (docs/RULES.md, "Edits and records"). Each row is looked at once, and
    /// none where all stand where the change left them, but for those of the element that had other rows.
    pub fn same_rows(&self, from: usize, to: usize, start: usize, end: usize) -> bool
        requires old { from ≤ to }
        requires old_within { to ≤ row_count self.now.olds }
        requires new { start ≤ end }
        requires new_within { end ≤ row_count self.now.news }
        ensures { TellsSameRows self.now from to start end result }
    {
        if to - from != end - start {
            return false;
        }
        let _olds = self.olds.rows();
        let _news = self.news.rows();
        let (first, last) = self.compared(from, start, to - from);
        self.same_run(from + first, start + first, last - first)
    }
}
