//! The page records whose rows an edit changed.
ghost use Rattle.std.specs.Prelude.{◌≡◌, ◌+◌, ◌<◌, IfOk, length, slice_index_or};
ghost use Rattle.sp_layout.specs.Bodies.{row_count};
ghost use Rattle.sp_compare.specs.Raised.{AreSegments, TellsSameSegment, AreRaises};

use crate::both::BothTexts;
use sp_locks::PageRecord;
use spec_labels::Moved;
use std::alloc::{AllocError, Global};

/// The row behind the segment at a place: the start of the next one, or the number of rows.
fn segment_end(starts: &[usize], place: usize, rows: usize) -> usize
    requires { place < length starts.now }
    ensures { result ≡ slice_index_or starts.now (place + 1) rows }
{
    if place + 1 < starts.len() {
        starts[place + 1]
    } else {
        rows
    }
}

/// How many rows a text had before a change, and has after it.
#[derive(Clone, Copy)]
struct RowCounts {
    before: usize,
    after: usize,
}

/// Whether a segment's rows before a change are the same as after it.
fn same_segment(
    texts: &BothTexts<'_>,
    rows: RowCounts,
    before: &[usize],
    after: &[usize],
    place: usize,
) -> bool
    requires rows_before { rows.before ≡ row_count texts.now.olds }
    requires rows_after { rows.after ≡ row_count texts.now.news }
    requires before { AreSegments (row_count texts.now.olds) (length before.now) before.now }
    requires after { AreSegments (row_count texts.now.news) (length before.now) after.now }
    requires inside { place < length before.now }
    ensures { TellsSameSegment texts.now before.now after.now place result }
{
    let to = segment_end(before, place, rows.before);
    let end = segment_end(after, place, rows.after);
    texts.same_rows(before[place], to, after[place], end)
}

/// The rounds that the records get whose rows a change made others, in the order of the records (docs/RULES.md, "Edits and
/// records"). `before` and `after` are their first rows before the change and after it, and `round` is that of the state. Each row
/// is looked at once. `AllocError` comes for want of memory alone.
pub fn raises(
    alloc: Global,
    texts: &BothTexts<'_>,
    before: &[usize],
    after: &[usize],
    records: &[PageRecord],
    round: u8,
) -> Result<Vec<Moved>, AllocError>
    requires before { AreSegments (row_count texts.now.olds) (length records.now) before.now }
    requires after { AreSegments (row_count texts.now.news) (length records.now) after.now }
    ensures { IfOk result (λ moved. AreRaises texts.now round before.now after.now records.now moved.items) }
{
    let rows = RowCounts {
        before: texts.rows_before(),
        after: texts.rows_after(),
    };
    let mut moved = Vec::new(alloc);
    for (index, record) in records.iter().enumerate() {
        if !same_segment(texts, rows, before, after, index) {
            moved.push(Moved {
                index: index as u64,
                line: record.line,
                row: record.row,
                changed: round,
            })?;
        }
    }
    Ok(moved)
}
