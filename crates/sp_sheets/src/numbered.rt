//! The sheets of a text whose pages aren't locked.
ghost use Rattle.std.specs.Prelude.{◌≡◌, ℕ, ◌+◌, ◌-◌, ◌<◌, ◌≤◌, ◌++◌, false, List, All, AllPairs, drop, fold, length, map, max, slice_index, slice_index_or, slice_range, take, OnErr, OnOk, vec_capacity, vec_len};
ghost use Rattle.std.specs.Bool.{OnTrue};
ghost use Rattle.spec_labels.specs.Labels.{plain_label};
ghost use Rattle.spec_labels.specs.PageRecords.{SheetOf};
ghost use Rattle.sp_gap.specs.Moves.{shifted};
ghost use Rattle.sp_reflow.specs.Updates.{with_taken, CanPutBack};
ghost use Rattle.sp_sheets.specs.Numbered.{marked_sheets, moved_sheet, numbered_sheet, AreMovedOutside, AreUnmarked, CanMoveSheet};

use sp_gap::{GapList, make_room};
use sp_labels::Label;
use sp_locks::Sheet;
use sp_reflow::SwappedPages;
use std::alloc::{AllocError, Global};

/// What becomes of sheets where pages changed: those before one place, counted from 0, stay, those from there to before another are set
/// anew, and the rows of those from that one on get less and more by so much.
#[derive(Clone, Copy)]
pub struct Stale {
    pub from: usize,
    pub to: usize,
    pub less: usize,
    pub more: usize,
}

/// The greatest of the marks from one place to before another, or 0: so the marks of a page's rows give its round (docs/RULES.md,
/// "Sheets").
pub fn greatest(marks: &GapList<u8>, from: usize, to: usize) -> u8
    requires order { from ≤ to }
    requires within { to ≤ length marks.now.items }
    ensures { result ≡ fold max 0 (slice_range marks.now.items from to) }
{
    let mut greatest = 0u8;
    for row in from..to {
        greatest = greatest.max(*marks.at(row));
    }
    greatest
}

/// The label of the page with this number.
fn plain_label(alloc: Global, number: u32) -> Label
    ensures { result ≡ plain_label number }
{
    Label {
        number,
        path: Vec::new(alloc),
    }
}

/// Makes a label that of the page with this number.
fn renew_label(label: &mut Label, number: u32)
    ensures { label.new ≡ plain_label number }
{
    label.number = number;
    label.path.clear();
}

/// The round of a page: the greatest mark of its rows, which isn't looked for where no row is marked.
fn round_of(marks: &GapList<u8>, is_marked: bool, start: usize, end: usize) -> u8
    requires order { start ≤ end }
    requires within { end ≤ length marks.now.items }
    requires unmarked { is_marked ≡ false → All (λ mark. mark ≡ 0) marks.now.items }
    ensures { result ≡ fold max 0 (slice_range marks.now.items start end) }
{
    if is_marked {
        greatest(marks, start, end)
    } else {
        0
    }
}

/// The sheet of the page with this number.
fn numbered_sheet(alloc: Global, number: u32, start: usize, end: usize, round: u8) -> Sheet
    ensures { result ≡ numbered_sheet number start end round }
{
    Sheet {
        first: plain_label(alloc, number),
        last: plain_label(alloc, number),
        start,
        end,
        round,
        omitted: false,
    }
}

/// Makes a sheet that of the page with this number.
fn renew_sheet(sheet: &mut Sheet, number: u32, start: usize, end: usize, round: u8)
    ensures { sheet.new ≡ numbered_sheet number start end round }
{
    renew_label(&mut sheet.first, number);
    renew_label(&mut sheet.last, number);
    sheet.start = start;
    sheet.end = end;
    sheet.round = round;
    sheet.omitted = false;
}

/// The row behind the page at a place, counted from 0, where `pages` are the first rows of all pages of so many rows.
pub fn page_behind(pages: &[usize], place: usize, rows: usize) -> usize
    requires inside { place < length pages.now }
    requires rising { AllPairs (λ one other. one < other) pages.now }
    requires within { All (λ page. page < rows) pages.now }
    ensures value { result ≡ slice_index_or pages.now (place + 1) rows }
    ensures above { slice_index pages.now place < result }
    ensures low { result ≤ rows }
{
    if place + 1 < pages.len() {
        pages[place + 1]
    } else {
        rows
    }
}

/// Whether the last sheet ends at this row; false where there is none.
pub(crate) fn ends_at(sheets: &[Sheet], row: usize) -> bool
    ensures { OnTrue result ((other : SheetOf) → (slice_index_or sheets.now (length sheets.now - 1) other).end ≡ row) }
{
    match sheets.last() {
        Some(last) => last.end == row,
        None => false,
    }
}

/// Whether the last sheet ends at this row, less and more by so much; false where there is no sheet or no such row.
fn ends_at_moved(sheets: &[Sheet], row: usize, less: usize, more: usize) -> bool
    ensures less { OnTrue result (less ≤ row) }
    ensures ends { OnTrue result ((other : SheetOf)
        → (slice_index_or sheets.now (length sheets.now - 1) other).end ≡ shifted less more row) }
{
    if row < less {
        return false;
    }
    match (row - less).checked_add(more) {
        Some(moved) => ends_at(sheets, moved),
        None => false,
    }
}

/// The sheets to be set anew, and those to be moved, where page starts were exchanged and no row is marked; where rows may be marked
/// all are set anew. The marks are those of all rows after the exchange, and `swapped` would make the page starts those before.
/// A sheet ends where the next page begins, so that the one before the exchanged pages is set anew. Those behind them are moved where
/// as many pages came as went and the last one, moved, ends behind the last row.
pub fn stale_places(
    sheets: &[Sheet],
    marks: &GapList<u8>,
    renews_all: bool,
    swapped: &SwappedPages,
) -> Stale
    requires unmarked { renews_all ≡ false → All (λ mark. mark ≡ 0) marks.now.items }
    ensures { (pages : List ℕ) → CanPutBack pages swapped.now
        → (renews_all ≡ false → AreUnmarked sheets.now (with_taken pages swapped.now))
        → AreMovedOutside sheets.now (marked_sheets marks.now.items 1 pages) result }
{
    if renews_all {
        return Stale {
            from: 0,
            to: sheets.len(),
            less: 0,
            more: 0,
        };
    }
    let standing = swapped.standing();
    let from = standing.before.saturating_sub(1);
    match standing.behind {
        Some(behind) if ends_at_moved(sheets, marks.len(), standing.less, standing.more) => Stale {
            from,
            to: behind,
            less: standing.more,
            more: standing.less,
        },
        _ => Stale {
            from,
            to: sheets.len(),
            less: 0,
            more: 0,
        },
    }
}

/// Makes the rows of each sheet less and more by so much.
fn move_all(sheets: &mut [Sheet], less: usize, more: usize)
    requires { All (CanMoveSheet less more) sheets.old }
    ensures { sheets.new ≡ map (moved_sheet less more) sheets.old }
{
    for sheet in sheets.iter_mut() {
        sheet.start = sheet.start - less + more;
        sheet.end = sheet.end - less + more;
    }
}

/// Makes the rows of sheets, from one on, less and more by so much. Where that is the same none is looked at.
fn move_sheets(sheets: &mut Vec<Sheet>, from: usize, less: usize, more: usize)
    requires within { from ≤ vec_len sheets.old }
    requires can { All (CanMoveSheet less more) (drop from sheets.old.items) }
    ensures sheets { sheets.new.items ≡ take from sheets.old.items ++ map (moved_sheet less more)
        (drop from sheets.old.items) }
    ensures len { vec_len sheets.new ≡ vec_len sheets.old }
    ensures room { vec_capacity sheets.new ≡ vec_capacity sheets.old }
{
    if less != more {
        move_all(&mut sheets[from..], less, more);
    }
}

/// Makes sheets those of the first pages. Outside the stale places they are such already, or are once they are moved.
fn renew_first(
    marks: &GapList<u8>,
    is_marked: bool,
    pages: &[usize],
    stale: Stale,
    sheets: &mut Vec<Sheet>,
)
    requires stale { AreMovedOutside sheets.old.items (marked_sheets marks.now.items 1 pages.now) stale }
    requires fewer { vec_len sheets.old ≤ length pages.now }
    requires few { length pages.now ≤ 16777216 }
    requires rising { AllPairs (λ one other. one < other) pages.now }
    requires within { All (λ page. page < length marks.now.items) pages.now }
    requires unmarked { is_marked ≡ false → All (λ mark. mark ≡ 0) marks.now.items }
    ensures sheets { sheets.new.items ≡ take (vec_len sheets.old) (marked_sheets marks.now.items 1 pages.now) }
    ensures len { vec_len sheets.new ≡ vec_len sheets.old }
    ensures room { vec_capacity sheets.new ≡ vec_capacity sheets.old }
{
    let rows = marks.len();
    let to = stale.to.min(sheets.len());
    for place in stale.from..to {
        let start = pages[place];
        let end = page_behind(pages, place, rows);
        let round = round_of(marks, is_marked, start, end);
        renew_sheet(&mut sheets[place], place as u32 + 1, start, end, round);
    }
    move_sheets(sheets, to, stale.less, stale.more);
}

/// Adds the sheets of the pages that have none yet.
fn add_sheets(
    alloc: Global,
    marks: &GapList<u8>,
    is_marked: bool,
    pages: &[usize],
    sheets: &mut Vec<Sheet>,
)
    requires fewer { vec_len sheets.old ≤ length pages.now }
    requires few { length pages.now ≤ 16777216 }
    requires room { length pages.now ≤ vec_capacity sheets.old }
    requires rising { AllPairs (λ one other. one < other) pages.now }
    requires within { All (λ page. page < length marks.now.items) pages.now }
    requires unmarked { is_marked ≡ false → All (λ mark. mark ≡ 0) marks.now.items }
    requires sheets { sheets.old.items ≡ take (vec_len sheets.old) (marked_sheets marks.now.items 1 pages.now) }
    ensures { sheets.new.items ≡ marked_sheets marks.now.items 1 pages.now }
{
    for place in sheets.len()..pages.len() {
        let start = pages[place];
        let end = page_behind(pages, place, marks.len());
        let round = round_of(marks, is_marked, start, end);
        sheets.push_reserved(numbered_sheet(alloc, place as u32 + 1, start, end, round));
    }
}

/// Makes sheets those of rows with these marks on these pages, given by their first rows, numbered from 1; each has the greatest mark
/// of its rows as round (docs/RULES.md, "Sheets").
/// Outside the stale places they are such already, or are once they are moved: those before them aren't looked at, and the later ones
/// only where they move. Where no row is marked no mark is looked at.
/// `AllocError` comes for want of memory alone, and leaves the sheets as they are.
pub fn renew_sheets(
    alloc: Global,
    marks: &GapList<u8>,
    is_marked: bool,
    pages: &[usize],
    stale: Stale,
    sheets: &mut Vec<Sheet>,
) -> Result<(), AllocError>
    requires stale { AreMovedOutside sheets.old.items (marked_sheets marks.now.items 1 pages.now) stale }
    requires rising { AllPairs (λ one other. one < other) pages.now }
    requires within { All (λ page. page < length marks.now.items) pages.now }
    requires few { length pages.now ≤ 16777216 }
    requires unmarked { is_marked ≡ false → All (λ mark. mark ≡ 0) marks.now.items }
    ensures made { OnOk result (sheets.new.items ≡ marked_sheets marks.now.items 1 pages.now) }
    ensures same { OnErr result (sheets.new.items ≡ sheets.old.items) }
{
    make_room(sheets, pages.len())?;
    sheets.truncate(pages.len());
    renew_first(marks, is_marked, pages, stale, sheets);
    add_sheets(alloc, marks, is_marked, pages, sheets);
    Ok(())
}
