//! The sheets on which headings begin.
ghost use Rattle.std.specs.Prelude.{◌≡◌, Some, map, find, slice_get, string_bytes, option_copied, IfOk};
ghost use Rattle.spec_machine.specs.Outlines.{has_row, heading_rows, sheet_text};
ghost use Rattle.sp_contents.specs.Sheets.{AreInTurn, EndBefore, if_begun};

use crate::sheet_label_text;
use sp_gap::GapList;
use sp_layout::begins_heading;
use sp_locks::Sheet;
use sp_print::SheetLabel;
use spec_pages::Shape;
use std::alloc::{AllocError, Global};

/// The places of the rows that headings begin with.
pub fn heading_rows(alloc: Global, shapes: &GapList<Shape>) -> Result<Vec<usize>, AllocError>
    ensures { IfOk result (λ rows. rows.items ≡ heading_rows 0 shapes.now.items) }
{
    let mut rows = Vec::new(alloc);
    for row in 0..shapes.len() {
        if begins_heading(shapes.at(row)) {
            rows.push(row)?;
        }
    }
    Ok(rows)
}

/// How many sheets end at a row or before it.
fn sheets_before(sheets: &[Sheet], row: usize) -> usize
    requires { AreInTurn sheets.now }
    ensures { EndBefore sheets.now row result }
{
    sheets.partition_point(|sheet| sheet.end <= row)
}

/// The sheet, where it doesn't begin behind a row.
fn if_begun(sheet: Option<&Sheet>, row: usize) -> Option<&Sheet>
    ensures { option_copied result ≡ if_begun row (option_copied sheet.entry) }
{
    match sheet {
        Some(sheet) => begun(sheet, row),
        None => None,
    }
}

fn begun(sheet: &Sheet, row: usize) -> Option<&Sheet>
    ensures { option_copied result ≡ if_begun row (Some sheet.now) }
{
    if sheet.start <= row {
        Some(sheet)
    } else {
        None
    }
}

fn sheet_at(sheets: &[Sheet], place: usize) -> Option<&Sheet>
    ensures { option_copied result ≡ slice_get sheets.now place }
{
    sheets.get(place)
}

/// The sheet with a row, by halves.
pub fn sheet_of(sheets: &[Sheet], row: usize) -> Option<&Sheet>
    requires { AreInTurn sheets.now }
    ensures { option_copied result ≡ find (has_row row) sheets.now }
{
    if_begun(sheet_at(sheets, sheets_before(sheets, row)), row)
}

/// The label of the sheet with a row.
fn sheet_text(alloc: Global, sheets: &[Sheet], row: usize) -> Result<String, AllocError>
    requires { AreInTurn sheets.now }
    ensures { IfOk result (λ text. string_bytes text ≡ sheet_text sheets.now row) }
{
    match sheet_of(sheets, row) {
        Some(sheet) => sheet_label_text(
            alloc,
            SheetLabel {
                first: &sheet.first,
                last: &sheet.last,
            },
        ),
        None => Ok(String::new(alloc)),
    }
}

/// The labels of the sheets with these rows.
pub fn sheet_texts(
    alloc: Global,
    sheets: &[Sheet],
    rows: &[usize],
) -> Result<Vec<String>, AllocError>
    requires { AreInTurn sheets.now }
    ensures { IfOk result (λ texts. map string_bytes texts.items ≡ map (sheet_text sheets.now) rows.now) }
{
    let mut texts = Vec::with_capacity(alloc, rows.len())?;
    for row in rows {
        texts.push(sheet_text(alloc, sheets, *row)?)?;
    }
    Ok(texts)
}
