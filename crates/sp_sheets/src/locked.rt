//! The sheets of a text whose pages are locked.
ghost use Rattle.std.specs.Prelude.{◌≡◌, IsTrue, OnErr, OnOk};
ghost use Rattle.spec_labels.specs.PageRecords.{sheets_of_records};
ghost use Rattle.sp_sheets.specs.Locked.{LockedSheets, AreSheetsBefore};

use crate::numbered::ends_at;
use sp_locks::{PageRecord, Sheet, renew_rounds};
use std::alloc::{AllocError, Global};

/// Makes sheets those of page records with these first rows, on these pages, given by their first rows, of a text of so many rows
/// (docs/RULES.md, "Page records"). Where they are those of records with the same labels, first rows and pages they may be kept: then
/// they get their rounds alone, if the last one still ends behind the last row, and it takes no memory. `AllocError` comes for want of
/// memory alone, and leaves the sheets as they are.
pub fn renew_locked(
    alloc: Global,
    records: &[PageRecord],
    firsts: &[usize],
    pages: &[usize],
    rows: usize,
    keeps: bool,
    sheets: &mut Vec<Sheet>,
) -> Result<(), AllocError>
    requires asked { LockedSheets rows records.now firsts.now pages.now }
    requires kept { IsTrue keeps → AreSheetsBefore records.now firsts.now pages.now sheets.old.items }
    ensures made { OnOk result (sheets.new.items ≡ sheets_of_records rows records.now firsts.now pages.now) }
    ensures same { OnErr result (sheets.new.items ≡ sheets.old.items) }
{
    if keeps && ends_at(sheets, rows) {
        renew_rounds(records, firsts, pages, rows, sheets);
        return Ok(());
    }
    *sheets = sp_locks::sheets(alloc, records, firsts, pages, rows)?;
    Ok(())
}
