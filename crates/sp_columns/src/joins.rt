//! Rows of two halves side by side (docs/RULES.md, "Elements").
ghost use Rattle.std.specs.Prelude.{◌≡◌, ◌+◌, ◌≤◌, length, OnOk};
ghost use Rattle.spec_pages.specs.Rows.{half_row, joined_row, joined_rows};

use crate::cells::CellList;
use crate::values::Row;
use spec_pages::RowKind;
use std::alloc::{AllocError, Global};

/// Makes a row one of dual dialogue, with one half.
fn half_row(row: &mut Row)
    ensures { row.new ≡ half_row row.old }
{
    row.shape.lead = 0;
    row.shape.kind = RowKind::Dual;
    row.shape.sentence_end = false;
}

/// Makes a row one of dual dialogue, with the other half where there is one.
fn join_row(alloc: Global, row: &mut Row, other: Row) -> Result<(), AllocError>
    ensures { OnOk result (row.new ≡ joined_row row.old other) }
{
    let mut other = other;
    half_row(row);
    row.mark = row.mark.max(other.mark);
    let mut cells = row.cells.take(alloc)?;
    cells.append(&mut other.cells.take(alloc)?)?;
    row.cells = CellList::from_vec(alloc, cells)?;
    Ok(())
}

/// Puts the rows of a right half of dual dialogue beside those of a left one, the first beside the first. What is over on
/// either side stands in rows of its own. The error is want of memory alone.
pub fn join_rows(alloc: Global, rows: &mut Vec<Row>, right: Vec<Row>) -> Result<(), AllocError>
    ensures rows { OnOk result (rows.new.items ≡ joined_rows rows.old.items right.items) }
    ensures few { OnOk result (length rows.new.items ≤ length rows.old.items + length right.items) }
{
    let mut others = right.into_iter();
    for row in rows.iter_mut() {
        match others.next() {
            Some(other) => join_row(alloc, row, other)?,
            None => half_row(row),
        }
    }
    for other in others {
        let mut row = other;
        half_row(&mut row);
        rows.push(row)?;
    }
    Ok(())
}
