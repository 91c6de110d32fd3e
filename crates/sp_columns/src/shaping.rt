//! What rows show to page ends.
ghost use Rattle.std.specs.Prelude.{◌≡◌, ◌^◌, ◌<◌, length, map};
ghost use Rattle.spec_pages.specs.Rows.{lead_at, shaped_row, shaped_rows, title_row};

use crate::values::Row;
use spec_pages::{RowKind, Shape};

/// The empty rows before a row with so many rows of its element before it, by the lead of its line.
fn lead_at(lead: u8, index: u32, own: u8) -> u8
    ensures { result ≡ lead_at lead index own }
{
    if index == 0 { lead } else { own }
}

/// Tells a row how many rows of its element stand before it and behind it.
fn shape_row(row: &mut Row, lead: u8, index: u32, rest: u32)
    ensures { row.new ≡ shaped_row lead index rest row.old }
{
    row.shape.lead = lead_at(lead, index, row.shape.lead);
    row.shape.index = index;
    row.shape.rest = rest;
}

/// Tells the rows of an element how many of them stand before each and behind it. Before the first stand `lead` empty rows.
pub fn shape_rows(rows: &mut [Row], lead: u8)
    requires { length rows.old < 2 ^ 32 }
    ensures { rows.new ≡ shaped_rows lead 0 rows.old }
{
    let mut rest = rows.len() as u32;
    let mut index = 0;
    for row in rows.iter_mut() {
        rest -= 1;
        shape_row(row, lead, index, rest);
        index += 1;
    }
}

/// Shows a row of a title page to page ends as the middle of one element.
fn title_row(row: &mut Row)
    ensures { row.new ≡ title_row row.old }
{
    row.shape = Shape {
        lead: row.shape.lead,
        kind: RowKind::Action,
        index: 1,
        rest: 0,
        sentence_end: false,
    };
}

/// Shows each row of a title page to page ends as the middle of one element. The empty rows before it stay.
pub fn title_rows(rows: &mut [Row])
    ensures { rows.new ≡ map title_row rows.old }
{
    for row in rows.iter_mut() {
        title_row(row);
    }
}
