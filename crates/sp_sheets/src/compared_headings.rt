//! The headings among rows, compared.
ghost use Rattle.std.specs.Prelude.{◌≡◌, ◌≤◌, ◌↔◌, IsTrue, length, slice_range};
ghost use Rattle.sp_sheets.specs.HeadingIds.{IsHeadingFrom, heading_ids};

use sp_gap::GapList;
use sp_layout::begins_heading;
use spec_labels::RowKey;
use spec_pages::Shape;

/// The first row of a heading from a place on, or the number of rows.
fn next_heading(shapes: &GapList<Shape>, from: usize) -> usize
    requires { from ≤ length shapes.now.items }
    ensures { IsHeadingFrom shapes.now.items from result }
{
    for place in from..shapes.len() {
        if begins_heading(shapes.at(place)) {
            return place;
        }
    }
    shapes.len()
}

/// Whether the headings of the rows from one to before another stand on the lines of those of others, in order: rows are given by
/// what page ends see of them, and by their keys. Then they have the same labels.
pub fn same_headings(
    shapes: &GapList<Shape>,
    keys: &GapList<RowKey>,
    from: usize,
    to: usize,
    others: &GapList<Shape>,
    other_keys: &GapList<RowKey>,
) -> bool
    requires order { from ≤ to }
    requires within { to ≤ length shapes.now.items }
    requires keys { length keys.now.items ≡ length shapes.now.items }
    requires other_keys { length other_keys.now.items ≡ length others.now.items }
    ensures { IsTrue result ↔ heading_ids (slice_range shapes.now.items from to)
        (slice_range keys.now.items from to) ≡ heading_ids others.now.items other_keys.now.items }
{
    let mut next = next_heading(others, 0);
    for place in from..to {
        if begins_heading(shapes.at(place)) {
            if next == others.len() || other_keys.at(next).line != keys.at(place).line {
                return false;
            }
            next = next_heading(others, next + 1);
        }
    }
    next == others.len()
}
