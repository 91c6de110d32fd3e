//! The headings among rows that are laid out.
ghost use Rattle.std.specs.Prelude.{◌≡◌, ℕ, ◌≤◌, ◌↔◌, IsTrue, length, take};
ghost use Rattle.sp_layout.specs.Bodies.{row_count};
ghost use Rattle.sp_layout.specs.Changes.{CanChange};
ghost use Rattle.sp_layout.specs.Kept.{laid_of};
ghost use Rattle.sp_sheets.specs.Headings.{KeepsBodyHeadings, KeepsHeadings};

use crate::same_headings;
use sp_layout::{Body, KeptLayout, LayoutChange};

/// The first of the rows of the elements from one place to before another, and the row behind them.
fn rows_of_run(body: &Body, from: usize, to: usize) -> (usize, usize)
    requires order { from ≤ to }
    requires within { to ≤ length body.now.elements }
    ensures start { result.0 ≡ row_count (take from body.now.elements) }
    ensures end { result.1 ≡ row_count (take to body.now.elements) }
    ensures order { result.0 ≤ result.1 }
    ensures within { result.1 ≤ row_count body.now.elements }
{
    (body.rows_before(from), body.rows_before(to))
}

/// Whether the headings of a body stay on their lines, in order, when others stand in the place of those of its elements from
/// one place to before another.
fn keeps_body_headings(body: &Body, from: usize, to: usize, others: &Body) -> bool
    requires order { from ≤ to }
    requires within { to ≤ length body.now.elements }
    ensures { (less more : ℕ) → IsTrue result ↔ KeepsBodyHeadings body.now from to others.now less more }
{
    let (start, end) = rows_of_run(body, from, to);
    same_headings(
        body.shapes(),
        body.keys(),
        start,
        end,
        others.shapes(),
        others.keys(),
    )
}

/// Whether the headings of a layout stay on their lines, in order, when a change is made of it. Those of its part decide it: the
/// rows of a speech are no headings.
pub fn keeps_headings(layout: &KeptLayout, change: &LayoutChange) -> bool
    requires { CanChange (laid_of layout.now) change.now }
    ensures { IsTrue result ↔ KeepsHeadings layout.now change.now }
{
    let part = &change.part;
    let places = part.places;
    let others = &part.kept;
    keeps_body_headings(&layout.body, places.from, places.to, &others.body)
}
