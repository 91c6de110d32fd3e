//! The rows of the elements that begin before a line.
ghost use Rattle.sp_refill.specs.Counts.{HasFront, HasRest, RowsBefore, RowsUpTo};

use sp_layout::{Body, elements_before};

/// How many rows stand before the elements that begin from a line on, or where the element before these is relaid, before
/// that one.
pub fn rows_before(body: &Body, line: usize, relaid: bool) -> usize
    requires { HasFront body.now.elements line relaid }
    ensures { RowsBefore body.now.elements line relaid result }
{
    let place = elements_before(body.elements(), line);
    if relaid {
        body.rows_before(place - 1)
    } else {
        body.rows_before(place)
    }
}

/// How many rows the elements have that begin before a line, together with the first behind them where that is relaid.
pub fn rows_up_to(body: &Body, line: usize, relaid: bool) -> usize
    requires { HasRest body.now.elements line relaid }
    ensures { RowsUpTo body.now.elements line relaid result }
{
    let place = elements_before(body.elements(), line);
    if relaid {
        body.rows_before(place + 1)
    } else {
        body.rows_before(place)
    }
}
