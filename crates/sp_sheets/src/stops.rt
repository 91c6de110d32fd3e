//! The stops of a state.
ghost use Rattle.std.specs.Prelude.{◌≡◌, ◌≤◌, option_map, take, AllPairs, IfOk, IsPermutation, Some};
ghost use Rattle.std.specs.Bool.{OnTrue};
ghost use Rattle.sp_layout.specs.Bodies.{row_count};
ghost use Rattle.sp_sheets.specs.Stops.{stops_at};

use sp_layout::Body;
use std::alloc::{AllocError, Global};

/// How many rows stand before the element at a place, or how many there are.
fn row_before(body: &Body, place: usize) -> usize
    ensures { result ≡ row_count (take place body.now.elements) }
{
    body.rows_before(place.min(body.len()))
}

/// The rows before which page breaks stand, which are elements of a body at these places, and the first rows of page records
/// together, in order: the stops of pages (docs/RULES.md, "Pages"). `AllocError` comes for want of memory alone.
pub fn merged_stops(
    alloc: Global,
    body: &Body,
    breaks: &[usize],
    starts: &[usize],
) -> Result<Vec<usize>, AllocError>
    ensures same { IfOk result (λ stops. IsPermutation (stops_at body.now.elements breaks.now starts.now) stops.items) }
    ensures order { IfOk result (λ stops. AllPairs (λ one other. one ≤ other) stops.items) }
{
    let mut stops = Vec::with_capacity(alloc, breaks.len() + starts.len())?;
    for place in breaks {
        stops.push(row_before(body, *place))?;
    }
    stops.extend_from_slice(starts)?;
    stops.sort()?;
    Ok(stops)
}

/// Whether the first rows of page records (docs/RULES.md, "Page records") were known, and are these. True is told only where that is
/// so. It takes no memory.
pub fn firsts_stay(known: &Option<Vec<usize>>, firsts: &[usize]) -> bool
    ensures { OnTrue result (option_map (λ those. those.items) known.now ≡ Some firsts.now) }
{
    match known {
        Some(those) => those.as_slice() == firsts,
        None => false,
    }
}
