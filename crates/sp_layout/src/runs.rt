//! Elements and page breaks exchanged, with room made first.
ghost use Rattle.std.specs.Prelude.{◌≡◌, ◌+◌, ◌-◌, ◌≤◌, length, vec_len, vec_capacity, IsOk, OnOk};
ghost use Rattle.sp_layout.specs.Bodies.{keyed_elements};
ghost use Rattle.sp_layout.specs.Exchanges.{run_of, with_run};
ghost use Rattle.sp_layout.specs.Runs.{CanExchange, CanExchangeBreaks, HasRoom, breaks_in, with_breaks};

use crate::Body;
use sp_gap::{exchange_places, make_room};
use std::alloc::AllocError;

/// Makes room behind the gaps in what is kept of the places of elements, where more rows come than go, or fewer.
fn make_gaps(body: &mut Body, come: usize, go: usize)
    ensures { body.new ≡ body.old }
{
    if come != go {
        body.make_gaps();
    }
}

/// Makes room for an exchange of elements, and where rows come or go behind the gaps in what is kept of their places.
pub fn make_run_room(
    body: &mut Body,
    from: usize,
    to: usize,
    other: &mut Body,
) -> Result<(), AllocError>
    requires order { from ≤ to }
    requires within { to ≤ length body.old.elements }
    ensures body { keyed_elements body.new ≡ keyed_elements body.old }
    ensures other { keyed_elements other.new ≡ keyed_elements other.old }
    ensures ok { OnOk result (HasRoom body.new from to other.new) }
    ensures room { (body.old.room ≤ body.new.room) × (body.old.row_room ≤ body.new.row_room) }
    ensures other_room { (other.old.room ≤ other.new.room) × (other.old.row_room ≤ other.new.row_room) }
    ensures succeeds { HasRoom body.old from to other.old → IsOk result }
{
    let elements = body.len() + other.len();
    let rows = body.rows() + other.rows();
    let run = body.rows_before(to) - body.rows_before(from);
    body.make_room(elements, rows)?;
    make_gaps(body, other.rows(), run);
    other.make_room(to - from, run)
}

/// Exchanges elements where there is room, and tells behind which one those that came end.
pub fn exchange_run(
    body: &mut Body,
    from: usize,
    to: usize,
    other: &mut Body,
    less: u64,
    more: u64,
) -> usize
    requires can { CanExchange (keyed_elements body.old) from to less more }
    requires room { HasRoom body.old from to other.old }
    ensures body { keyed_elements body.new ≡ with_run (keyed_elements body.old) from to
        (keyed_elements other.old) less more }
    ensures other { keyed_elements other.new ≡ run_of (keyed_elements body.old) from to }
    ensures to { result ≡ from + length other.old.elements }
    ensures back { with_run (keyed_elements body.new) from result
        (keyed_elements other.new) more less ≡ keyed_elements body.old }
    ensures can { CanExchange (keyed_elements body.new) from result more less }
    ensures taken { from + length other.new.elements ≡ to }
    ensures room { HasRoom body.new from result other.new }
    ensures body_room { (body.new.room ≡ body.old.room) × (body.new.row_room ≡ body.old.row_room) }
    ensures other_room { (other.new.room ≡ other.old.room) × (other.new.row_room ≡ other.old.row_room) }
{
    let _len = body.len();
    let count = other.len();
    body.exchange(from, to, other, less, more);
    from + count
}

/// Exchanges page breaks where there is room, and tells behind which one those that came end.
pub fn exchange_breaks(
    breaks: &mut Vec<usize>,
    from: usize,
    to: usize,
    others: &mut Vec<usize>,
    base: usize,
    less: usize,
    more: usize,
) -> usize
    requires can { CanExchangeBreaks breaks.old.items from to others.old.items base less more }
    requires room { vec_len breaks.old + vec_len others.old ≤ vec_capacity breaks.old }
    requires back_room { to - from ≤ vec_capacity others.old }
    ensures breaks { breaks.new.items ≡ with_breaks breaks.old.items from to others.old.items base less more }
    ensures others { others.new.items ≡ breaks_in breaks.old.items from to base }
    ensures to { result ≡ from + length others.old.items }
    ensures back { with_breaks breaks.new.items from result others.new.items base more less ≡ breaks.old.items }
    ensures can { CanExchangeBreaks breaks.new.items from result others.new.items base more less }
    ensures room { (vec_len breaks.new + vec_len others.new ≤ vec_capacity breaks.new)
        × (result - from ≤ vec_capacity others.new) }
    ensures breaks_room { vec_capacity breaks.new ≡ vec_capacity breaks.old }
    ensures others_room { vec_capacity others.new ≡ vec_capacity others.old }
{
    let count = others.len();
    exchange_places(breaks, from, to, others, base, less, more);
    from + count
}

/// Makes room for an exchange of page breaks.
pub fn make_break_room(
    breaks: &mut Vec<usize>,
    from: usize,
    to: usize,
    others: &mut Vec<usize>,
) -> Result<(), AllocError>
    requires order { from ≤ to }
    ensures breaks { breaks.new.items ≡ breaks.old.items }
    ensures others { others.new.items ≡ others.old.items }
    ensures ok { OnOk result
        ((vec_len breaks.new + vec_len others.new ≤ vec_capacity breaks.new) × (to - from ≤ vec_capacity others.new)) }
    ensures room { (vec_capacity breaks.old ≤ vec_capacity breaks.new)
        × (vec_capacity others.old ≤ vec_capacity others.new) }
    ensures succeeds { vec_len breaks.old + vec_len others.old ≤ vec_capacity breaks.old
        → to - from ≤ vec_capacity others.old → IsOk result }
{
    let total = breaks.len() + others.len();
    make_room(breaks, total)?;
    make_room(others, to - from)
}
