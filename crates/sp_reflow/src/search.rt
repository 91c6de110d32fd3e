//! Look-ups in lists of places that never fall.
ghost use Rattle.std.specs.Prelude.{◌≡◌, true, false, ◌+◌, ◌<◌, ◌≤◌, length, AllPairs, IfSome, IfNone, nat_lt, get_or};
ghost use Rattle.std.specs.List.{prefix_len};
ghost use Rattle.spec_pages.specs.Heights.{next_stop};
ghost use Rattle.spec_edit.specs.PageWindows.{AreStops, is_settled, came_from};

use crate::ExchangedRows;

/// How many of the places are below the bound.
pub fn count_below(places: &[usize], bound: usize) -> usize
    requires { AllPairs (λ one other. one ≤ other) places.now }
    ensures value { result ≡ prefix_len (λ place. nat_lt place bound) places.now }
    ensures within { result ≤ length places.now }
{
    places.partition_point(|place| *place < bound)
}

/// The first stop above row `p`, or the number of rows.
pub fn stop_above(stops: &[usize], rows: usize, p: usize) -> usize
    requires order { p < rows }
    requires stops { AreStops rows stops.now }
    ensures { result ≡ next_stop rows stops.now p }
{
    let at = count_below(stops, p + 1);
    match stops.get(at) {
        Some(stop) => *stop,
        None => rows,
    }
}

/// The place of the old page start that the page start `p` is, moved; None where it isn't settled.
pub fn settled_at(old_starts: &[usize], rows: &ExchangedRows, p: usize) -> Option<usize>
    requires { AllPairs (λ one other. one < other) old_starts.now }
    ensures some { IfSome result (λ at. is_settled rows.now old_starts.now p ≡ true) }
    ensures place { IfSome result (λ at. at ≡ prefix_len (λ start. nat_lt start (came_from rows.now p)) old_starts.now) }
    ensures inside { IfSome result (λ at. at < length old_starts.now) }
    ensures behind { IfSome result (λ at. rows.now.first + rows.now.old ≤ get_or old_starts.now at 0) }
    ensures none { IfNone result (is_settled rows.now old_starts.now p ≡ false) }
{
    if p < rows.new || p - rows.new < rows.first {
        return None;
    }
    match (p - rows.new).checked_add(rows.old) {
        None => None,
        Some(came_from) => {
            let at = count_below(old_starts, came_from);
            if at < old_starts.len() && old_starts[at] == came_from {
                Some(at)
            } else {
                None
            }
        }
    }
}
