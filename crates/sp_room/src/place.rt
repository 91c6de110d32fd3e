//! Where the lines that a seat saw stand now.
ghost use Rattle.std.specs.Prelude.{◌≡◌, ◌+◌, ◌-◌, ◌<◌, ◌≤◌, ◌^◌, ◌∷◌, [], ◌++◌, length, drop, min, nat_lt};
ghost use Rattle.std.specs.VecDeque.{deque_len, deque_capacity};
ghost use Rattle.spec_room.specs.Changes.{place_of, lines_then};
ghost use Rattle.spec_room.specs.Rooms.{asked_edit, kept_changes, last_of};
ghost use Rattle.spec_room.specs.Holding.{Fits};
ghost use Rattle.sp_room.specs.Changes.{range_of, ranges};
ghost use Rattle.sp_room.specs.Asking.{IsPlace};

use crate::change::Change;
use sp_wire::Refusal;
use std::collections::VecDeque;

/// How many changes a room remembers.
const KEPT_CHANGES: usize = 1000;

/// How many lines there were before the changes from `since` on, where there are `lines` now.
fn lines_before(changes: &VecDeque<Change>, since: usize, lines: u64) -> u64
    requires since { since ≤ length changes.now.items }
    requires fits { Fits lines (ranges changes.now.items) }
    ensures { result ≡ lines_then lines (drop since (ranges changes.now.items)) }
{
    let mut count = lines;
    let mut i = changes.len();
    while i > since {
        i -= 1;
        let change = changes[i];
        count = count - change.put + change.taken;
    }
    count
}

/// Where `count` lines at `first` stand after the changes from `since` on, or the version that the first change in their way made. The
/// version before these changes is `seen`, and there are `lines` lines now.
fn place_after(
    changes: &VecDeque<Change>,
    since: usize,
    lines: u64,
    seen: u64,
    first: u64,
    count: u64,
) -> Result<u64, u64>
    requires since { since ≤ length changes.now.items }
    requires version { seen + (length changes.now.items - since) < 2 ^ 64 }
    requires fits { Fits lines (ranges changes.now.items) }
    requires inside { first + count ≤ lines_then lines (drop since (ranges changes.now.items)) }
    ensures { result ≡ place_of seen first count (drop since (ranges changes.now.items)) }
{
    let mut place = first;
    let mut version = seen;
    for i in since..changes.len() {
        let change = changes[i];
        version += 1;
        if change.first + change.taken <= place {
            place = place - change.taken + change.put;
        } else if change.first < place + count {
            return Err(version);
        }
    }
    Ok(place)
}

/// Where an edit of a range of the text at the version `seen` is to be made now, a line from 0, or its first refusal in order (docs/RULES.md,
/// "The room"): Ahead where there is no such version yet, Stale where too many changes came since, Range where it passes the end of that
/// text, Overlap where a change came into its way. `changes` are the last ones that led to `version`, and there are `lines` lines now. It
/// takes no memory.
pub fn present_place(
    changes: &VecDeque<Change>,
    version: u64,
    lines: u64,
    seen: u64,
    range: Change,
) -> Result<u64, Refusal>
    requires kept { length changes.now.items ≡ min version kept_changes }
    requires fits { Fits lines (ranges changes.now.items) }
    ensures { IsPlace (asked_edit (ranges changes.now.items) version lines seen (range_of range))
        (range_of range) result }
{
    if version < seen {
        return Err(Refusal::Ahead(version));
    }
    if version - seen > KEPT_CHANGES as u64 {
        return Err(Refusal::Stale(version));
    }
    let since = changes.len() - (version - seen) as usize;
    if is_past(range, lines_before(changes, since, lines)) {
        return Err(Refusal::Range);
    }
    match place_after(changes, since, lines, seen, range.first, range.taken) {
        Ok(place) => Ok(place),
        Err(in_the_way) => Err(Refusal::Overlap(in_the_way)),
    }
}

/// The range passes the end of a text of so many lines.
fn is_past(range: Change, lines: u64) -> bool
    ensures { result ≡ nat_lt lines (range.first + range.taken) }
{
    match range.first.checked_add(range.taken) {
        Some(end) => lines < end,
        None => true,
    }
}

/// Puts a change behind the others, and leaves out the first where there would be more than 1,000 (docs/RULES.md, "The room"). It needs
/// room for one more, and takes no memory.
pub fn remember(changes: &mut VecDeque<Change>, change: Change)
    requires few { length changes.old.items ≤ kept_changes }
    requires room { deque_len changes.old < deque_capacity changes.old }
    ensures { changes.new.items ≡ last_of kept_changes (changes.old.items ++ change ∷ []) }
{
    if changes.len() == KEPT_CHANGES {
        let _ = changes.pop_front();
    }
    changes.push_back_reserved(change);
}
