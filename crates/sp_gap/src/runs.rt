//! Exchanging a run of a list.
ghost use Rattle.std.specs.Prelude.{◌≡◌, ◌+◌, ◌-◌, ◌<◌, ◌≤◌, ◌++◌, length, take, drop, reverse, slice_range, vec_len, vec_capacity, IsOk, OnOk, OnErr};
ghost use Rattle.sp_gap.specs.Runs.{Poured, exchanged};

use std::alloc::AllocError;
use std::mem;

/// One part of so many is the room that a list gets beside what is asked for.
const MORE_ROOM: usize = 16;

/// For how many items room is made where there is none for so many: a list that was made whole would else take twice its memory at
/// its first change.
pub fn roomy(total: usize) -> usize
    ensures { total ≤ result }
{
    total.saturating_add(total / MORE_ROOM)
}

/// Makes room for so many items in all, and where there was none for some more: a list that was made whole would else take twice
/// its memory at its first change. On an error the list has the room that it had.
pub fn make_room<T>(list: &mut Vec<T>, total: usize) -> Result<(), AllocError>
    ensures items { list.new.items ≡ list.old.items }
    ensures len { vec_len list.new ≡ vec_len list.old }
    ensures ok { OnOk result (total ≤ vec_capacity list.new) }
    ensures room { vec_capacity list.old ≤ vec_capacity list.new }
    ensures succeeds { total ≤ vec_capacity list.old → IsOk result }
    ensures err { OnErr result (vec_capacity list.new ≡ vec_capacity list.old) }
{
    if total <= list.capacity() {
        return Ok(());
    }
    list.reserve_exact(roomy(total).saturating_sub(list.len()))
}

/// Makes room for so many more items. A list that has no room gets it for just these, since most lists of what an edit keeps stay
/// that short.
pub fn reserve_more<T>(list: &mut Vec<T>, count: usize) -> Result<(), AllocError>
    ensures items { list.new.items ≡ list.old.items }
    ensures len { vec_len list.new ≡ vec_len list.old }
    ensures ok { OnOk result (vec_len list.new + count ≤ vec_capacity list.new) }
{
    if list.capacity() == 0 {
        list.reserve_exact(count)
    } else {
        list.reserve(count)
    }
}

/// Takes so many items off the end of a list and puts them behind another, the last first. It takes no memory. Both lists are held
/// while it goes on, so that an item costs no look at where they are kept.
pub fn pour<T>(from: &mut Vec<T>, to: &mut Vec<T>, count: usize)
    requires there { count ≤ vec_len from.old }
    requires room { vec_len to.old + count ≤ vec_capacity to.old }
    ensures poured { Poured from.old.items to.old.items from.new.items to.new.items count }
    ensures from_len { vec_len from.new + count ≡ vec_len from.old }
    ensures to_len { vec_len to.new ≡ vec_len to.old + count }
    ensures from_room { vec_capacity from.new ≡ vec_capacity from.old }
    ensures to_room { vec_capacity to.new ≡ vec_capacity to.old }
{
    let alloc = *from.allocator();
    let mut source = mem::replace(from, Vec::new(alloc));
    let mut target = mem::replace(to, Vec::new(alloc));
    for _ in 0..count {
        target.push_reserved(source.take_last());
    }
    mem::replace(from, source).destroy_empty();
    mem::replace(to, target).destroy_empty();
}

/// Turns the items of a list from a place on.
pub fn reverse_from<T>(list: &mut Vec<T>, place: usize)
    requires { place ≤ vec_len list.old }
    ensures items { list.new.items ≡ take place list.old.items ++ reverse (drop place list.old.items) }
    ensures len { vec_len list.new ≡ vec_len list.old }
    ensures room { vec_capacity list.new ≡ vec_capacity list.old }
{
    list[place..].reverse();
}

/// Takes so many items off the end of a list and puts them behind another, in their order.
fn hand_over<T>(from: &mut Vec<T>, to: &mut Vec<T>, count: usize)
    requires there { count ≤ vec_len from.old }
    requires room { vec_len to.old + count ≤ vec_capacity to.old }
    ensures from { from.new.items ≡ take (length from.old.items - count) from.old.items }
    ensures to { to.new.items ≡ to.old.items ++ drop (length from.old.items - count) from.old.items }
    ensures from_room { vec_capacity from.new ≡ vec_capacity from.old }
    ensures to_room { vec_capacity to.new ≡ vec_capacity to.old }
{
    let place = to.len();
    pour(from, to, count);
    reverse_from(to, place);
}

/// Moves the last items of a list to a place of it.
fn bring_back<T>(list: &mut Vec<T>, place: usize, count: usize)
    requires { place + count ≤ vec_len list.old }
    ensures items { list.new.items ≡ take place list.old.items
        ++ (drop (length list.old.items - count) list.old.items
        ++ slice_range list.old.items place (length list.old.items - count)) }
    ensures len { vec_len list.new ≡ vec_len list.old }
    ensures room { vec_capacity list.new ≡ vec_capacity list.old }
{
    list[place..].rotate_right(count);
}

/// Moves items at a place of a list to its end.
fn send_off<T>(list: &mut Vec<T>, place: usize, count: usize)
    requires { place + count ≤ vec_len list.old }
    ensures items { list.new.items ≡ take place list.old.items
        ++ (drop (place + count) list.old.items ++ slice_range list.old.items place (place + count)) }
    ensures len { vec_len list.new ≡ vec_len list.old }
    ensures room { vec_capacity list.new ≡ vec_capacity list.old }
{
    list[place..].rotate_left(count);
}

/// Exchanges the items of a list from one place to before another for as many others. No other is moved.
pub fn trade<T>(list: &mut Vec<T>, from: usize, to: usize, items: &mut Vec<T>)
    requires order { from ≤ to }
    requires within { to ≤ vec_len list.old }
    requires many { vec_len items.old ≡ to - from }
    ensures list { list.new.items ≡ exchanged list.old.items from to items.old.items }
    ensures items { items.new.items ≡ slice_range list.old.items from to }
    ensures list_room { vec_capacity list.new ≡ vec_capacity list.old }
    ensures items_room { vec_capacity items.new ≡ vec_capacity items.old }
{
    list[from..to].swap_with_slice(items);
}

/// Exchanges the items of a list from one place to before another for as many others or more.
fn exchange_for_more<T>(list: &mut Vec<T>, from: usize, to: usize, items: &mut Vec<T>)
    requires order { from ≤ to }
    requires within { to ≤ vec_len list.old }
    requires enough { to - from ≤ vec_len items.old }
    requires room { vec_len list.old - (to - from) + vec_len items.old ≤ vec_capacity list.old }
    ensures list { list.new.items ≡ exchanged list.old.items from to items.old.items }
    ensures items { items.new.items ≡ slice_range list.old.items from to }
    ensures list_room { vec_capacity list.new ≡ vec_capacity list.old }
    ensures items_room { vec_capacity items.new ≡ vec_capacity items.old }
{
    let more = items.len() - (to - from);
    hand_over(items, list, more);
    trade(list, from, to, items);
    bring_back(list, to, more);
}

/// Exchanges the items of a list from one place to before another for as many others or fewer.
fn exchange_for_fewer<T>(list: &mut Vec<T>, from: usize, to: usize, items: &mut Vec<T>)
    requires order { from ≤ to }
    requires within { to ≤ vec_len list.old }
    requires few { vec_len items.old ≤ to - from }
    requires items_room { to - from ≤ vec_capacity items.old }
    ensures list { list.new.items ≡ exchanged list.old.items from to items.old.items }
    ensures items { items.new.items ≡ slice_range list.old.items from to }
    ensures list_room { vec_capacity list.new ≡ vec_capacity list.old }
    ensures items_room { vec_capacity items.new ≡ vec_capacity items.old }
{
    let count = items.len();
    let less = to - from - count;
    trade(list, from, from + count, items);
    send_off(list, from + count, less);
    hand_over(list, items, less);
}

/// Exchanges the items of a list from one place to before another for others. As many as come and go change places; the later
/// items are moved once, where more come or go. None is copied, and no memory is taken.
pub fn exchange<T>(list: &mut Vec<T>, from: usize, to: usize, items: &mut Vec<T>)
    requires order { from ≤ to }
    requires within { to ≤ vec_len list.old }
    requires room { vec_len list.old - (to - from) + vec_len items.old ≤ vec_capacity list.old }
    requires items_room { to - from ≤ vec_capacity items.old }
    ensures list { list.new.items ≡ exchanged list.old.items from to items.old.items }
    ensures items { items.new.items ≡ slice_range list.old.items from to }
    ensures list_room { vec_capacity list.new ≡ vec_capacity list.old }
    ensures items_room { vec_capacity items.new ≡ vec_capacity items.old }
{
    if items.len() < to - from {
        exchange_for_fewer(list, from, to, items);
    } else {
        exchange_for_more(list, from, to, items);
    }
}
