//! A list round a gap.
ghost use Rattle.std.specs.Prelude.{◌≡◌, ◌+◌, ◌-◌, ◌<◌, ◌≤◌, ◌++◌, ◌∷◌, [], Some, length, take, drop, slice_get, slice_index_or, slice_range, slice_set, vec_len, vec_capacity, IsOk, OnOk};
ghost use Rattle.std.specs.VecDeque.{deque_len, deque_capacity};
ghost use Rattle.sp_gap.specs.Runs.{exchanged};
ghost use Rattle.sp_gap.specs.Gaps.{IsSlot, turned};

use crate::runs::{reverse_from, roomy};
use std::alloc::{AllocError, Global};
use std::collections::VecDeque;
use std::marker::Model;
use std::mem;

/// A list whose items are exchanged mostly near one another. It stands in a ring, from the gap round to the gap: so many items
/// behind the gap first, and then those before it. So an exchange at the gap moves no other item, and the gap moves at once.
#[derive(Drop)]
pub struct GapList<T> {
    ring: VecDeque<T>,
    behind: usize,
}

impl<T> Model for GapList<T> {
    ghost use Rattle.std.specs.Prelude.{◌≤◌};
    ghost use Rattle.std.specs.VecDeque.{deque_len, deque_capacity};
    ghost use Rattle.sp_gap.specs.Gaps.{GapListOf, turned};

    ghost Value = { GapListOf T };

    ghost view = { λ l. record { items = turned l.behind l.ring.items; room = deque_capacity l.ring } };

    ghost invariant = { λ l. l.behind ≤ deque_len l.ring };
}

/// Where in a ring of so many items, so many of them behind the gap, the item at a place of the list stands.
#[inline(always)]
fn slot(count: usize, behind: usize, place: usize) -> usize
    requires behind { behind ≤ count }
    requires place { place < count }
    ensures slot { IsSlot count behind place result }
    ensures within { result < count }
{
    let ahead = count - behind;
    if place < ahead {
        behind + place
    } else {
        place - ahead
    }
}

/// Moves the gap to a place.
fn seek<T>(ring: &mut VecDeque<T>, behind: &mut usize, place: usize)
    requires behind { behind.old ≤ deque_len ring.old }
    requires within { place ≤ deque_len ring.old }
    ensures items { turned behind.new ring.new.items ≡ turned behind.old ring.old.items }
    ensures len { deque_len ring.new ≡ deque_len ring.old }
    ensures behind { behind.new ≡ deque_len ring.old - place }
    ensures room { deque_capacity ring.new ≡ deque_capacity ring.old }
{
    let ahead = ring.len() - *behind;
    if place <= ahead {
        ring.rotate_right(ahead - place);
        *behind += ahead - place;
        return;
    }
    ring.rotate_left(place - ahead);
    *behind -= place - ahead;
}

/// Moves the gap behind the last item.
fn close<T>(ring: &mut VecDeque<T>, behind: &mut usize)
    requires behind { behind.old ≤ deque_len ring.old }
    ensures items { ring.new.items ≡ turned behind.old ring.old.items }
    ensures len { deque_len ring.new ≡ deque_len ring.old }
    ensures behind { behind.new ≡ 0 }
    ensures room { deque_capacity ring.new ≡ deque_capacity ring.old }
{
    let count = *behind;
    if count > 0 {
        ring.rotate_left(count);
        *behind = 0;
    }
}

/// Takes so many items off the end of a ring and puts them behind those of another, in their order.
fn hand_over<T>(from: &mut VecDeque<T>, to: &mut VecDeque<T>, count: usize)
    requires there { count ≤ deque_len from.old }
    requires room { deque_len to.old + count ≤ deque_capacity to.old }
    ensures from { from.new.items ≡ take (deque_len from.old - count) from.old.items }
    ensures to { to.new.items ≡ to.old.items ++ drop (deque_len from.old - count) from.old.items }
    ensures from_len { deque_len from.new + count ≡ deque_len from.old }
    ensures to_len { deque_len to.new ≡ deque_len to.old + count }
    ensures from_room { deque_capacity from.new ≡ deque_capacity from.old }
    ensures to_room { deque_capacity to.new ≡ deque_capacity to.old }
{
    for _ in 0..count {
        if let Some(item) = from.pop_back() {
            to.push_front_reserved(item);
        }
    }
    to.rotate_left(count);
}

/// Puts an item in the place of that at a place of the list, and answers that.
fn put<T: Copy>(ring: &mut VecDeque<T>, behind: usize, place: usize, item: T) -> T
    requires behind { behind ≤ deque_len ring.old }
    requires place { place < deque_len ring.old }
    ensures items { turned behind ring.new.items ≡ slice_set (turned behind ring.old.items) place item }
    ensures was { result ≡ slice_index_or (turned behind ring.old.items) place result }
    ensures len { deque_len ring.new ≡ deque_len ring.old }
    ensures room { deque_capacity ring.new ≡ deque_capacity ring.old }
{
    let slot = slot(ring.len(), behind, place);
    let was = ring[slot];
    ring[slot] = item;
    was
}

/// Exchanges so many items of the list from a place on for the first of others. No other is moved.
fn trade<T: Copy>(
    ring: &mut VecDeque<T>,
    behind: usize,
    from: usize,
    count: usize,
    items: &mut VecDeque<T>,
)
    requires behind { behind ≤ deque_len ring.old }
    requires within { from + count ≤ deque_len ring.old }
    requires many { count ≤ deque_len items.old }
    ensures list { turned behind ring.new.items
        ≡ exchanged (turned behind ring.old.items) from (from + count) (take count items.old.items) }
    ensures items { items.new.items
        ≡ slice_range (turned behind ring.old.items) from (from + count) ++ drop count items.old.items }
    ensures len { deque_len ring.new ≡ deque_len ring.old }
    ensures items_len { deque_len items.new ≡ deque_len items.old }
    ensures room { deque_capacity ring.new ≡ deque_capacity ring.old }
    ensures items_room { deque_capacity items.new ≡ deque_capacity items.old }
{
    for k in 0..count {
        let item = items[k];
        items[k] = put(ring, behind, from + k, item);
    }
}

/// Exchanges items of a list round a gap. Where as many come as go, no other is moved; else the gap comes behind them.
fn exchange_round<T: Copy>(
    ring: &mut VecDeque<T>,
    behind: &mut usize,
    from: usize,
    to: usize,
    items: &mut VecDeque<T>,
)
    requires behind { behind.old ≤ deque_len ring.old }
    requires order { from ≤ to }
    requires within { to ≤ deque_len ring.old }
    requires room { deque_len ring.old + deque_len items.old ≤ deque_capacity ring.old }
    requires items_room { to - from ≤ deque_capacity items.old }
    ensures list { turned behind.new ring.new.items
        ≡ exchanged (turned behind.old ring.old.items) from to items.old.items }
    ensures items { items.new.items ≡ slice_range (turned behind.old ring.old.items) from to }
    ensures behind { behind.new ≤ deque_len ring.new }
    ensures room { deque_capacity ring.new ≡ deque_capacity ring.old }
    ensures items_room { deque_capacity items.new ≡ deque_capacity items.old }
{
    let run = to - from;
    let count = items.len();
    let both = count.min(run);
    trade(ring, *behind, from, both, items);
    if count == run {
        return;
    }
    seek(ring, behind, to);
    if run < count {
        hand_over(items, ring, count - run);
        return;
    }
    hand_over(ring, items, run - count);
}

/// Exchanges an item for that at a place of the list.
fn swap_at<T>(ring: &mut VecDeque<T>, behind: usize, place: usize, item: &mut T)
    requires behind { behind ≤ deque_len ring.old }
    requires place { place < deque_len ring.old }
    ensures items { turned behind ring.new.items ≡ slice_set (turned behind ring.old.items) place item.old }
    ensures was { item.new ≡ slice_index_or (turned behind ring.old.items) place item.new }
    ensures len { deque_len ring.new ≡ deque_len ring.old }
    ensures room { deque_capacity ring.new ≡ deque_capacity ring.old }
{
    let slot = slot(ring.len(), behind, place);
    mem::swap(&mut ring[slot], item);
}

/// Exchanges so many items of the list from a place on for the first of others in a vector. No other is moved.
fn swap_run<T>(ring: &mut VecDeque<T>, behind: usize, from: usize, count: usize, items: &mut Vec<T>)
    requires behind { behind ≤ deque_len ring.old }
    requires within { from + count ≤ deque_len ring.old }
    requires many { count ≤ vec_len items.old }
    ensures list { turned behind ring.new.items
        ≡ exchanged (turned behind ring.old.items) from (from + count) (take count items.old.items) }
    ensures items { items.new.items
        ≡ slice_range (turned behind ring.old.items) from (from + count) ++ drop count items.old.items }
    ensures len { deque_len ring.new ≡ deque_len ring.old }
    ensures items_len { vec_len items.new ≡ vec_len items.old }
    ensures room { deque_capacity ring.new ≡ deque_capacity ring.old }
    ensures items_room { vec_capacity items.new ≡ vec_capacity items.old }
{
    for k in 0..count {
        swap_at(ring, behind, from + k, &mut items[k]);
    }
}

/// Takes so many items off the end of a vector and puts them behind those of a ring, in their order.
fn hand_in<T>(items: &mut Vec<T>, ring: &mut VecDeque<T>, count: usize)
    requires there { count ≤ vec_len items.old }
    requires room { deque_len ring.old + count ≤ deque_capacity ring.old }
    ensures items { items.new.items ≡ take (vec_len items.old - count) items.old.items }
    ensures ring { ring.new.items ≡ ring.old.items ++ drop (vec_len items.old - count) items.old.items }
    ensures items_len { vec_len items.new + count ≡ vec_len items.old }
    ensures ring_len { deque_len ring.new ≡ deque_len ring.old + count }
    ensures items_room { vec_capacity items.new ≡ vec_capacity items.old }
    ensures ring_room { deque_capacity ring.new ≡ deque_capacity ring.old }
{
    for _ in 0..count {
        ring.push_front_reserved(items.take_last());
    }
    ring.rotate_left(count);
}

/// Takes so many items off the end of a ring and puts them behind those of a vector, in their order.
fn hand_out<T>(ring: &mut VecDeque<T>, items: &mut Vec<T>, count: usize)
    requires there { count ≤ deque_len ring.old }
    requires room { vec_len items.old + count ≤ vec_capacity items.old }
    ensures ring { ring.new.items ≡ take (deque_len ring.old - count) ring.old.items }
    ensures items { items.new.items ≡ items.old.items ++ drop (deque_len ring.old - count) ring.old.items }
    ensures ring_len { deque_len ring.new + count ≡ deque_len ring.old }
    ensures items_len { vec_len items.new ≡ vec_len items.old + count }
    ensures ring_room { deque_capacity ring.new ≡ deque_capacity ring.old }
    ensures items_room { vec_capacity items.new ≡ vec_capacity items.old }
{
    let place = items.len();
    for _ in 0..count {
        if let Some(item) = ring.pop_back() {
            items.push_reserved(item);
        }
    }
    reverse_from(items, place);
}

/// Exchanges items of a list round a gap for those of a vector. Where as many come as go, no other is moved; else the gap comes behind
/// them.
fn exchange_items<T>(
    ring: &mut VecDeque<T>,
    behind: &mut usize,
    from: usize,
    to: usize,
    items: &mut Vec<T>,
)
    requires behind { behind.old ≤ deque_len ring.old }
    requires order { from ≤ to }
    requires within { to ≤ deque_len ring.old }
    requires room { deque_len ring.old - (to - from) + vec_len items.old ≤ deque_capacity ring.old }
    requires items_room { to - from ≤ vec_capacity items.old }
    ensures list { turned behind.new ring.new.items
        ≡ exchanged (turned behind.old ring.old.items) from to items.old.items }
    ensures items { items.new.items ≡ slice_range (turned behind.old ring.old.items) from to }
    ensures behind { behind.new ≤ deque_len ring.new }
    ensures room { deque_capacity ring.new ≡ deque_capacity ring.old }
    ensures items_room { vec_capacity items.new ≡ vec_capacity items.old }
{
    let run = to - from;
    let count = items.len();
    let both = count.min(run);
    swap_run(ring, *behind, from, both, items);
    if count == run {
        return;
    }
    seek(ring, behind, to);
    if run < count {
        hand_in(items, ring, count - run);
        return;
    }
    hand_out(ring, items, run - count);
}

impl<T> GapList<T> {
    /// A list without items and without room. It takes no memory.
    pub fn new(alloc: Global) -> GapList<T>
        ensures { result.items ≡ [] }
    {
        GapList {
            ring: VecDeque::new(alloc),
            behind: 0,
        }
    }

    /// Where its memory comes from.
    pub fn allocator(&self) -> Global {
        *self.ring.allocator()
    }

    /// For how many items there is room.
    pub fn room(&self) -> usize
        ensures { result ≡ self.now.room }
    {
        self.ring.capacity()
    }

    /// How many items there are.
    pub fn len(&self) -> usize
        ensures len { result ≡ length self.now.items }
        ensures enough { length self.now.items ≤ self.now.room }
        ensures small { self.now.room ≤ 9223372036854775807 }
    {
        self.ring.len()
    }

    /// Lends the item at a place, from 0.
    #[inline(always)]
    pub fn at(&self, place: usize) -> &T
        requires { place < length self.now.items }
        ensures { slice_get self.now.items place ≡ Some result.now }
    {
        &self.ring[slot(self.ring.len(), self.behind, place)]
    }

    /// Makes room for so many more items. On an error there was no memory for them.
    pub fn reserve(&mut self, count: usize) -> Result<(), AllocError>
        ensures items { self.new.items ≡ self.old.items }
        ensures room { OnOk result (length self.new.items + count ≤ self.new.room) }
    {
        if self.ring.capacity() == 0 {
            self.ring.reserve_exact(count)
        } else {
            self.ring.reserve(count)
        }
    }

    /// Makes room for so many items in all, and where there was none for some more. No room becomes less. The error is want of
    /// memory alone.
    pub fn make_room(&mut self, total: usize) -> Result<(), AllocError>
        ensures items { self.new.items ≡ self.old.items }
        ensures ok { OnOk result (total ≤ self.new.room) }
        ensures room { self.old.room ≤ self.new.room }
        ensures succeeds { total ≤ self.old.room → IsOk result }
    {
        if total <= self.ring.capacity() {
            return Ok(());
        }
        self.ring
            .reserve_exact(roomy(total).saturating_sub(self.ring.len()))
    }

    /// Adds an item behind the last, where there is room.
    pub fn push_reserved(&mut self, item: T)
        requires { length self.old.items < self.old.room }
        ensures items { self.new.items ≡ self.old.items ++ item ∷ [] }
        ensures room { self.new.room ≡ self.old.room }
    {
        close(&mut self.ring, &mut self.behind);
        self.ring.push_back_reserved(item);
    }

    /// Exchanges an item for that at a place.
    pub fn swap(&mut self, place: usize, item: &mut T)
        requires { place < length self.old.items }
        ensures items { self.new.items ≡ slice_set self.old.items place item.old }
        ensures was { slice_get self.old.items place ≡ Some item.new }
        ensures room { self.new.room ≡ self.old.room }
    {
        swap_at(&mut self.ring, self.behind, place, item);
    }

    /// Exchanges the items from one place to before another for those of a vector. Where as many come as go, no other is moved; else
    /// the gap comes behind them, and the items between are moved. It takes no memory.
    pub fn exchange_items(&mut self, from: usize, to: usize, items: &mut Vec<T>)
        requires order { from ≤ to }
        requires within { to ≤ length self.old.items }
        requires room { length self.old.items - (to - from) + length items.old.items ≤ self.old.room }
        requires items_room { to - from ≤ vec_capacity items.old }
        ensures list { self.new.items ≡ exchanged self.old.items from to items.old.items }
        ensures items { items.new.items ≡ slice_range self.old.items from to }
        ensures room { self.new.room ≡ self.old.room }
        ensures items_room { vec_capacity items.new ≡ vec_capacity items.old }
    {
        exchange_items(&mut self.ring, &mut self.behind, from, to, items);
    }
}

impl<T: Copy> GapList<T> {
    /// Exchanges the items from one place to before another for those of another list. Where as many come as go, no other is
    /// moved; else the gap comes behind them, and the items between are moved. It takes no memory.
    pub fn exchange(&mut self, from: usize, to: usize, other: &mut GapList<T>)
        requires order { from ≤ to }
        requires within { to ≤ length self.old.items }
        requires room { length self.old.items + length other.old.items ≤ self.old.room }
        requires other_room { to - from ≤ other.old.room }
        ensures items { self.new.items ≡ exchanged self.old.items from to other.old.items }
        ensures other { other.new.items ≡ slice_range self.old.items from to }
        ensures room { self.new.room ≡ self.old.room }
        ensures other_room { other.new.room ≡ other.old.room }
    {
        close(&mut other.ring, &mut other.behind);
        exchange_round(&mut self.ring, &mut self.behind, from, to, &mut other.ring);
    }
}
