//! A list of places round a gap.
ghost use Rattle.std.specs.Prelude.{◌≡◌, ◌+◌, ◌-◌, ◌<◌, ◌≤◌, ◌++◌, ◌∷◌, [], Some, length, map, reverse, slice_get, slice_range, vec_len, vec_capacity, All, IsOk, OnOk};
ghost use Rattle.std.specs.Bool.{OnTrue};
ghost use Rattle.sp_gap.specs.Runs.{exchanged};
ghost use Rattle.sp_gap.specs.Gaps.{CanExchangePlaces, mirrored, round_gap, with_places};
ghost use Rattle.sp_gap.specs.Moves.{shifted};

use crate::places::exchange_places;
use crate::{make_room, reserve_more, trade};
use std::alloc::{AllocError, Global};
use std::marker::Model;
use std::mem;

/// A list of so few places gets no room behind its gap: to move them takes no time.
const FEW: usize = 256;

/// Places, none of them behind an end, that are exchanged mostly near one another. Those behind a gap stand in a list of their
/// own, the last first, and count from the end; so an exchange at the gap that moves all later ones changes none of them.
#[derive(Drop)]
pub struct GapPlaces {
    front: Vec<usize>,
    back: Vec<usize>,
    end: usize,
}

impl Model for GapPlaces {
    ghost use Rattle.std.specs.Prelude.{◌+◌, ◌≤◌, vec_len, vec_capacity, All};
    ghost use Rattle.sp_gap.specs.Gaps.{GapPlacesOf, round_gap};

    ghost Value = { GapPlacesOf };

    ghost view = { λ l. record { items = round_gap l.front.items l.back.items l.end; end = l.end; room = vec_capacity l.front } };

    ghost invariant = { λ l. (vec_len l.front + vec_len l.back ≤ vec_capacity l.front)
        × All (λ place. place ≤ l.end) l.front.items
        × All (λ place. place ≤ l.end) l.back.items };
}

/// Counts each place from an end, backwards.
fn mirror(places: &mut [usize], end: usize)
    requires { All (λ place. place ≤ end) places.old }
    ensures { places.new ≡ map (mirrored end) places.old }
{
    for place in places.iter_mut() {
        *place = end - *place;
    }
}

/// Counts each place of a list from an end, backwards.
fn mirror_all(places: &mut Vec<usize>, end: usize)
    requires { All (λ place. place ≤ end) places.old.items }
    ensures places { places.new.items ≡ map (mirrored end) places.old.items }
    ensures len { vec_len places.new ≡ vec_len places.old }
    ensures room { vec_capacity places.new ≡ vec_capacity places.old }
{
    mirror(places, end);
}

/// Takes so many places off the end of a list and puts them behind another, the last first, each counted from an end, backwards.
fn pour_mirrored(from: &mut Vec<usize>, to: &mut Vec<usize>, count: usize, end: usize)
    requires there { count ≤ vec_len from.old }
    requires room { vec_len to.old + count ≤ vec_capacity to.old }
    requires from_low { All (λ place. place ≤ end) from.old.items }
    requires to_low { All (λ place. place ≤ end) to.old.items }
    ensures same { round_gap to.new.items from.new.items end ≡ round_gap to.old.items from.old.items end }
    ensures back { round_gap from.new.items to.new.items end ≡ round_gap from.old.items to.old.items end }
    ensures from_len { vec_len from.new + count ≡ vec_len from.old }
    ensures to_len { vec_len to.new ≡ vec_len to.old + count }
    ensures from_low { All (λ place. place ≤ end) from.new.items }
    ensures to_low { All (λ place. place ≤ end) to.new.items }
    ensures from_room { vec_capacity from.new ≡ vec_capacity from.old }
    ensures to_room { vec_capacity to.new ≡ vec_capacity to.old }
{
    let alloc = *from.allocator();
    let mut source = mem::replace(from, Vec::new(alloc));
    let mut target = mem::replace(to, Vec::new(alloc));
    for _ in 0..count {
        target.push_reserved(end - source.take_last());
    }
    mem::replace(from, source).destroy_empty();
    mem::replace(to, target).destroy_empty();
}

/// Moves the gap behind the last place.
fn close(front: &mut Vec<usize>, back: &mut Vec<usize>, end: usize)
    requires room { vec_len front.old + vec_len back.old ≤ vec_capacity front.old }
    requires front_low { All (λ place. place ≤ end) front.old.items }
    requires back_low { All (λ place. place ≤ end) back.old.items }
    ensures front { front.new.items ≡ round_gap front.old.items back.old.items end }
    ensures back { back.new.items ≡ [] }
    ensures front_low { All (λ place. place ≤ end) front.new.items }
    ensures front_len { vec_len front.new ≡ vec_len front.old + vec_len back.old }
    ensures front_room { vec_capacity front.new ≡ vec_capacity front.old }
{
    let count = back.len();
    if count > 0 {
        pour_mirrored(back, front, count, end);
    }
}

/// Moves the gap behind so many places; further, where there is no room behind it for those between, or where it may stay behind
/// them.
fn seek(front: &mut Vec<usize>, back: &mut Vec<usize>, end: usize, count: usize, may_stay: bool)
    requires within { count ≤ vec_len front.old + vec_len back.old }
    requires room { vec_len front.old + vec_len back.old ≤ vec_capacity front.old }
    requires front_low { All (λ place. place ≤ end) front.old.items }
    requires back_low { All (λ place. place ≤ end) back.old.items }
    ensures items { round_gap front.new.items back.new.items end ≡ round_gap front.old.items back.old.items end }
    ensures len { vec_len front.new + vec_len back.new ≡ vec_len front.old + vec_len back.old }
    ensures ahead { count ≤ vec_len front.new }
    ensures front_low { All (λ place. place ≤ end) front.new.items }
    ensures back_low { All (λ place. place ≤ end) back.new.items }
    ensures front_room { vec_capacity front.new ≡ vec_capacity front.old }
{
    let ahead = front.len();
    if ahead < count {
        pour_mirrored(back, front, count - ahead, end);
    } else if !may_stay && ahead - count <= back.capacity() - back.len() {
        pour_mirrored(front, back, ahead - count, end);
    }
}

/// Exchanges the items of a list from one place to before another for as many others, where both stand the last first.
fn trade_turned<T>(list: &mut Vec<T>, from: usize, to: usize, items: &mut Vec<T>)
    requires order { from ≤ to }
    requires within { to ≤ vec_len list.old }
    requires many { vec_len items.old ≡ to - from }
    ensures list { reverse list.new.items
        ≡ exchanged (reverse list.old.items) (vec_len list.old - to) (vec_len list.old - from) items.old.items }
    ensures items { items.new.items
        ≡ slice_range (reverse list.old.items) (vec_len list.old - to) (vec_len list.old - from) }
    ensures len { vec_len list.new ≡ vec_len list.old }
    ensures list_room { vec_capacity list.new ≡ vec_capacity list.old }
    ensures items_room { vec_capacity items.new ≡ vec_capacity items.old }
{
    items.reverse();
    trade(list, from, to, items);
    items.reverse();
}

/// Exchanges places behind the gap for as many others, which count from `base` then, as those that go count from 0. No other is
/// moved.
fn trade_behind(
    ahead: usize,
    back: &mut Vec<usize>,
    end: usize,
    from: usize,
    to: usize,
    items: &mut Vec<usize>,
    base: usize,
)
    requires behind { ahead ≤ from }
    requires order { from ≤ to }
    requires within { to ≤ ahead + vec_len back.old }
    requires many { vec_len items.old ≡ to - from }
    requires fits { ahead + vec_len back.old ≤ 9223372036854775807 }
    requires base { base ≤ end }
    requires low { All (λ place. place ≤ end - base) items.old.items }
    requires back_low { All (λ place. place ≤ end) back.old.items }
    requires run { All (λ place. base ≤ place)
        (slice_range (map (mirrored end) (reverse back.old.items)) (from - ahead) (to - ahead)) }
    ensures back { map (mirrored end) (reverse back.new.items)
        ≡ exchanged (map (mirrored end) (reverse back.old.items)) (from - ahead) (to - ahead)
        (map (shifted 0 base) items.old.items) }
    ensures items { items.new.items
        ≡ map (shifted base 0)
        (slice_range (map (mirrored end) (reverse back.old.items)) (from - ahead) (to - ahead)) }
    ensures back_low { All (λ place. place ≤ end) back.new.items }
    ensures len { vec_len back.new ≡ vec_len back.old }
    ensures items_room { vec_capacity items.new ≡ vec_capacity items.old }
{
    let count = ahead + back.len();
    let rest = end - base;
    mirror_all(items, rest);
    trade_turned(back, count - to, count - from, items);
    mirror_all(items, rest);
}

/// Whether as many places come as go, and no later one is moved.
fn none_moves(come: usize, go: usize, less: usize, more: usize) -> bool
    ensures { OnTrue result ((come ≡ go) × (less ≡ more)) }
{
    come == go && less == more
}

/// The places of a list from one to before another, which count from a base, and how much less and more the later ones are after
/// their exchange.
#[derive(Clone, Copy)]
struct Run {
    from: usize,
    to: usize,
    base: usize,
    less: usize,
    more: usize,
}

/// Exchanges places of a list round a gap. Where as many come as go and no later one is less or more, no other is moved; else the gap
/// comes behind them.
fn exchange_round(
    front: &mut Vec<usize>,
    back: &mut Vec<usize>,
    end: usize,
    run: Run,
    items: &mut Vec<usize>,
    others_end: usize,
)
    requires order { run.from ≤ run.to }
    requires within { run.to ≤ vec_len front.old + vec_len back.old }
    requires room { vec_len front.old + vec_len back.old + vec_len items.old ≤ vec_capacity front.old }
    requires items_room { run.to - run.from ≤ vec_capacity items.old }
    requires front_low { All (λ place. place ≤ end) front.old.items }
    requires back_low { All (λ place. place ≤ end) back.old.items }
    requires items_low { All (λ place. place ≤ others_end) items.old.items }
    requires can { CanExchangePlaces (round_gap front.old.items back.old.items end) end run.from run.to run.base
        run.less run.more others_end }
    ensures list { round_gap front.new.items back.new.items (end - run.less + run.more)
        ≡ with_places (round_gap front.old.items back.old.items end) run.from run.to items.old.items run.base
        run.less run.more }
    ensures items { items.new.items
        ≡ map (shifted run.base 0) (slice_range (round_gap front.old.items back.old.items end) run.from run.to) }
    ensures fits { vec_len front.new + vec_len back.new ≤ vec_capacity front.new }
    ensures front_low { All (λ place. place ≤ end - run.less + run.more) front.new.items }
    ensures back_low { All (λ place. place ≤ end - run.less + run.more) back.new.items }
    ensures items_low { All (λ place. place ≤ run.less - run.base) items.new.items }
    ensures room { vec_capacity front.new ≡ vec_capacity front.old }
    ensures items_room { vec_capacity items.new ≡ vec_capacity items.old }
{
    let Run {
        from,
        to,
        base,
        less,
        more,
    } = run;
    let ahead = front.len();
    let stays = none_moves(items.len(), to - from, less, more);
    if stays && ahead <= from {
        trade_behind(ahead, back, end, from, to, items, base);
        return;
    }
    seek(front, back, end, to, stays);
    exchange_places(front, from, to, items, base, less, more);
}

impl GapPlaces {
    /// A list without places and without room, whose end is 0. It takes no memory.
    pub fn new(alloc: Global) -> GapPlaces
        ensures items { result.items ≡ [] }
        ensures end { result.end ≡ 0 }
    {
        GapPlaces {
            front: Vec::new(alloc),
            back: Vec::new(alloc),
            end: 0,
        }
    }

    /// How many places there are.
    pub fn len(&self) -> usize
        ensures len { result ≡ length self.now.items }
        ensures enough { length self.now.items ≤ self.now.room }
        ensures small { self.now.room ≤ 9223372036854775807 }
    {
        self.front.len() + self.back.len()
    }

    /// The end.
    pub fn end(&self) -> usize
        ensures { result ≡ self.now.end }
    {
        self.end
    }

    /// The place with so many before it.
    pub fn at(&self, count: usize) -> usize
        requires { count < length self.now.items }
        ensures { slice_get self.now.items count ≡ Some result }
    {
        let ahead = self.front.len();
        if count < ahead {
            self.front[count]
        } else {
            self.end - self.back[self.back.len() - 1 - (count - ahead)]
        }
    }

    /// Makes room for so many more places. On an error there was no memory for them.
    pub fn reserve(&mut self, count: usize) -> Result<(), AllocError>
        ensures items { self.new.items ≡ self.old.items }
        ensures end { self.new.end ≡ self.old.end }
        ensures room { OnOk result (length self.new.items + count ≤ self.new.room) }
    {
        close(&mut self.front, &mut self.back, self.end);
        reserve_more(&mut self.front, count)
    }

    /// Makes room for so many places in all, and where there was none for some more. No room becomes less. The error is want of
    /// memory alone.
    pub fn make_room(&mut self, total: usize) -> Result<(), AllocError>
        ensures items { self.new.items ≡ self.old.items }
        ensures end { self.new.end ≡ self.old.end }
        ensures ok { OnOk result (total ≤ self.new.room) }
        ensures room { self.old.room ≤ self.new.room }
        ensures succeeds { total ≤ self.old.room → IsOk result }
    {
        make_room(&mut self.front, total)
    }

    /// Makes room behind the gap, where there is memory for it: without it an exchange moves the later places. A list of up to 256
    /// places gets none.
    pub fn make_gap(&mut self)
        ensures { self.new ≡ self.old }
    {
        let count = self.len();
        if count > FEW {
            let _room = make_room(&mut self.back, count);
        }
    }

    /// Adds the end as a place behind the last, where there is room, and puts the end so much further.
    pub fn push_reserved(&mut self, more: usize)
        requires room { length self.old.items < self.old.room }
        requires low { self.old.end + more ≤ 18446744073709551615 }
        ensures items { self.new.items ≡ self.old.items ++ self.old.end ∷ [] }
        ensures end { self.new.end ≡ self.old.end + more }
        ensures room { self.new.room ≡ self.old.room }
    {
        close(&mut self.front, &mut self.back, self.end);
        self.front.push_reserved(self.end);
        self.end += more;
    }

    /// Exchanges the places from one to before another for those of another list. Those that come count from `base` then, those
    /// that go from 0, and the later ones are less and more by so much, as the end is. Where as many come as go and no later one is
    /// less or more, no other is moved; else the gap comes behind them as in a `GapList`. It takes no memory.
    pub fn exchange(
        &mut self,
        from: usize,
        to: usize,
        other: &mut GapPlaces,
        base: usize,
        less: usize,
        more: usize,
    )
        requires order { from ≤ to }
        requires within { to ≤ length self.old.items }
        requires room { length self.old.items + length other.old.items ≤ self.old.room }
        requires other_room { to - from ≤ other.old.room }
        requires can { CanExchangePlaces self.old.items self.old.end from to base less more other.old.end }
        ensures items { self.new.items ≡ with_places self.old.items from to other.old.items base less more }
        ensures end { self.new.end ≡ self.old.end - less + more }
        ensures other { other.new.items ≡ map (shifted base 0) (slice_range self.old.items from to) }
        ensures other_end { other.new.end ≡ less - base }
        ensures room { self.new.room ≡ self.old.room }
        ensures other_room { other.new.room ≡ other.old.room }
    {
        close(&mut other.front, &mut other.back, other.end);
        let run = Run {
            from,
            to,
            base,
            less,
            more,
        };
        exchange_round(
            &mut self.front,
            &mut self.back,
            self.end,
            run,
            &mut other.front,
            other.end,
        );
        self.end = self.end - less + more;
        other.end = less - base;
    }
}
