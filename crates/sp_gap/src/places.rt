//! Places that are moved, and exchanged.
ghost use Rattle.std.specs.Prelude.{◌≡◌, ◌+◌, ◌-◌, ◌≤◌, ◌++◌, map, take, drop, slice_range, vec_len, vec_capacity, All};
ghost use Rattle.sp_gap.specs.Moves.{shifted, CanShift};

use crate::exchange;

/// Makes each place less and more by so much.
fn shift(places: &mut [usize], less: usize, more: usize)
    requires { All (CanShift less more) places.old }
    ensures { places.new ≡ map (shifted less more) places.old }
{
    if less == more {
        return;
    }
    for place in places.iter_mut() {
        *place = *place - less + more;
    }
}

/// Makes the places from one to before another less and more by so much.
fn shift_run(places: &mut Vec<usize>, from: usize, to: usize, less: usize, more: usize)
    requires order { from ≤ to }
    requires within { to ≤ vec_len places.old }
    requires can { All (CanShift less more) (slice_range places.old.items from to) }
    ensures places { places.new.items ≡ take from places.old.items
        ++ (map (shifted less more) (slice_range places.old.items from to) ++ drop to places.old.items) }
    ensures len { vec_len places.new ≡ vec_len places.old }
    ensures room { vec_capacity places.new ≡ vec_capacity places.old }
{
    shift(&mut places[from..to], less, more);
}

/// Makes all places of a list less and more by so much.
fn shift_all(places: &mut Vec<usize>, less: usize, more: usize)
    requires { All (CanShift less more) places.old.items }
    ensures places { places.new.items ≡ map (shifted less more) places.old.items }
    ensures len { vec_len places.new ≡ vec_len places.old }
    ensures room { vec_capacity places.new ≡ vec_capacity places.old }
{
    shift(places, less, more);
}

/// Exchanges the places of a list from one to before another for others, in place. Those that come count from `base` then,
/// those that go from 0, and the later ones are less and more by so much.
pub fn exchange_places(
    list: &mut Vec<usize>,
    from: usize,
    to: usize,
    items: &mut Vec<usize>,
    base: usize,
    less: usize,
    more: usize,
)
    requires order { from ≤ to }
    requires within { to ≤ vec_len list.old }
    requires room { vec_len list.old - (to - from) + vec_len items.old ≤ vec_capacity list.old }
    requires items_room { to - from ≤ vec_capacity items.old }
    requires come { All (CanShift 0 base) items.old.items }
    requires go { All (CanShift base 0) (slice_range list.old.items from to) }
    requires later { All (CanShift less more) (drop to list.old.items) }
    ensures list { list.new.items ≡ take from list.old.items
        ++ (map (shifted 0 base) items.old.items ++ map (shifted less more) (drop to list.old.items)) }
    ensures items { items.new.items ≡ map (shifted base 0) (slice_range list.old.items from to) }
    ensures list_room { vec_capacity list.new ≡ vec_capacity list.old }
    ensures items_room { vec_capacity items.new ≡ vec_capacity items.old }
{
    let end = list.len();
    shift_run(list, to, end, less, more);
    shift_run(list, from, to, base, 0);
    shift_all(items, 0, base);
    exchange(list, from, to, items);
}
