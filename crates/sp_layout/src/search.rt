//! Look-ups in lists that never fall: of places, and of elements by their lines.
ghost use Rattle.std.specs.Prelude.{◌<◌, ◌≤◌, length, slice_index, AllPairs};
ghost use Rattle.sp_layout.specs.Places.{ArePartedAt, CountsBefore, CountsBelow, IsLastStart};

use sp_columns::Element;
use sp_gap::GapPlaces;

/// How many of these places, which never fall, are below a bound, as page breaks are before a row (docs/RULES.md, "Pages").
/// Each step halves the places that are left.
pub fn count_below(places: &[usize], bound: usize) -> usize
    requires { AllPairs (λ one other. one ≤ other) places.now }
    ensures { CountsBelow places.now bound result }
{
    places.partition_point(|place| *place < bound)
}

/// How many of these places, which never fall, are below a bound. Each step halves the places that are left.
pub fn starts_below(starts: &GapPlaces, bound: usize) -> usize
    requires { AllPairs (λ one other. one ≤ other) starts.now.items }
    ensures { CountsBelow starts.now.items bound result }
{
    let mut from = 0;
    let mut to = starts.len();
    while from < to {
        let middle = from + (to - from) / 2;
        if starts.at(middle) < bound {
            from = middle + 1;
        } else {
            to = middle;
        }
    }
    from
}

/// The last of what begins at or before a place, by the places where each begins, the first at or before it.
pub fn last_start(starts: &GapPlaces, place: usize) -> usize
    requires rise { AllPairs (λ one other. one ≤ other) starts.now.items }
    requires some { 0 < length starts.now.items }
    requires first { slice_index starts.now.items 0 ≤ place }
    requires low { place < 18446744073709551615 }
    ensures { IsLastStart starts.now.items place result }
{
    starts_below(starts, place + 1) - 1
}

/// How many elements begin before a line. Each step halves the elements that are left.
pub fn elements_before(elements: &[Element], line: usize) -> usize
    requires { ArePartedAt elements.now line }
    ensures { CountsBefore elements.now line result }
{
    let line = line as u64;
    elements.partition_point(|element| element.first < line)
}
