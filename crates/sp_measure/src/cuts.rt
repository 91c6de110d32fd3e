//! Where a row ends among the clusters that are left, what it keeps of them, and what it leaves.
ghost use Rattle.std.specs.Prelude.{◌≡◌, ◌+◌, ◌-◌, ◌<◌, ◌≤◌, length};
ghost use Rattle.spec_pages.specs.Greatest.{greatest};
ghost use Rattle.spec_pages.specs.Wrapping.{has_word, is_break, first_cut, cut_place, trim_end, trim_start, row_before, rest_after};

use crate::list::ClusterList;
use spec_pages::Cut;

/// Whether not all clusters are spaces.
fn has_word<C: ClusterList>(clusters: &C) -> bool
    ensures { result ≡ has_word (C.clusters clusters.now) }
{
    let count = clusters.count();
    let mut place = 0;
    while place < count && clusters.is_space(place) {
        place += 1;
    }
    place < count
}

/// The last space up to a place, if it has a word before it.
fn last_break<C: ClusterList>(clusters: &C, place: usize) -> Option<usize>
    requires { place < length (C.clusters clusters.now) }
    ensures { result ≡ greatest (is_break (C.clusters clusters.now)) (place + 1) }
{
    let mut end = place;
    while end > 0 && !clusters.is_space(end) {
        end -= 1;
    }
    if !has_word(&clusters.part(0, end)) {
        return None;
    }
    Some(end)
}

/// Where the first row of these clusters ends.
pub fn first_cut<C: ClusterList>(clusters: &C, width: u32) -> Cut
    ensures value { result ≡ first_cut width (C.clusters clusters.now) }
    ensures within { cut_place result ≤ length (C.clusters clusters.now) }
    ensures shorter { length (rest_after result (C.clusters clusters.now)) ≤ length (C.clusters clusters.now) - 1 }
{
    let place = clusters.fitting(width);
    if place == clusters.count() {
        return Cut::Rest;
    }
    match last_break(clusters, place) {
        Some(space) => Cut::AtSpace(space),
        None => Cut::Inside(place.max(1)),
    }
}

/// The clusters without the spaces at their end.
fn trim_end<C: ClusterList>(clusters: &C) -> C
    ensures { C.clusters result ≡ trim_end (C.clusters clusters.now) }
{
    let mut end = clusters.count();
    while end > 0 && clusters.is_space(end - 1) {
        end -= 1;
    }
    clusters.part(0, end)
}

/// The clusters without the spaces at their start.
fn trim_start<C: ClusterList>(clusters: &C) -> C
    ensures { C.clusters result ≡ trim_start (C.clusters clusters.now) }
{
    let count = clusters.count();
    let mut from = 0;
    while from < count && clusters.is_space(from) {
        from += 1;
    }
    clusters.part(from, count)
}

/// The row that a cut makes.
pub fn row_before<C: ClusterList>(cut: Cut, clusters: &C) -> C
    requires { cut_place cut ≤ length (C.clusters clusters.now) }
    ensures { C.clusters result ≡ row_before cut (C.clusters clusters.now) }
{
    match cut {
        Cut::Rest => clusters.part(0, clusters.count()),
        Cut::AtSpace(place) | Cut::Inside(place) => trim_end(&clusters.part(0, place)),
    }
}

/// What a cut leaves for the next rows.
pub fn rest_after<C: ClusterList>(cut: Cut, clusters: &C) -> C
    requires { cut_place cut ≤ length (C.clusters clusters.now) }
    ensures { C.clusters result ≡ rest_after cut (C.clusters clusters.now) }
{
    let count = clusters.count();
    match cut {
        Cut::Rest => clusters.part(count, count),
        Cut::AtSpace(place) => trim_start(&clusters.part(place, count)),
        Cut::Inside(place) => clusters.part(place, count),
    }
}
