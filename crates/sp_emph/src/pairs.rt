//! The pairs of a layer's markers.
ghost use Rattle.std.specs.Prelude.{◌≡◌, ◌+◌, ◌<◌, ◌≤◌, nat_lt, ◌&&◌, ℕ, false, true, length, slice_index, IfOk};
ghost use Rattle.spec_script.specs.Emphasis.{closes, markers_of, pairs_of};
ghost use Rattle.sp_emph.specs.Layering.{AreWithin};

use crate::marks::{closes, opens};
use spec_script::{Layer, Pair};
use std::alloc::{AllocError, Global};

/// The index of the first marker, from an index on, that closes, or the number of markers.
fn next_close(line: &[u8], markers: &[u32], from: usize) -> usize
    requires { from ≤ length markers.now }
    ensures order { from ≤ result }
    ensures within { result ≤ length markers.now }
    ensures skipped { (k : ℕ) → from ≤ k → k < result → closes line.now (slice_index markers.now k) ≡ false }
    ensures found { result < length markers.now → closes line.now (slice_index markers.now result) ≡ true }
{
    let mut index = from;
    while index < markers.len() && !closes(line, markers[index] as usize) {
        index += 1;
    }
    index
}

/// Whether the marker of an index is used by an earlier pair, where those that close are used up to another index.
fn is_used(line: &[u8], marker: usize, index: usize, used: usize) -> bool
    ensures { result ≡ (closes line.now marker && nat_lt index used) }
{
    index < used && closes(line, marker)
}

/// The pairs of a layer, in order of their first markers. Of the markers from one on, those that an earlier pair used
/// are always the ones that close before the index `used`, so each is looked at twice at most.
pub fn pairs_of(
    alloc: Global,
    layer: Layer,
    line: &[u8],
    markers: &[u32],
) -> Result<Vec<Pair>, AllocError>
    requires short { length line.now ≤ 4096 }
    requires all { markers.now ≡ markers_of layer line.now }
    ensures value { IfOk result (λ v. v.items ≡ pairs_of layer line.now) }
    ensures within { IfOk result (λ v. AreWithin layer v.items (length line.now)) }
{
    let mut pairs = Vec::new(alloc);
    let mut used = 0;
    for index in 0..markers.len() {
        let first = markers[index];
        if is_used(line, first as usize, index, used) || !opens(layer, line, first as usize) {
            continue;
        }
        used = next_close(line, markers, used.max(index + 1));
        if used == markers.len() {
            continue;
        }
        pairs.push(Pair {
            first,
            second: markers[used],
        })?;
        used += 1;
    }
    Ok(pairs)
}
