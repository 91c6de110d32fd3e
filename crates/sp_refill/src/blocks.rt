//! The blocks next to the window of an edit.
ghost use Rattle.std.specs.Prelude.{◌≡◌, ◌+◌, ◌-◌, ◌≤◌, ◌&&◌, length, take, drop, option_copied, Some};
ghost use Rattle.sp_refill.specs.Neighbours.{first_in, first_one, are_dual, is_there, last_in, last_one, nearer, parts_behind, parts_rest, relays_before, relays_front};

use sp_blocks::{Block, Stanza, is_speech_kind};
use sp_reread::{Stanzas, Swapped};

/// Whether two neighbours are dual dialogue, where both are there.
fn are_dual(left: Option<&Block>, right: Option<&Block>) -> bool
    ensures { result ≡ are_dual (option_copied left.entry) (option_copied right.entry) }
{
    let Some(left) = left else {
        return false;
    };
    let Some(right) = right else {
        return false;
    };
    is_speech_kind(left.kind) && !left.caret && is_speech_kind(right.kind) && right.caret
}

/// Whether there is a block.
fn is_there(block: Option<&Block>) -> bool
    ensures { result ≡ is_there (option_copied block.entry) }
{
    match block {
        Some(_) => true,
        None => false,
    }
}

/// A block, or where there is none another.
fn nearer<'a>(block: Option<&'a Block>, other: Option<&'a Block>) -> Option<&'a Block>
    ensures { option_copied result ≡ nearer (option_copied block.entry) (option_copied other.entry) }
{
    match block {
        Some(block) => Some(block),
        None => other,
    }
}

/// The first block of a stanza.
fn first_one(stanza: &Stanza) -> Option<&Block>
    ensures { option_copied result ≡ first_one stanza.now }
{
    stanza.blocks.first()
}

/// The last block of a stanza.
fn last_one(stanza: &Stanza) -> Option<&Block>
    ensures { option_copied result ≡ last_one stanza.now }
{
    stanza.blocks.last()
}

/// The first block of stanzas.
fn first_of(stanzas: &[Stanza]) -> Option<&Block>
    ensures { option_copied result ≡ first_in stanzas.now }
{
    let mut place = 0;
    while place < stanzas.len() {
        if let Some(block) = first_one(&stanzas[place]) {
            return Some(block);
        }
        place += 1;
    }
    None
}

/// The last block of stanzas.
fn last_of(stanzas: &[Stanza]) -> Option<&Block>
    ensures { option_copied result ≡ last_in stanzas.now }
{
    let mut place = stanzas.len();
    while place > 0 {
        place -= 1;
        if let Some(block) = last_one(&stanzas[place]) {
            return Some(block);
        }
    }
    None
}

/// The first block of the stanzas from one place to before another.
fn first_among(stanzas: &Stanzas, from: usize, to: usize) -> Option<&Block>
    requires order { from ≤ to }
    requires within { to ≤ length stanzas.now.stanzas }
    ensures { option_copied result ≡ first_in (take (to - from) (drop from stanzas.now.stanzas)) }
{
    let mut place = from;
    while place < to {
        if let Some(block) = first_one(stanzas.stanza(place)) {
            return Some(block);
        }
        place += 1;
    }
    None
}

/// The last block of the stanzas before a place.
fn last_before(stanzas: &Stanzas, to: usize) -> Option<&Block>
    requires { to ≤ length stanzas.now.stanzas }
    ensures { option_copied result ≡ last_in (take to stanzas.now.stanzas) }
{
    let mut place = to;
    while place > 0 {
        place -= 1;
        if let Some(block) = last_one(stanzas.stanza(place)) {
            return Some(block);
        }
    }
    None
}

/// Whether the last block before a window is relaid, by the first block of the old window, that of the new one, and the first
/// behind it.
fn relays_front(
    front: Option<&Block>,
    gone: Option<&Block>,
    come: Option<&Block>,
    rest: Option<&Block>,
) -> bool
    ensures { result ≡ relays_front (option_copied front.entry) (option_copied gone.entry) (option_copied come.entry)
        (option_copied rest.entry) }
{
    (is_there(gone) || is_there(come))
        && (are_dual(front, nearer(gone, rest)) || are_dual(front, nearer(come, rest)))
}

/// Whether the last block before the window of an edit is relaid (docs/RULES.md, "Windows"), by the stanzas of the new text
/// and those that the edit displaced.
pub fn relays_before(stanzas: &Stanzas, swapped: &Swapped) -> bool
    requires { swapped.now.at + swapped.now.stands ≤ length stanzas.now.stanzas }
    ensures { result ≡ relays_before stanzas.now.stanzas swapped.now.at swapped.now.stands swapped.now.stanzas }
{
    let at = swapped.at();
    let count = stanzas.len();
    let end = at + swapped.stands();
    relays_front(
        last_before(stanzas, at),
        first_of(swapped.stanzas()),
        first_among(stanzas, at, end),
        first_among(stanzas, end, count),
    )
}

/// Whether the first block behind a window stood in a pair with one before it and stands in none with the block before it now.
fn parts_rest(old: Option<&Block>, new: Option<&Block>, rest: Option<&Block>) -> bool
    ensures { result ≡ parts_rest (option_copied old.entry) (option_copied new.entry) (option_copied rest.entry) }
{
    are_dual(old, rest) && !are_dual(new, rest)
}

/// Whether the first block behind the window of an edit was the right one of a pair and stands by itself now (docs/RULES.md,
/// "Elements"), by the stanzas of the new text and those that the edit displaced.
pub fn parts_behind(stanzas: &Stanzas, swapped: &Swapped) -> bool
    requires { swapped.now.at + swapped.now.stands ≤ length stanzas.now.stanzas }
    ensures { result ≡ parts_behind stanzas.now.stanzas swapped.now.at swapped.now.stands swapped.now.stanzas }
{
    let at = swapped.at();
    let count = stanzas.len();
    let end = at + swapped.stands();
    parts_rest(
        nearer(last_of(swapped.stanzas()), last_before(stanzas, at)),
        last_before(stanzas, end),
        first_among(stanzas, end, count),
    )
}
