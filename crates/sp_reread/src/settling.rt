//! Stanzas with a heading or a speech, which settle who spoke before those behind them.
ghost use Rattle.std.specs.Prelude.{◌≡◌, ◌≤◌, ◌+◌, length, IfNone, IfSome};
ghost use Rattle.spec_edit.specs.Settling.{IsNextSettling, IsSettledBefore, block_settles, stanza_settles};
ghost use Rattle.sp_reread.specs.Gaps.{NoneSettles, gap_list};

use crate::Pile;
use sp_blocks::{Block, Stanza};
use spec_script::Kind;

/// Whether it doesn't matter behind a block who spoke before it.
pub fn block_settles(block: &Block) -> bool
    ensures { result ≡ block_settles block.now }
{
    matches!(block.kind, Kind::Heading | Kind::Speech)
}

/// The same of a stanza.
pub fn stanza_settles(stanza: &Stanza) -> bool
    ensures { result ≡ stanza_settles stanza.now }
{
    for block in &stanza.blocks {
        if block_settles(block) {
            return true;
        }
    }
    false
}

/// The place behind the last stanza before `to` that has a heading or a speech, or 0.
pub fn settled_before(front: &Pile, back: &Pile, to: usize) -> usize
    requires { to ≤ length front.now.stanzas + length back.now.stanzas }
    ensures { IsSettledBefore (gap_list front.now.stanzas back.now.stanzas) to result }
{
    let before = front.len();
    if to <= before {
        return front.settled_in(to);
    }
    let count = back.len();
    match back.next_settling(count - (to - before)) {
        Some(place) => before + (count - place),
        None => front.settled_in(before),
    }
}

/// The first stanza from a place on that has a heading or a speech.
pub fn next_settling(front: &Pile, back: &Pile, from: usize) -> Option<usize>
    requires { from ≤ length front.now.stanzas + length back.now.stanzas }
    ensures some { IfSome result (IsNextSettling (gap_list front.now.stanzas back.now.stanzas) from) }
    ensures none { IfNone result (NoneSettles (gap_list front.now.stanzas back.now.stanzas) from) }
{
    let before = front.len();
    if from > before {
        return next_behind(front, back, from);
    }
    match front.next_settling(from) {
        Some(place) => Some(place),
        None => next_behind(front, back, before),
    }
}

/// The same from a place behind the gap on.
fn next_behind(front: &Pile, back: &Pile, from: usize) -> Option<usize>
    requires behind { length front.now.stanzas ≤ from }
    requires within { from ≤ length front.now.stanzas + length back.now.stanzas }
    ensures some { IfSome result (IsNextSettling (gap_list front.now.stanzas back.now.stanzas) from) }
    ensures none { IfNone result (NoneSettles (gap_list front.now.stanzas back.now.stanzas) from) }
{
    let before = front.len();
    let count = back.len();
    let settled = back.settled_in(count - (from - before));
    if settled == 0 {
        None
    } else {
        Some(before + (count - settled))
    }
}
