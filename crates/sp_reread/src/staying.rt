//! Which of the stanzas behind a place may stay, and whether the window of an edit ends at a place.
ghost use Rattle.std.specs.Prelude.{◌≡◌, ◌<◌, ◌≤◌, ◌⊎◌, length};
ghost use Rattle.std.specs.Bool.{OnTrue, OnFalse};
ghost use Rattle.sp_reread.specs.Gaps.{IsAbove, IsPassed, CanEnd};

use crate::Sides;

/// How many of the stanzas behind the place of the sides, from the last of the text on, have together no more lines than `left`, which
/// are left of the text. More than `most` of them have more.
pub fn pass(sides: &Sides<'_>, most: usize, left: usize) -> usize
    requires { IsAbove sides.now.back left most }
    ensures { IsPassed sides.now.back left result }
{
    let mut kept = most;
    while kept > 0 {
        if sides.lines_in(kept) <= left {
            return kept;
        }
        kept -= 1;
    }
    0
}

/// Whether the window ends at the line `place`, from 0, behind which `left` lines are left of the text: none is left, or the last
/// `kept` stanzas behind the place of the sides have as many. It doesn't end in the edit's new lines, which end before the line `past`,
/// and it leaves fewer lines than `total`, those of the text before.
pub fn ends(
    sides: &Sides<'_>,
    past: usize,
    total: usize,
    place: usize,
    left: usize,
    kept: usize,
) -> bool
    requires { kept ≤ length sides.now.back }
    ensures yes { OnTrue result ((left ≡ 0) ⊎ CanEnd sides.now.back past total place left kept) }
    ensures more { OnFalse result (0 < left) }
    ensures no { OnFalse result (CanEnd sides.now.back past total place left kept → ⊥) }
{
    if left == 0 {
        return true;
    }
    if place == 0 || place < past || left >= total {
        return false;
    }
    sides.lines_in(kept) == left
}
