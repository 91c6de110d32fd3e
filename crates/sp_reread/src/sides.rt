//! The stanzas on both sides of a place, which need not be the gap.
ghost use Rattle.std.specs.Prelude.{◌≡◌, ◌≤◌, ◌+◌, length, take};
ghost use Rattle.spec_edit.specs.Windows.{stanza_lines_in};
ghost use Rattle.sp_reread.specs.Gaps.{AtLine, gap_list};

use crate::Pile;
use std::marker::Model;

/// How many lines stand before a stanza, or behind the last one how many there are.
pub fn lines_before(front: &Pile, back: &Pile, place: usize) -> usize
    requires within { place ≤ length front.now.stanzas + length back.now.stanzas }
    requires low { stanza_lines_in front.now.stanzas + stanza_lines_in back.now.stanzas ≤ 18446744073709551615 }
    ensures { result ≡ stanza_lines_in (take place (gap_list front.now.stanzas back.now.stanzas)) }
{
    let before = front.len();
    if place <= before {
        front.lines_in(place)
    } else {
        let count = back.len();
        front.lines_in(before) + back.lines_in(count) - back.lines_in(count - (place - before))
    }
}

/// The stanzas of two piles on both sides of a place, lent.
#[derive(Drop)]
pub struct Sides<'a> {
    front: &'a Pile,
    back: &'a Pile,
    at: usize,
}

impl<'a> Model for Sides<'a> {
    ghost use Rattle.std.specs.Prelude.{◌≤◌, ◌+◌, drop, length, reverse, take};
    ghost use Rattle.spec_edit.specs.Windows.{stanza_lines_in};
    ghost use Rattle.sp_reread.specs.Gaps.{SidesState, gap_list};

    ghost Value = { SidesState };

    ghost view = { λ s. record {
      front = take s.at (gap_list s.front.now.stanzas s.back.now.stanzas);
      back = reverse (drop s.at (gap_list s.front.now.stanzas s.back.now.stanzas));
    } };

    ghost invariant = { λ s. (s.at ≤ length s.front.now.stanzas + length s.back.now.stanzas)
        × (stanza_lines_in s.front.now.stanzas + stanza_lines_in s.back.now.stanzas ≤ 18446744073709551615) };
}

impl<'a> Sides<'a> {
    /// The sides of the greatest place, not behind the line `first`, where a stanza begins. It is found by halves.
    pub fn at_line(front: &'a Pile, back: &'a Pile, first: usize) -> Sides<'a>
        requires { stanza_lines_in front.now.stanzas + stanza_lines_in back.now.stanzas ≤ 18446744073709551615 }
        ensures stanzas { gap_list result.front result.back ≡ gap_list front.now.stanzas back.now.stanzas }
        ensures place { AtLine result.front result.back first }
    {
        let mut at = 0;
        let mut high = front.len() + back.len();
        while high - at > 1 {
            let middle = at + (high - at) / 2;
            if lines_before(front, back, middle) <= first {
                at = middle;
            } else {
                high = middle;
            }
        }
        Sides { front, back, at }
    }

    /// How many stanzas are before the place.
    pub fn at(&self) -> usize
        ensures { result ≡ length self.now.front }
    {
        self.at
    }

    /// How many stanzas are behind it.
    pub fn len(&self) -> usize
        ensures { result ≡ length self.now.back }
    {
        self.front.len() + self.back.len() - self.at
    }

    /// How many lines stand before the place.
    pub fn lines_before(&self) -> usize
        ensures { result ≡ stanza_lines_in self.now.front }
    {
        lines_before(self.front, self.back, self.at)
    }

    /// How many lines there are.
    pub fn lines(&self) -> usize
        ensures { result ≡ stanza_lines_in self.now.front + stanza_lines_in self.now.back }
    {
        lines_before(self.front, self.back, self.front.len() + self.back.len())
    }

    /// How many lines the last `count` stanzas have.
    pub fn lines_in(&self, count: usize) -> usize
        requires { count ≤ length self.now.back }
        ensures { result ≡ stanza_lines_in (take count self.now.back) }
    {
        let all = self.front.len() + self.back.len();
        self.lines() - lines_before(self.front, self.back, all - count)
    }
}
