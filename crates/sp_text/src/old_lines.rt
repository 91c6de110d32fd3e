//! The lines of a text before a change.
ghost use Rattle.std.specs.Prelude.{◌≡◌, ◌+◌, ◌<◌, ◌≤◌, length};
ghost use Rattle.spec_text.specs.Edits.{restored, text_at};
ghost use Rattle.spec_text.specs.Lines.{IsText, line_texts};
ghost use Rattle.sp_text.specs.DisplacedLines.{displaced_of};
ghost use Rattle.sp_text.specs.Gap.{text_of};

use crate::{Displaced, Line, Lines};
use std::marker::Model;

/// The lines of a text before a change, by the text after it and the lines that the change displaced. No text is copied.
#[derive(Drop)]
pub struct OldLines<'a> {
    lines: &'a Lines,
    displaced: &'a Displaced,
}

impl<'a> Model for OldLines<'a> {
    ghost use Rattle.std.specs.Prelude.{◌+◌, ◌≤◌, List, length};
    ghost use Rattle.spec_text.specs.Edits.{restored};
    ghost use Rattle.spec_text.specs.Lines.{IsText, LineState};
    ghost use Rattle.sp_text.specs.DisplacedLines.{displaced_of};
    ghost use Rattle.sp_text.specs.Gap.{text_of};

    ghost Value = { List LineState };

    ghost view = { λ o. (restored (text_of o.lines.now) (displaced_of o.displaced.now)).lines };

    ghost invariant = { λ o. (o.displaced.now.first + o.displaced.now.stands ≤ length o.lines.now.lines) × IsText (restored (text_of o.lines.now) (displaced_of o.displaced.now)) };
}

/// The text of the line at a place.
fn line_text(lines: &Lines, place: u64) -> &str
    requires { place < length (line_texts lines.now.lines) }
    ensures { text_at lines.now.lines place ≡ result.now }
{
    lines.line(place as usize).text
}

/// The text of a displaced line.
fn displaced_text(lines: &[Line], place: u64) -> &str
    requires { place < length (line_texts lines.now) }
    ensures { text_at lines.now place ≡ result.now }
{
    let line = &lines[place as usize];
    line.text.as_str()
}

impl<'a> OldLines<'a> {
    /// The lines that stood in a text before the change that displaced these.
    pub fn new(lines: &'a Lines, displaced: &'a Displaced) -> OldLines<'a>
        requires place { displaced.now.first + displaced.now.stands ≤ length lines.now.lines }
        requires text { IsText (restored (text_of lines.now) (displaced_of displaced.now)) }
        ensures { result ≡ (restored (text_of lines.now) (displaced_of displaced.now)).lines }
    {
        OldLines { lines, displaced }
    }

    /// The text of the line so many lines behind a place.
    pub fn text(&self, first: u64, line: u32) -> &'a str
        requires { first + line < length (line_texts self.now) }
        ensures { text_at self.now (first + line) ≡ result.now }
    {
        let displaced = self.displaced;
        let place = first + line as u64;
        let gone = displaced.first;
        if place < gone {
            return line_text(self.lines, place);
        }
        let behind = place - gone;
        let count = displaced.lines.len() as u64;
        if behind < count {
            return displaced_text(&displaced.lines, behind);
        }
        let _now = self.lines.len();
        line_text(self.lines, gone + displaced.stands + (behind - count))
    }
}
