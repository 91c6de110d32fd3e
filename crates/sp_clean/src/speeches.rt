//! Whether a line opens a speech (docs/RULES.md, "Blocks").
ghost use Rattle.std.specs.Prelude.{◌≡◌, ◌≤◌, ◌&&◌, ◌||◌, length};
ghost use Rattle.spec_text.specs.Parts.{Parts};
ghost use Rattle.spec_script.specs.Trim.{trim};
ghost use Rattle.spec_script.specs.Spans.{text_in};
ghost use Rattle.spec_script.specs.Forms.{is_forced_cue, is_natural_cue};

use crate::forms::is_cue;
use crate::trimmed_forms::is_forced_cue;
use spec_text::Span;

/// Whether a line opens a speech: a forced cue does, and a natural cue does where another line follows it. `trimmed` is
/// the kept text of the line, trimmed. It takes no memory. (docs/RULES.md, "Blocks")
pub fn opens_speech(text: &str, kept: &[Span], trimmed: &str, is_followed: bool) -> bool
    requires long { length text.now ≤ 4096 }
    requires kept { Parts text.now 0 kept.now }
    requires trimmed { trimmed.now ≡ trim (text_in text.now kept.now) }
    ensures { result ≡ (is_forced_cue trimmed.now || (is_followed && is_natural_cue trimmed.now)) }
{
    is_forced_cue(trimmed) || (is_followed && is_cue(text, kept))
}
