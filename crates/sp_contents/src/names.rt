//! The names of those who speak.
ghost use Rattle.std.specs.Prelude.{◌≡◌, map, string_bytes, All, IfOk};
ghost use Rattle.spec_text.specs.Lines.{line_texts};
ghost use Rattle.spec_script.specs.Elements.{PlacedLies};
ghost use Rattle.spec_machine.specs.Outlines.{speaker_names};

use sp_blocks::{PlacedBlock, is_speech_block};
use sp_layout::speaker_name;
use sp_text::Lines;
use std::alloc::{AllocError, Global};

/// The names of the speeches among blocks, in order.
pub fn speaker_names(
    alloc: Global,
    lines: &Lines,
    blocks: &[PlacedBlock<'_>],
) -> Result<Vec<String>, AllocError>
    requires { All (PlacedLies (line_texts lines.now.lines)) blocks.now }
    ensures { IfOk result (λ names.
        map string_bytes names.items ≡ speaker_names (line_texts lines.now.lines) blocks.now) }
{
    let mut names = Vec::new(alloc);
    for placed in blocks {
        if is_speech_block(placed) {
            names.push(speaker_name(alloc, lines, placed)?)?;
        }
    }
    Ok(names)
}
