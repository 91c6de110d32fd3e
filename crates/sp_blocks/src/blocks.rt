//! What the lines of a stanza are together.
ghost use Rattle.std.specs.Prelude.{◌≡◌, ◌∷◌, [], IfOk};
ghost use Rattle.spec_script.specs.Blocks.{left_blocks};

use crate::Block;
use crate::divisions::division;
use crate::left::LeftLine;
use crate::speeches::{is_speech, speech};
use crate::titles::title_page;
use sp_title::is_title_page;
use std::alloc::{AllocError, Global};

/// The blocks of a stanza, of which these lines are left without the held ones at its beginning: a title page, which it
/// may be where it is the first of its text, a speech, or parts. Blocks count lines from the stanza's first line, and
/// their runs and written numbers are places of bytes in its lines. The lines are in order. The error is want of memory alone.
pub fn left_blocks(
    alloc: Global,
    lines: &[LeftLine<'_>],
    first: bool,
) -> Result<Vec<Block>, AllocError>
    ensures { IfOk result (λ v. v.items ≡ left_blocks first lines.now) }
{
    if lines.is_empty() {
        return Ok(Vec::new(alloc));
    }
    let opening = &lines[0];
    if is_title_page(first, opening.line, opening.spans.as_slice()) {
        return one_block(alloc, title_page(alloc, lines)?);
    }
    if is_speech(lines) {
        return one_block(alloc, speech(alloc, lines)?);
    }
    division(alloc, lines)
}

fn one_block(alloc: Global, block: Block) -> Result<Vec<Block>, AllocError>
    ensures { IfOk result (λ v. v.items ≡ block ∷ []) }
{
    let mut blocks = Vec::with_capacity(alloc, 1)?;
    blocks.push(block)?;
    Ok(blocks)
}
