//! The outline of a script.
ghost use Rattle.std.specs.Prelude.{◌≡◌, string_bytes, IfOk};
ghost use Rattle.spec_text.specs.Lines.{line_texts};
ghost use Rattle.spec_script.specs.Stanzas.{blocks_of};
ghost use Rattle.spec_machine.specs.Outline.{cast_of};
ghost use Rattle.spec_machine.specs.Outlines.{names_of, outline_of};
ghost use Rattle.spec_wire.specs.Replies as replies;
ghost use Rattle.sp_wire.specs.Values.{reply_of};

use crate::scenes::scenes_of;
use crate::{entries_of, speaker_names};
use sp_blocks::PlacedBlock;
use sp_outline::{CastLine, cast};
use sp_reread::placed_blocks;
use sp_sheets::StateView;
use sp_wire::Reply;
use std::alloc::{AllocError, Global};

/// The cast of a script with these blocks.
fn cast_among(
    alloc: Global,
    view: &StateView<'_>,
    blocks: &[PlacedBlock<'_>],
) -> Result<Vec<CastLine>, AllocError>
    requires { blocks.now ≡ blocks_of (line_texts view.now.lines) }
    ensures { IfOk result (λ cast. cast.items ≡ cast_of (names_of view.now)) }
{
    let lines = view.lines();
    let _count = lines.len();
    let names = speaker_names(alloc, lines, blocks)?;
    cast(alloc, &names)
}

/// The outline of a script with its cast, as text (docs/RULES.md, "Outline"). Time grows with the script and its records,
/// but for look-ups by halves. `AllocError` comes for want of memory alone.
pub fn outline_text(alloc: Global, view: &StateView<'_>) -> Result<String, AllocError>
    ensures { IfOk result (λ text. string_bytes text ≡ outline_of view.now) }
{
    let lines = view.lines();
    let _count = lines.len();
    let _sheets = view.body_sheets();
    let blocks = placed_blocks(alloc, view.stanzas())?;
    let scenes = scenes_of(alloc, view, &blocks)?;
    let entries = entries_of(alloc, lines, &scenes, &blocks)?;
    let cast = cast_among(alloc, view, &blocks)?;
    sp_outline::outline_text(alloc, &entries, &cast)
}

/// The reply that tells the outline of a script (docs/RULES.md, "Replies"). `AllocError` comes for want of memory alone.
pub fn outline_reply(alloc: Global, view: &StateView<'_>) -> Result<Reply, AllocError>
    ensures { IfOk result (λ reply. reply_of reply ≡ replies.outline (outline_of view.now)) }
{
    Ok(Reply::Outline(outline_text(alloc, view)?))
}
