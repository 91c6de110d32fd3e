//! The speeches of a script, each with its scene and its sheet.
ghost use Rattle.std.specs.Prelude.{◌≡◌, IfOk, map};
ghost use Rattle.spec_sheets.specs.Shown.{shape_of};
ghost use Rattle.spec_state.specs.StateSheets.{body_sheets, rows_in};
ghost use Rattle.spec_cast.specs.Said.{said_of};
ghost use Rattle.sp_contents.specs.Speeches.{speech_sheets};

use crate::scenes::scenes_of;
use crate::{said_among, speech_sheets};
use sp_cast::Said;
use sp_labels::Label;
use sp_reread::placed_blocks;
use sp_sheets::StateView;
use std::alloc::{AllocError, Global};

/// The speeches of a script, in order: the name of each, the label of the last heading before it, and the first label of the
/// sheet on which it begins, or, of the second of a pair, on which the pair begins (docs/RULES.md, "Cast sides"). Time
/// grows with the script, but for look-ups by halves. `AllocError` comes for want of memory alone.
pub fn said(alloc: Global, view: &StateView<'_>) -> Result<Vec<Said>, AllocError>
    ensures { IfOk result (λ said. said.items ≡ said_of view.now) }
{
    let lines = view.lines();
    let _count = lines.len();
    let _sheets = view.body_sheets();
    let blocks = placed_blocks(alloc, view.stanzas())?;
    let scenes = scenes_of(alloc, view, &blocks)?;
    let sheets = speech_sheets_of(alloc, view)?;
    said_among(alloc, lines, &scenes.labels, &sheets, &blocks)
}

/// The first labels of the sheets on which the speeches and pairs of a script begin.
fn speech_sheets_of(alloc: Global, view: &StateView<'_>) -> Result<Vec<Label>, AllocError>
    ensures { IfOk result (λ labels.
        labels.items ≡ speech_sheets (body_sheets view.now) 0 (map shape_of (rows_in view.now))) }
{
    let sheets = view.body_sheets();
    speech_sheets(alloc, sheets, view.shapes())
}
