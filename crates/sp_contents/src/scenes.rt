//! What an outline tells of the scenes of a script.
ghost use Rattle.std.specs.Prelude.{◌≡◌, option_map, IfOk};
ghost use Rattle.spec_text.specs.Lines.{line_texts};
ghost use Rattle.spec_script.specs.Stanzas.{blocks_of};
ghost use Rattle.spec_state.specs.Headings.{headings_of};
ghost use Rattle.spec_machine.specs.Outlines.{scenes_of};

use crate::{Scenes, are_locked, gone_labels, heading_rows, labels_of, sheet_texts};
use sp_blocks::PlacedBlock;
use sp_scenes::{HeadingAt, SceneRecord};
use sp_sheets::{StateView, headings_among};
use std::alloc::{AllocError, Global};

/// The scene records of a script.
fn scene_records<'a>(view: &StateView<'a>) -> &'a Option<Vec<SceneRecord>>
    ensures { option_map (λ those. those.items) result.now ≡ view.now.scenes }
{
    let records = view.records();
    &records.scenes
}

/// What an outline tells of the scenes of a script with these headings.
fn scenes_with(
    alloc: Global,
    view: &StateView<'_>,
    headings: &[HeadingAt],
) -> Result<Scenes, AllocError>
    requires { headings.now ≡ headings_of view.now.lines }
    ensures { IfOk result (λ scenes. scenes ≡ scenes_of view.now) }
{
    let records = scene_records(view);
    let sheets = view.body_sheets();
    let rows = heading_rows(alloc, view.shapes())?;
    let labels = labels_of(alloc, headings, records)?;
    let texts = sheet_texts(alloc, sheets, &rows)?;
    let gone = gone_labels(alloc, headings, records)?;
    Ok(Scenes {
        locked: are_locked(records),
        labels,
        sheets: texts,
        gone,
    })
}

/// What an outline tells of the scenes of a script with these blocks.
pub(crate) fn scenes_of(
    alloc: Global,
    view: &StateView<'_>,
    blocks: &[PlacedBlock<'_>],
) -> Result<Scenes, AllocError>
    requires { blocks.now ≡ blocks_of (line_texts view.now.lines) }
    ensures { IfOk result (λ scenes. scenes ≡ scenes_of view.now) }
{
    let lines = view.lines();
    let _count = lines.len();
    let headings = headings_among(alloc, lines, blocks)?;
    scenes_with(alloc, view, &headings)
}
