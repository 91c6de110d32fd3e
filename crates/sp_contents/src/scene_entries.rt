//! What an outline tells of scenes.
ghost use Rattle.std.specs.Prelude.{◌≡◌, is_some, option_map, IfOk, IfSome};
ghost use Rattle.spec_labels.specs.Scenes.{AreHeadings, AreSceneRecords, scene_labels};

use sp_labels::Label;
use sp_scenes::{HeadingAt, SceneRecord, numbers};
use std::alloc::{AllocError, Global};
use std::marker::Model;

/// Of the headings of a script: whether scenes are locked, the label of each, that of the sheet with its first row, and
/// the labels of scenes that are gone.
#[derive(Drop)]
pub struct Scenes {
    pub locked: bool,
    pub labels: Vec<Label>,
    pub sheets: Vec<String>,
    pub gone: Vec<Label>,
}

impl Model for Scenes {
    ghost use Rattle.std.specs.Prelude.{map, string_bytes};
    ghost use Rattle.spec_machine.specs.Outlines.{Scenes as ScenesOf};

    ghost Value = { ScenesOf };

    ghost view = { λ s. record {
      locked = s.locked;
      labels = s.labels.items;
      sheets = map string_bytes s.sheets.items;
      gone = s.gone.items;
    } };
}

/// Whether scenes are locked.
pub fn are_locked(scenes: &Option<Vec<SceneRecord>>) -> bool
    ensures { result ≡ is_some (option_map (λ those. those.items) scenes.now) }
{
    match scenes {
        None => false,
        Some(_) => true,
    }
}

/// The labels of headings, with the records where scenes are locked.
pub fn labels_of(
    alloc: Global,
    headings: &[HeadingAt],
    scenes: &Option<Vec<SceneRecord>>,
) -> Result<Vec<Label>, AllocError>
    requires headings { AreHeadings headings.now }
    requires records { IfSome scenes.now (λ records. AreSceneRecords records.items) }
    ensures { IfOk result (λ labels.
        labels.items ≡ scene_labels headings.now (option_map (λ those. those.items) scenes.now)) }
{
    match scenes {
        None => numbers(alloc, headings, None),
        Some(records) => numbers(alloc, headings, Some(records.as_slice())),
    }
}
