//! What a record file says of its records.
use crate::PageEntry;
use sp_scenes::SceneRecord;
use spec_pages::Paper;
use std::marker::Model;

/// The round, the settings and the records of a file (docs/RULES.md, "Record file").
#[derive(Drop)]
pub(crate) struct KeptRecords {
    pub round: u64,
    pub speakers: bool,
    pub paper: Paper,
    pub scenes: Option<Vec<SceneRecord>>,
    pub pages: Option<Vec<PageEntry>>,
}

impl Model for KeptRecords {
    ghost use Rattle.std.specs.Prelude.{option_map};
    ghost use Rattle.spec_records.specs.Kept.{RecordsOf};

    ghost Value = { RecordsOf };

    ghost view = { λ r. record {
      round = r.round;
      speakers = r.speakers;
      paper = r.paper;
      scenes = option_map (λ v. v.items) r.scenes;
      pages = option_map (λ v. v.items) r.pages;
    } };
}
