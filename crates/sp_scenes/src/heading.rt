use sp_labels::Label;
use std::marker::Model;

/// A heading of a script.
#[derive(Drop)]
pub struct HeadingAt {
    /// The place of its line.
    pub place: u64,
    /// The id of its line.
    pub id: u64,
    /// Whether a number is written in it.
    pub written: bool,
    /// The written number, where it is a label that counts (docs/RULES.md, "Scene numbers").
    pub number: Option<Label>,
}

impl Model for HeadingAt {
    ghost use Rattle.spec_labels.specs.Scenes.{HeadingOf};

    ghost Value = { HeadingOf };

    ghost view = { λ h. record { place = h.place; id = h.id; written = h.written; number = h.number } };
}

/// A label that a heading keeps (docs/RULES.md, "Scene numbers").
#[derive(Drop)]
pub struct SceneRecord {
    pub label: Label,
    /// The id of the heading's line.
    pub line: u64,
}

impl Model for SceneRecord {
    ghost use Rattle.spec_labels.specs.Scenes.{SceneRecordOf};

    ghost Value = { SceneRecordOf };

    ghost view = { λ r. record { label = r.label; line = r.line } };
}
