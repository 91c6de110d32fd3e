//! What is made of a state: its text laid out, the labels of its headings, and its sheets.
use sp_labels::Label;
use sp_layout::KeptLayout;
use sp_locks::Sheet;
use std::marker::Model;

/// The labels of the headings of a state where scenes are locked, the first rows of its title sheets, and its other sheets.
#[derive(Drop)]
pub struct Numbered {
    pub labels: Option<Vec<Label>>,
    pub title_starts: Vec<usize>,
    pub sheets: Vec<Sheet>,
}

impl Model for Numbered {
    ghost use Rattle.std.specs.Prelude.{option_map};
    ghost use Rattle.sp_sheets.specs.Made.{NumberedOf};

    ghost Value = { NumberedOf };

    ghost view = { λ n. record {
      labels = option_map (λ those. those.items) n.labels;
      title_starts = n.title_starts.items;
      sheets = n.sheets.items;
    } };
}

/// The elements of a state laid out, and its labels and sheets.
#[derive(Drop)]
pub struct Made {
    pub layout: KeptLayout,
    pub numbered: Numbered,
}

impl Model for Made {
    ghost use Rattle.sp_layout.specs.Kept.{laid_of};
    ghost use Rattle.sp_sheets.specs.Made.{MadeOf};

    ghost Value = { MadeOf };

    ghost view = { λ m. record { layout = laid_of m.layout; numbered = m.numbered } };
}
