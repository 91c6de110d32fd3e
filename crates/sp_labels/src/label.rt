ghost use Rattle.std.specs.Prelude.{◌≡◌, IfOk};
ghost use Rattle.spec_labels.specs.Labels.{label_cmp};

use std::alloc::{AllocError, Global};
use std::cmp::Ordering;
use std::marker::Model;

/// A scene number or the label of a sheet (docs/RULES.md, "Labels").
#[derive(Drop)]
pub struct Label {
    /// What is written in decimal.
    pub number: u32,
    /// The steps behind the number: 0 is written as a dot, 1 to 24 as letters, more in brackets. A path that isn't
    /// empty ends in a step above 0.
    pub path: Vec<u32>,
}

impl Model for Label {
    ghost use Rattle.spec_labels.specs.Labels.{LabelOf};

    ghost Value = { LabelOf };

    ghost view = { λ l. record { number = l.number; path = l.path.items } };
}

impl Label {
    /// A label of the same number and steps.
    pub fn copy(&self, alloc: Global) -> Result<Label, AllocError>
        ensures { IfOk result (λ l. l ≡ self.now) }
    {
        Ok(Label {
            number: self.number,
            path: Vec::from_slice(alloc, &self.path)?,
        })
    }
}

/// The order of labels: by number, then by path, step by step, a prefix first (docs/RULES.md, "Labels"). Takes no memory.
pub fn compare(a: &Label, b: &Label) -> Ordering
    ensures { result ≡ label_cmp a.now b.now }
{
    a.number.cmp(&b.number).then(a.path.cmp(&b.path))
}
