//! The labels of headings, lent.
ghost use Rattle.std.specs.Prelude.{◌≡◌, drop};
ghost use Rattle.std.specs.Option.{option_copied};
ghost use Rattle.spec_sheets.specs.Shown.{labels_past};

use sp_labels::Label;

/// The labels behind the first ones.
fn labels_behind(labels: &[Label], count: usize) -> &[Label]
    ensures { result.now ≡ drop count labels.now }
{
    let past = count.min(labels.len());
    &labels[past..]
}

/// The labels behind those of so many headings, where there are some.
pub fn labels_past<'a>(labels: Option<&'a [Label]>, count: usize) -> Option<&'a [Label]>
    ensures { option_copied result ≡ labels_past count (option_copied labels.entry) }
{
    match labels {
        None => None,
        Some(labels) => Some(labels_behind(labels, count)),
    }
}
