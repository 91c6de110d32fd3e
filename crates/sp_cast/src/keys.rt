//! What tells scenes and sheets apart.
ghost use Rattle.std.specs.Prelude.{◌≡◌, option_map};
ghost use Rattle.sp_cast.specs.Keys.{label_of};

use crate::speech::Said;
use sp_labels::Label;

/// The number and the steps of a label.
#[derive(PartialEq, Eq, Hash, Drop)]
pub(crate) struct LabelKey<'a> {
    number: u32,
    path: &'a [u32],
}

/// The number and the steps of this label.
pub(crate) fn label_key(label: &Label) -> LabelKey<'_>
    ensures { label_of result ≡ label.now }
{
    LabelKey {
        number: label.number,
        path: label.path.as_slice(),
    }
}

/// Those of the label of a speech's scene.
pub(crate) fn scene_key(said: &Said) -> Option<LabelKey<'_>>
    ensures { option_map label_of result ≡ said.now.scene }
{
    match &said.scene {
        Some(label) => Some(label_key(label)),
        None => None,
    }
}
