//! Keys and shapes of rows, compared.
ghost use Rattle.std.specs.Prelude.{◌≡◌};
ghost use Rattle.spec_state.specs.SameRows.{kind_place, same_key, same_shape};

use spec_labels::RowKey;
use spec_pages::{RowKind, Shape};

/// The place of a kind among all kinds.
fn kind_place(kind: RowKind) -> u8
    ensures { result ≡ kind_place kind }
{
    match kind {
        RowKind::Heading => 0,
        RowKind::Action => 1,
        RowKind::Cue => 2,
        RowKind::Parenthetical => 3,
        RowKind::Dialogue => 4,
        RowKind::Sung => 5,
        RowKind::Dual => 6,
        RowKind::Lyric => 7,
        RowKind::Transition => 8,
        RowKind::Centred => 9,
    }
}

/// Whether two keys are the same.
pub(crate) fn same_key(one: RowKey, other: RowKey) -> bool
    ensures { result ≡ same_key one other }
{
    one.line == other.line && one.row == other.row
}

/// Whether page ends see the same of two rows.
pub(crate) fn same_shape(one: Shape, other: Shape) -> bool
    ensures { result ≡ same_shape one other }
{
    one.lead == other.lead
        && kind_place(one.kind) == kind_place(other.kind)
        && one.index == other.index
        && one.rest == other.rest
        && one.sentence_end == other.sentence_end
}
