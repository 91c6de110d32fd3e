//! Where the rows of a line stand.
ghost use Rattle.std.specs.Prelude.{◌≡◌, ◌<◌};
ghost use Rattle.spec_pages.specs.Columns.{centred_column, column_of, ending_column, first_lead, has_rows, own_column, own_width, row_kind, text_column, text_row_kind, width_of};

use spec_pages::{RowKind, Side};
use spec_script::{Kind, Part};

/// The column of a row of this width that ends at column 75, or begins at 15 where it is wider than 60.
fn ending_column(width: u32) -> u32
    ensures { result ≡ ending_column width }
{
    75u32.saturating_sub(width).max(15)
}

/// The column of a row of this width in the middle of columns 15 to 75, or 15 where it is wider than 60.
fn centred_column(width: u32) -> u32
    ensures { result ≡ centred_column width }
{
    15 + 60u32.saturating_sub(width) / 2
}

fn text_column(kind: Kind, width: u32) -> u32
    ensures { result ≡ text_column kind width }
{
    match kind {
        Kind::Lyric => 25,
        Kind::Transition => ending_column(width),
        Kind::Centred => centred_column(width),
        _ => 15,
    }
}

fn own_column(kind: Kind, part: Part, width: u32) -> u32
    ensures { result ≡ own_column kind part width }
{
    match part {
        Part::Text => text_column(kind, width),
        Part::Cue => 37,
        Part::Parenthetical => 31,
        Part::Dialogue | Part::Sung | Part::Held => 25,
        Part::TitleCentred => centred_column(width),
        Part::TitleLeft => 15,
    }
}

/// The column of a row of this width.
pub fn column_of(side: Side, kind: Kind, part: Part, width: u32) -> u32
    ensures { result ≡ column_of side kind part width }
{
    match side {
        Side::Alone => own_column(kind, part, width),
        Side::Left => 15,
        Side::Right => 47,
    }
}

fn own_width(kind: Kind, part: Part) -> u32
    ensures { result ≡ own_width kind part }
{
    match (part, kind) {
        (Part::Cue, _) => 38,
        (Part::Parenthetical, _) => 24,
        (Part::Dialogue | Part::Sung | Part::Held, _) | (Part::Text, Kind::Lyric) => 35,
        _ => 60,
    }
}

/// How wide the rows of a line may be.
pub fn width_of(side: Side, kind: Kind, part: Part) -> u32
    ensures value { result ≡ width_of side kind part }
    ensures some { 0 < result }
{
    match side {
        Side::Alone => own_width(kind, part),
        _ => 28,
    }
}

fn text_row_kind(kind: Kind) -> RowKind
    ensures { result ≡ text_row_kind kind }
{
    match kind {
        Kind::Heading => RowKind::Heading,
        Kind::Lyric => RowKind::Lyric,
        Kind::Transition => RowKind::Transition,
        Kind::Centred => RowKind::Centred,
        _ => RowKind::Action,
    }
}

/// What a row is to page ends.
pub fn row_kind(kind: Kind, part: Part) -> RowKind
    ensures { result ≡ row_kind kind part }
{
    match part {
        Part::Text => text_row_kind(kind),
        Part::Cue => RowKind::Cue,
        Part::Parenthetical => RowKind::Parenthetical,
        Part::Dialogue | Part::Held => RowKind::Dialogue,
        Part::Sung => RowKind::Sung,
        Part::TitleCentred | Part::TitleLeft => RowKind::Action,
    }
}

/// The empty rows before the first row of an element.
pub fn first_lead(kind: Kind) -> u8
    ensures { result ≡ first_lead kind }
{
    match kind {
        Kind::Heading => 2,
        _ => 1,
    }
}

/// Whether blocks of the kind have rows.
pub fn has_rows(kind: Kind) -> bool
    ensures { result ≡ has_rows kind }
{
    !matches!(kind, Kind::PageBreak | Kind::Section | Kind::Synopsis)
}
