//! The speeches among blocks, each with its scene and its sheet.
ghost use Rattle.std.specs.Prelude.{◌≡◌, ◌++◌, ◌+◌, ◌<◌, ◌^◌, ◌&&◌, not, if◌then◌else◌, All, IfOk, OnOk, option_copied, unwrap_or};
ghost use Rattle.spec_text.specs.Lines.{line_texts};
ghost use Rattle.spec_script.specs.Elements.{is_speech_block, PlacedLies};
ghost use Rattle.spec_labels.specs.Labels.{plain_label};
ghost use Rattle.spec_state.specs.Headings.{is_heading_block};
ghost use Rattle.spec_cast.specs.Places.{begins_speech};
ghost use Rattle.spec_cast.specs.Said.{last_label};
ghost use Rattle.sp_contents.specs.Sheets.{AreInTurn};
ghost use Rattle.sp_contents.specs.Speeches.{block_said, first_label, is_first, said_by, said_from, speech_sheets, walk_start, walked};

use crate::heading_sheets::sheet_of;
use sp_blocks::{Kind, PlacedBlock, is_speech_block};
use sp_cast::Said;
use sp_gap::GapList;
use sp_labels::Label;
use sp_layout::speaker_name;
use sp_locks::Sheet;
use sp_text::Lines;
use spec_pages::{RowKind, Shape};
use std::alloc::{AllocError, Global};
use std::marker::Model;

/// How many headings, and how many speeches and pairs, stand before a place, and whether the block before it may be the
/// first speech of a pair.
#[derive(Drop)]
struct Walk {
    headings: usize,
    speeches: usize,
    opened: bool,
}

impl Model for Walk {
    ghost use Rattle.sp_contents.specs.Speeches.{Walk as WalkOf};

    ghost Value = { WalkOf };

    ghost view = { λ w. record { headings = w.headings; speeches = w.speeches; opened = w.opened } };
}

/// Whether a speech or a pair begins with this row.
fn begins_speech(shape: &Shape) -> bool
    ensures { result ≡ begins_speech shape.now }
{
    matches!(shape.kind, RowKind::Cue | RowKind::Dual) && shape.index == 0
}

/// A copy of a label; the label 0 where there is none.
fn copied(alloc: Global, label: Option<&Label>) -> Result<Label, AllocError>
    ensures { IfOk result (λ copy. copy ≡ unwrap_or (option_copied label.entry) (plain_label 0)) }
{
    match label {
        Some(label) => label.copy(alloc),
        None => Ok(Label {
            number: 0,
            path: Vec::new(alloc),
        }),
    }
}

/// The first label of the sheet with a row.
fn first_label(alloc: Global, sheets: &[Sheet], row: usize) -> Result<Label, AllocError>
    requires { AreInTurn sheets.now }
    ensures { IfOk result (λ label. label ≡ first_label sheets.now row) }
{
    match sheet_of(sheets, row) {
        Some(sheet) => copied(alloc, Some(&sheet.first)),
        None => copied(alloc, None),
    }
}

/// The first labels of the sheets on which speeches and pairs begin.
pub fn speech_sheets(
    alloc: Global,
    sheets: &[Sheet],
    shapes: &GapList<Shape>,
) -> Result<Vec<Label>, AllocError>
    requires { AreInTurn sheets.now }
    ensures { IfOk result (λ labels. labels.items ≡ speech_sheets sheets.now 0 shapes.now.items) }
{
    let mut labels = Vec::new(alloc);
    for row in 0..shapes.len() {
        if begins_speech(shapes.at(row)) {
            labels.push(first_label(alloc, sheets, row)?)?;
        }
    }
    Ok(labels)
}

fn is_heading(placed: &PlacedBlock<'_>) -> bool
    ensures { result ≡ is_heading_block placed.now }
{
    let block = placed.block;
    matches!(block.kind, Kind::Heading)
}

/// Whether a block is a speech that isn't the second of a pair.
fn is_first(walk: &Walk, placed: &PlacedBlock<'_>) -> bool
    ensures { result ≡ is_first walk.now placed.now }
{
    let block = placed.block;
    is_speech_block(placed) && !(walk.opened && block.caret)
}

fn may_open(placed: &PlacedBlock<'_>) -> bool
    ensures { result ≡ (is_speech_block placed.now && not placed.now.block.caret) }
{
    let block = placed.block;
    is_speech_block(placed) && !block.caret
}

fn one_more(count: usize, more: bool) -> usize
    requires { count < 2 ^ 63 }
    ensures { result ≡ (if more then count + 1 else count) }
{
    if more { count + 1 } else { count }
}

/// The walk behind a block.
fn walked(walk: &Walk, placed: &PlacedBlock<'_>) -> Walk
    requires headings { walk.now.headings < 2 ^ 63 }
    requires speeches { walk.now.speeches < 2 ^ 63 }
    ensures { result ≡ walked walk.now placed.now }
{
    Walk {
        headings: one_more(walk.headings, is_heading(placed)),
        speeches: one_more(walk.speeches, is_first(walk, placed)),
        opened: may_open(placed),
    }
}

/// The last of so many labels.
fn last_label(labels: &[Label], count: usize) -> Option<&Label>
    ensures { option_copied result ≡ last_label labels.now count }
{
    if count == 0 {
        None
    } else {
        labels.get(count - 1)
    }
}

fn copied_label(alloc: Global, label: Option<&Label>) -> Result<Option<Label>, AllocError>
    ensures { IfOk result (λ copy. copy ≡ option_copied label.entry) }
{
    match label {
        Some(label) => Ok(Some(label.copy(alloc)?)),
        None => Ok(None),
    }
}

/// A speech behind so many headings and sheets, its own among them.
fn said_by(
    alloc: Global,
    lines: &Lines,
    scenes: &[Label],
    sheets: &[Label],
    walk: &Walk,
    placed: &PlacedBlock<'_>,
) -> Result<Said, AllocError>
    requires { PlacedLies (line_texts lines.now.lines) placed.now }
    ensures { IfOk result (λ said.
        said ≡ said_by scenes.now sheets.now (line_texts lines.now.lines) walk.now placed.now) }
{
    Ok(Said {
        name: speaker_name(alloc, lines, placed)?,
        scene: copied_label(alloc, last_label(scenes, walk.headings))?,
        sheet: copied(alloc, last_label(sheets, walk.speeches))?,
    })
}

/// Adds a block that is a speech.
fn add_block(
    alloc: Global,
    said: &mut Vec<Said>,
    lines: &Lines,
    scenes: &[Label],
    sheets: &[Label],
    walk: &Walk,
    placed: &PlacedBlock<'_>,
) -> Result<(), AllocError>
    requires { PlacedLies (line_texts lines.now.lines) placed.now }
    ensures { OnOk result (said.new.items ≡ said.old.items ++ block_said scenes.now sheets.now
        (line_texts lines.now.lines) walk.now placed.now) }
{
    if is_speech_block(placed) {
        said.push(said_by(alloc, lines, scenes, sheets, walk, placed)?)?;
    }
    Ok(())
}

/// The speeches among blocks, by the labels of their headings and of the sheets on which they begin.
pub fn said_among(
    alloc: Global,
    lines: &Lines,
    scenes: &[Label],
    sheets: &[Label],
    blocks: &[PlacedBlock<'_>],
) -> Result<Vec<Said>, AllocError>
    requires { All (PlacedLies (line_texts lines.now.lines)) blocks.now }
    ensures { IfOk result (λ said.
        said.items ≡ said_from scenes.now sheets.now (line_texts lines.now.lines) walk_start blocks.now) }
{
    let mut said = Vec::new(alloc);
    let mut walk = Walk {
        headings: 0,
        speeches: 0,
        opened: false,
    };
    for placed in blocks {
        walk = walked(&walk, placed);
        add_block(alloc, &mut said, lines, scenes, sheets, &walk, placed)?;
    }
    Ok(said)
}
