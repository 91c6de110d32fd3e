//! The headings of a script.
ghost use Rattle.std.specs.Prelude.{◌≡◌, ◌++◌, ◌==◌, None, if◌then◌else◌, length, map, filter, nat_le, option_and_then, All, IfOk, OnOk};
ghost use Rattle.std.specs.List.{list_all};
ghost use Rattle.spec_text.specs.Lines.{line_texts};
ghost use Rattle.spec_text.specs.Parts.{Parts};
ghost use Rattle.spec_script.specs.BlockParts.{BlockLies};
ghost use Rattle.spec_script.specs.Elements.{placed_at, PlacedLies};
ghost use Rattle.spec_script.specs.Spans.{text_in};
ghost use Rattle.spec_script.specs.Stanzas.{blocks_from};
ghost use Rattle.spec_labels.specs.LabelReading.{label_read};
ghost use Rattle.spec_state.specs.Headings.{as_scene_label, heading_of, is_heading_block, is_heading_kind, letter_limit};
ghost use Rattle.sp_sheets.specs.HeadingLines.{heading_line, heading_lines};

use sp_blocks::{Block, Kind, PlacedBlock, Stanza, parts_text};
use sp_labels::{Label, parse};
use sp_reread::Stanzas;
use sp_scenes::HeadingAt;
use sp_text::Lines;
use spec_text::Span;
use std::alloc::{AllocError, Global};

/// The greatest number of a written scene label.
const NUMBER_LIMIT: u32 = 999_999_999;

/// The most steps in a written scene label.
const STEP_COUNT_LIMIT: usize = 16;

/// The greatest step that is written as a letter.
const LETTER_LIMIT: u32 = 24;

/// Whether all steps are written as letters or dots.
fn are_letters(path: &[u32]) -> bool
    ensures { result ≡ list_all (λ step. nat_le step letter_limit) path.now }
{
    path.iter().all(|step| *step <= LETTER_LIMIT)
}

/// The label, where it may stand as a scene number in a script.
fn as_scene_label(label: Label) -> Option<Label>
    ensures { result ≡ as_scene_label label }
{
    if label.number <= NUMBER_LIMIT
        && label.path.len() <= STEP_COUNT_LIMIT
        && are_letters(&label.path)
    {
        Some(label)
    } else {
        None
    }
}

/// The scene number that parts of a line are, where they are one.
fn written_label(alloc: Global, text: &str, parts: &[Span]) -> Result<Option<Label>, AllocError>
    requires { Parts text.now 0 parts.now }
    ensures { IfOk result (λ label. label ≡ (if length parts.now == 0 then None
        else option_and_then as_scene_label (label_read (text_in text.now parts.now)))) }
{
    if parts.is_empty() {
        return Ok(None);
    }
    let text = parts_text(alloc, text, parts)?;
    scene_label(alloc, &text)
}

/// The scene number that a text spells.
fn scene_label(alloc: Global, text: &str) -> Result<Option<Label>, AllocError>
    ensures { IfOk result (λ label. label ≡ option_and_then as_scene_label (label_read text.now)) }
{
    match parse(alloc, text)? {
        Some(label) => Ok(as_scene_label(label)),
        None => Ok(None),
    }
}

/// A heading that is the block of a stanza which begins at a line, by the line's place and id and its written number
/// (docs/RULES.md, "Scene numbers"). `AllocError` comes for want of memory alone.
pub fn heading_at(
    alloc: Global,
    lines: &Lines,
    first: usize,
    block: &Block,
) -> Result<HeadingAt, AllocError>
    requires { BlockLies (line_texts lines.now.lines) first block.now }
    ensures { IfOk result (λ heading. heading ≡ heading_of lines.now.lines (placed_at first block.now)) }
{
    let place = first + block.first as usize;
    let line = lines.line(place);
    let parts = block.number.as_slice();
    let number = written_label(alloc, line.text, parts)?;
    Ok(HeadingAt {
        place: place as u64,
        id: line.id,
        written: !parts.is_empty(),
        number,
    })
}

fn is_heading(placed: &PlacedBlock<'_>) -> bool
    ensures { result ≡ is_heading_block placed.now }
{
    is_heading_block(placed.block)
}

/// The headings among blocks that lie in the lines, in order (docs/RULES.md, "Scene numbers"). `AllocError` comes for
/// want of memory alone.
pub fn headings_among(
    alloc: Global,
    lines: &Lines,
    blocks: &[PlacedBlock<'_>],
) -> Result<Vec<HeadingAt>, AllocError>
    requires { All (PlacedLies (line_texts lines.now.lines)) blocks.now }
    ensures { IfOk result (λ headings.
        headings.items ≡ map (heading_of lines.now.lines) (filter is_heading_block blocks.now)) }
{
    let mut headings = Vec::new(alloc);
    for placed in blocks {
        if is_heading(placed) {
            headings.push(heading_at(alloc, lines, placed.first, placed.block)?)?;
        }
    }
    Ok(headings)
}

/// Whether a block is a heading.
fn is_heading_block(block: &Block) -> bool
    ensures { result ≡ is_heading_kind (block.now).kind }
{
    matches!(block.kind, Kind::Heading)
}

/// The id of the line that a block begins with, in a stanza which begins at a line.
fn line_of_block(lines: &Lines, first: usize, block: &Block) -> u64
    requires { BlockLies (line_texts lines.now.lines) first block.now }
    ensures { result ≡ heading_line lines.now.lines (placed_at first block.now) }
{
    let line = lines.line(first + block.first as usize);
    line.id
}

/// Adds the lines of the headings of the stanza that begins at a place.
fn add_heading_lines(
    ids: &mut Vec<u64>,
    lines: &Lines,
    first: usize,
    stanza: &Stanza,
) -> Result<(), AllocError>
    requires { All (BlockLies (line_texts lines.now.lines) first) (stanza.now).blocks }
    ensures { OnOk result
        (ids.new.items ≡ ids.old.items ++ heading_lines lines.now.lines (map (placed_at first) (stanza.now).blocks)) }
{
    for block in &stanza.blocks {
        if is_heading_block(block) {
            ids.push(line_of_block(lines, first, block))?;
        }
    }
    Ok(())
}

/// The ids of the lines of the headings of stanzas that lie in the lines, in order: by them locked scenes have their labels
/// (docs/RULES.md, "Scene numbers"). `AllocError` comes for want of memory alone.
pub fn heading_lines(
    alloc: Global,
    lines: &Lines,
    stanzas: &Stanzas,
) -> Result<Vec<u64>, AllocError>
    requires { All (PlacedLies (line_texts lines.now.lines)) (blocks_from 0 stanzas.now.stanzas) }
    ensures { IfOk result (λ ids. ids.items ≡ heading_lines lines.now.lines (blocks_from 0 stanzas.now.stanzas)) }
{
    let mut ids = Vec::new(alloc);
    for i in 0..stanzas.len() {
        add_heading_lines(&mut ids, lines, stanzas.lines_before(i), stanzas.stanza(i))?;
    }
    Ok(ids)
}
