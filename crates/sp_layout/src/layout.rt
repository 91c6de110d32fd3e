//! The elements of a text, laid out.
ghost use Rattle.std.specs.Prelude.{◌≡◌, ◌+◌, ◌<◌, ◌≤◌, length, true, All, IfOk, OnOk};
ghost use Rattle.spec_text.specs.Lines.{IsText, line_texts};
ghost use Rattle.spec_script.specs.Elements.{is_dual, PlacedLies, PlacesRise};
ghost use Rattle.spec_script.specs.Stanzas.{blocks_of};
ghost use Rattle.spec_sheets.specs.Layout.{is_page_break};
ghost use Rattle.sp_text.specs.Gap.{text_of};
ghost use Rattle.sp_layout.specs.LaidOut.{AddsElement, IsLayoutOf, layout_behind, spoken_beside, spoken_block, with_laid};
ghost use Rattle.sp_layout.specs.Speaking.{speakers_before};

use crate::speakers::Speakers;
use crate::{Body, Element};
use sp_blocks::{PlacedBlock, is_speech_kind};
use sp_columns::{dual_rows, is_title, single_rows};
use sp_text::Lines;
use spec_pages::Side;
use spec_script::Kind;
use std::alloc::{AllocError, Global};
use std::marker::Model;

/// A text laid out (docs/RULES.md, "Elements" and "Pages"): the elements of its title page, those of its body, and which of
/// these are page breaks.
#[derive(Drop)]
pub struct Layout {
    pub titles: Body,
    pub body: Body,
    pub breaks: Vec<usize>,
}

impl Model for Layout {
    ghost use Rattle.sp_layout.specs.Bodies.{keyed_elements};
    ghost use Rattle.sp_layout.specs.LaidOut.{LayoutOf};

    ghost Value = { LayoutOf };

    ghost view = { λ l. record { titles = keyed_elements l.titles; body = keyed_elements l.body; breaks = l.breaks.items } };
}

fn is_page_break(kind: Kind) -> bool
    ensures { result ≡ is_page_break kind }
{
    matches!(kind, Kind::PageBreak)
}

/// Whether two neighbours are dual dialogue.
fn is_dual(left: &PlacedBlock<'_>, right: &PlacedBlock<'_>) -> bool
    ensures { result ≡ is_dual left.now right.now }
{
    let left = left.block;
    let right = right.block;
    is_speech_kind(left.kind) && !left.caret && is_speech_kind(right.kind) && right.caret
}

/// Adds a block by itself.
fn add_block(
    alloc: Global,
    layout: &mut Layout,
    lines: &Lines,
    placed: &PlacedBlock<'_>,
    continued: bool,
) -> Result<(), AllocError>
    requires { PlacedLies (line_texts lines.now.lines) placed.now }
    ensures { OnOk result (layout.new ≡ with_laid lines.now.lines layout.old (spoken_block placed.now continued)) }
{
    let block = placed.block;
    let element = Element {
        first: placed.first as u64,
        rows: single_rows(alloc, lines, placed.first, block, continued)?,
    };
    if is_title(block.kind) {
        return layout.titles.push(lines, element);
    }
    if is_page_break(block.kind) {
        layout.breaks.push(layout.body.len())?;
    }
    layout.body.push(lines, element)
}

/// Adds two speeches as dual dialogue.
fn add_pair(
    alloc: Global,
    layout: &mut Layout,
    lines: &Lines,
    left: &PlacedBlock<'_>,
    continued: bool,
    right: &PlacedBlock<'_>,
    second_continued: bool,
) -> Result<(), AllocError>
    requires left { PlacedLies (line_texts lines.now.lines) left.now }
    requires right { PlacedLies (line_texts lines.now.lines) right.now }
    requires order { left.now.first ≤ right.now.first }
    requires dual { is_dual left.now right.now ≡ true }
    ensures { OnOk result (layout.new ≡ with_laid lines.now.lines layout.old
        (spoken_beside left.now continued right.now second_continued)) }
{
    let rows = dual_rows(alloc, lines, left, continued, right, second_continued)?;
    let element = Element {
        first: left.first as u64,
        rows,
    };
    layout.body.push(lines, element)
}

/// Adds the element that begins with the block at a place, and gives the place behind it.
fn add_element(
    alloc: Global,
    layout: &mut Layout,
    speakers: &mut Speakers,
    lines: &Lines,
    blocks: &[PlacedBlock<'_>],
    place: usize,
) -> Result<usize, AllocError>
    requires inside { place < length blocks.now }
    requires lie { All (PlacedLies (line_texts lines.now.lines)) blocks.now }
    requires rise { PlacesRise 0 blocks.now }
    ensures { IfOk result
        (AddsElement lines.now.lines blocks.now place layout.old speakers.old layout.new speakers.new) }
{
    let first = &blocks[place];
    if place + 1 < blocks.len() && is_dual(first, &blocks[place + 1]) {
        let second = &blocks[place + 1];
        let continued = speakers.pass(alloc, lines, Side::Left, first)?;
        let second_continued = speakers.pass(alloc, lines, Side::Right, second)?;
        add_pair(
            alloc,
            layout,
            lines,
            first,
            continued,
            second,
            second_continued,
        )?;
        return Ok(place + 2);
    }
    let continued = speakers.pass(alloc, lines, Side::Alone, first)?;
    add_block(alloc, layout, lines, first, continued)?;
    Ok(place + 1)
}

/// Lays out blocks of these lines that follow one another (docs/RULES.md, "Elements" and "Pages"), behind speakers. Each
/// block lies in the lines, as those that `read_stanza` gives there do, and they stand in order. The error is want of
/// memory alone.
pub fn lay_out_behind(
    alloc: Global,
    lines: &Lines,
    blocks: &[PlacedBlock<'_>],
    speakers: Speakers,
) -> Result<Layout, AllocError>
    requires lie { All (PlacedLies (line_texts lines.now.lines)) blocks.now }
    requires rise { PlacesRise 0 blocks.now }
    ensures { IfOk result (λ layout. layout ≡ layout_behind lines.now.lines speakers blocks.now) }
{
    let mut layout = Layout {
        titles: Body::new(alloc),
        body: Body::new(alloc),
        breaks: Vec::new(alloc),
    };
    let mut speakers = speakers;
    let mut place = 0;
    while place < blocks.len() {
        place = add_element(alloc, &mut layout, &mut speakers, lines, blocks, place)?;
    }
    Ok(layout)
}

/// Lays out the blocks of a text, by whether speakers who go on are told. The error is want of memory alone.
fn lay_out(
    alloc: Global,
    lines: &Lines,
    blocks: &[PlacedBlock<'_>],
    speakers: bool,
) -> Result<Layout, AllocError>
    requires lie { All (PlacedLies (line_texts lines.now.lines)) blocks.now }
    requires rise { PlacesRise 0 blocks.now }
    ensures { IfOk result (λ layout. layout ≡ layout_behind lines.now.lines (speakers_before speakers) blocks.now) }
{
    lay_out_behind(alloc, lines, blocks, Speakers::new(speakers))
}

/// Lays out a text, of which these are the blocks, by whether speakers who go on are told. The error is want of memory
/// alone.
pub fn lay_out_text(
    alloc: Global,
    lines: &Lines,
    blocks: &[PlacedBlock<'_>],
    speakers: bool,
) -> Result<Layout, AllocError>
    requires { blocks.now ≡ blocks_of (line_texts lines.now.lines) }
    ensures layout { IfOk result (IsLayoutOf lines.now.lines speakers) }
    ensures text { OnOk result (IsText (text_of lines.now)) }
{
    let _count = lines.len();
    lay_out(alloc, lines, blocks, speakers)
}
