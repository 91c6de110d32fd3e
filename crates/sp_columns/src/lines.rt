//! The rows of a block's lines, before their places in their element are known.
ghost use Rattle.std.specs.Prelude.{◌≡◌, ◌+◌, ◌*◌, ◌^◌, ◌<◌, ◌≤◌, ◌++◌, length, IfOk, OnOk};
ghost use Rattle.spec_text.specs.Limits.{line_count_limit};
ghost use Rattle.spec_text.specs.Lines.{line_texts};
ghost use Rattle.spec_script.specs.BlockParts.{BlockLies, LineLies};
ghost use Rattle.spec_script.specs.Runs.{RunParts};
ghost use Rattle.spec_pages.specs.Pages.{is_dialogue};
ghost use Rattle.spec_pages.specs.Rows.{block_rows, line_context, line_row, own_lead, text_rows};

use crate::columns::{column_of, row_kind, width_of};
use crate::{Cell, CellList, Row, ends_sentence};
use sp_blocks::{Block, BlockLine};
use sp_measure::{WrapRow, wrap};
use sp_text::Lines;
use spec_pages::{RowKind, Shape, Side};
use spec_script::Kind;
use std::alloc::{AllocError, Global};
use std::marker::Model;

/// What the rows of a line have in common: the side and the kind of its block, the line's mark and text, and how many
/// lines behind the element's first the block's stanza begins.
#[derive(Drop)]
struct LineContext<'a> {
    side: Side,
    kind: Kind,
    mark: u8,
    text: &'a str,
    shift: u32,
}

impl<'a> Model for LineContext<'a> {
    ghost use Rattle.spec_pages.specs.Rows.{LineContext as LineContextValue};

    ghost Value = { LineContextValue };

    ghost view = { λ c. record { side = c.side; kind = c.kind; mark = c.mark; text = c.text.now; shift = c.shift } };
}

/// The context of a line of a block whose stanza begins at the line `first`.
fn line_context<'a>(
    lines: &'a Lines,
    first: usize,
    shift: u32,
    side: Side,
    kind: Kind,
    line: &BlockLine,
) -> LineContext<'a>
    requires lies { LineLies (line_texts lines.now.lines) first line.now }
    requires low { length lines.now.lines ≤ line_count_limit }
    ensures context { result ≡ line_context lines.now.lines first shift side kind line.now }
    ensures short { length result.text ≤ 4096 }
    ensures parts { RunParts result.text line.now.runs }
{
    let view = lines.line(first + line.offset as usize);
    LineContext {
        side,
        kind,
        mark: view.mark,
        text: view.text,
        shift,
    }
}

fn is_dialogue(kind: RowKind) -> bool
    ensures { result ≡ is_dialogue kind }
{
    matches!(kind, RowKind::Dialogue)
}

/// The lead of a row of a line by itself.
fn own_lead(line: &BlockLine, number: u32) -> u8
    ensures { result ≡ own_lead line.now number }
{
    if line.opens && number == 0 { 1 } else { 0 }
}

/// The row with this number of a line of a block.
fn line_row(
    alloc: Global,
    context: &LineContext<'_>,
    line: &BlockLine,
    number: u32,
    row: WrapRow,
) -> Result<Row, AllocError>
    requires fits { context.now.shift + line.now.offset < 2 ^ 32 }
    requires parts { RunParts context.now.text row.runs }
    ensures { IfOk result (λ r. r ≡ line_row context.now line.now number row) }
{
    let place = context.shift + line.offset;
    let kind = row_kind(context.kind, line.part);
    let sentence_end = is_dialogue(kind) && ends_sentence(context.text, row.runs.as_slice());
    let column = column_of(context.side, context.kind, line.part, row.width);
    let cell = Cell::new(alloc, column, place, row.runs)?;
    Ok(Row {
        line: place,
        row: number,
        mark: context.mark,
        shape: Shape {
            lead: own_lead(line, number),
            kind,
            index: 0,
            rest: 0,
            sentence_end,
        },
        cells: CellList::One(cell),
    })
}

/// Adds the rows of a line of a block.
fn add_rows(
    alloc: Global,
    rows: &mut Vec<Row>,
    context: &LineContext<'_>,
    line: &BlockLine,
) -> Result<(), AllocError>
    requires short { length context.now.text ≤ 4096 }
    requires parts { RunParts context.now.text line.now.runs }
    requires fits { context.now.shift + line.now.offset < 2 ^ 32 }
    ensures items { OnOk result (rows.new.items ≡ rows.old.items ++ text_rows context.now line.now) }
    ensures few { OnOk result (length rows.new.items ≤ length rows.old.items + 4096) }
{
    let width = width_of(context.side, context.kind, line.part);
    let wrapped = wrap(alloc, context.text, &line.runs, width)?;
    rows.reserve(wrapped.len())?;
    let mut number = 0;
    for row in wrapped {
        rows.push(line_row(alloc, context, line, number, row)?)?;
        number += 1;
    }
    Ok(())
}

/// The rows of a block whose stanza begins at the line `first`, `shift` lines behind the element's first.
pub fn block_rows(
    alloc: Global,
    lines: &Lines,
    first: usize,
    shift: u32,
    side: Side,
    block: &Block,
) -> Result<Vec<Row>, AllocError>
    requires lies { BlockLies (line_texts lines.now.lines) first block.now }
    requires shift { shift ≤ first }
    ensures rows { IfOk result (λ rows. rows.items ≡ block_rows lines.now.lines first shift side block.now) }
    ensures few { IfOk result (λ rows. length rows.items ≤ 4096 * line_count_limit) }
{
    let mut rows = Vec::with_capacity(alloc, block.lines.len())?;
    for line in &block.lines {
        let context = line_context(lines, first, shift, side, block.kind, line);
        add_rows(alloc, &mut rows, &context, line)?;
    }
    // Most of what a script takes is its rows.
    rows.shrink_to_fit();
    Ok(rows)
}
