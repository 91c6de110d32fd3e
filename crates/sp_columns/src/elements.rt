//! The rows of blocks by themselves and of dual dialogue.
ghost use Rattle.std.specs.Prelude.{◌≡◌, ◌≤◌, IfOk, OnOk};
ghost use Rattle.spec_text.specs.Lines.{line_texts};
ghost use Rattle.spec_script.specs.BlockParts.{BlockLies};
ghost use Rattle.spec_script.specs.Elements.{PlacedLies};
ghost use Rattle.spec_pages.specs.Rows.{block_alone, blocks_beside, dual_rows, is_title, number_cell, numbered_cells, single_rows, with_number};
ghost use Rattle.sp_columns.specs.CellLists.{cells_in};

use crate::columns::{first_lead, has_rows};
use crate::lines::block_rows;
use crate::speakers::tell_speakers;
use crate::{Cell, CellList, Row, join_rows, shape_rows, title_rows};
use sp_blocks::{Block, PlacedBlock, plain_runs};
use sp_text::Lines;
use spec_pages::{NUMBER_BEFORE, NUMBER_BEHIND, Side};
use spec_script::Kind;
use std::alloc::{AllocError, Global};

/// A heading's written number, at a column.
fn number_cell(alloc: Global, block: &Block, column: u32) -> Result<Cell, AllocError>
    ensures { IfOk result (λ cell. cell ≡ number_cell block.now column) }
{
    let runs = plain_runs(alloc, &block.number)?;
    Cell::number(alloc, column, block.first, runs)
}

/// Puts a written number before and behind the cells of its heading's first row.
fn number_cells(alloc: Global, block: &Block, cells: &mut CellList) -> Result<(), AllocError>
    ensures { OnOk result (cells_in cells.new ≡ numbered_cells block.now (cells_in cells.old)) }
{
    if block.number.is_empty() {
        return Ok(());
    }
    let mut numbered = cells.take(alloc)?;
    numbered.reserve_exact(2)?;
    numbered.insert(0, number_cell(alloc, block, NUMBER_BEFORE)?)?;
    numbered.push(number_cell(alloc, block, NUMBER_BEHIND)?)?;
    *cells = CellList::from_vec(alloc, numbered)?;
    Ok(())
}

/// Puts a written number into the first of the rows.
fn number_rows(alloc: Global, block: &Block, rows: &mut Vec<Row>) -> Result<(), AllocError>
    ensures { OnOk result (rows.new.items ≡ with_number block.now rows.old.items) }
{
    if rows.is_empty() {
        return Ok(());
    }
    let row = &mut rows[0];
    number_cells(alloc, block, &mut row.cells)
}

/// Whether blocks of a kind stand on the title page.
pub fn is_title(kind: Kind) -> bool
    ensures { result ≡ is_title kind }
{
    matches!(kind, Kind::Title)
}

/// The rows of a block by itself, with its written number.
fn block_alone(
    alloc: Global,
    lines: &Lines,
    first: usize,
    block: &Block,
) -> Result<Vec<Row>, AllocError>
    requires { BlockLies (line_texts lines.now.lines) first block.now }
    ensures { IfOk result (λ rows. rows.items ≡ block_alone lines.now.lines first block.now) }
{
    let mut rows = block_rows(alloc, lines, first, 0, Side::Alone, block)?;
    number_rows(alloc, block, &mut rows)?;
    shape_rows(&mut rows, first_lead(block.kind));
    Ok(rows)
}

/// The rows of a block by itself (docs/RULES.md, "Elements"), in order. `first` is the place of its stanza's first line,
/// from which the rows and cells count their lines. Where a speech is `continued`, its first row has `(CONT'D)` behind
/// its first cell, the cue. The rows of a title page are laid out as they are cut. The block lies in the lines, as those
/// that `read_stanza` gives there do. The error is want of memory alone.
pub fn single_rows(
    alloc: Global,
    lines: &Lines,
    first: usize,
    block: &Block,
    continued: bool,
) -> Result<Vec<Row>, AllocError>
    requires { BlockLies (line_texts lines.now.lines) first block.now }
    ensures { IfOk result (λ rows. rows.items ≡ single_rows lines.now.lines first block.now continued) }
{
    if !has_rows(block.kind) {
        return Ok(Vec::new(alloc));
    }
    let mut rows = block_alone(alloc, lines, first, block)?;
    if is_title(block.kind) {
        title_rows(&mut rows);
        return Ok(rows);
    }
    tell_speakers(alloc, lines, first, &[continued], &mut rows)?;
    Ok(rows)
}

/// The rows of two speeches side by side.
fn blocks_beside(
    alloc: Global,
    lines: &Lines,
    left: &PlacedBlock<'_>,
    right: &PlacedBlock<'_>,
) -> Result<Vec<Row>, AllocError>
    requires left { PlacedLies (line_texts lines.now.lines) left.now }
    requires right { PlacedLies (line_texts lines.now.lines) right.now }
    requires order { left.now.first ≤ right.now.first }
    ensures { IfOk result (λ rows. rows.items
        ≡ blocks_beside lines.now.lines left.now.first left.now.block right.now.first right.now.block) }
{
    let shift = (right.first - left.first) as u32;
    let mut rows = block_rows(alloc, lines, left.first, 0, Side::Left, left.block)?;
    let others = block_rows(alloc, lines, right.first, shift, Side::Right, right.block)?;
    join_rows(alloc, &mut rows, others)?;
    shape_rows(&mut rows, 1);
    Ok(rows)
}

/// The rows of two speeches as dual dialogue (docs/RULES.md, "Elements"), in order: the left one, from the first line of
/// whose stanza the rows and cells count their lines, and the right one of a stanza that begins no earlier. Where a
/// speech is continued, `(CONT'D)` stands behind its cue: behind the left one by `continued`, behind the right one by
/// `second_continued`. Both blocks lie in the lines, as those that `read_stanza` gives there do. The error is want of
/// memory alone.
pub fn dual_rows(
    alloc: Global,
    lines: &Lines,
    left: &PlacedBlock<'_>,
    continued: bool,
    right: &PlacedBlock<'_>,
    second_continued: bool,
) -> Result<Vec<Row>, AllocError>
    requires left { PlacedLies (line_texts lines.now.lines) left.now }
    requires right { PlacedLies (line_texts lines.now.lines) right.now }
    requires order { left.now.first ≤ right.now.first }
    ensures { IfOk result (λ rows. rows.items ≡ dual_rows lines.now.lines left.now.first left.now.block continued
        right.now.first right.now.block second_continued) }
{
    let mut rows = blocks_beside(alloc, lines, left, right)?;
    tell_speakers(
        alloc,
        lines,
        left.first,
        &[continued, second_continued],
        &mut rows,
    )?;
    Ok(rows)
}
