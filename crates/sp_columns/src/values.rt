//! Rows, their cells, and elements.
ghost use Rattle.std.specs.Prelude.{◌≡◌, [], false, IfOk};
ghost use Rattle.spec_pages.specs.Pages.{begins_heading};
ghost use Rattle.sp_measure.specs.RowRuns.{row_runs};
ghost use Rattle.sp_columns.specs.Contents.{is_fixed, is_number, runs_in};

use crate::cells::CellList;
use sp_measure::RowRuns;
use spec_pages::{RowKind, Shape};
use spec_script::Run;
use std::alloc::{AllocError, Global};
use std::marker::Model;
use std::slice;

/// What a cell shows of its line. Most cells show one part, which takes no memory of its own.
#[derive(Drop)]
enum Content {
    Nothing,
    Part(Run),
    Parts(Box<Vec<Run>>),
    Number(Box<Vec<Run>>),
    Continued,
}

/// The content of a cell that shows these parts of its line.
fn content_of(alloc: Global, runs: RowRuns) -> Result<Content, AllocError>
    ensures runs { IfOk result (λ content. runs_in content ≡ row_runs runs) }
    ensures fixed { IfOk result (λ content. is_fixed content ≡ false) }
    ensures number { IfOk result (λ content. is_number content ≡ false) }
{
    Ok(match runs {
        RowRuns::Nothing => Content::Nothing,
        RowRuns::One(run) => Content::Part(run),
        RowRuns::Many(runs) => Content::Parts(Box::new(alloc, runs)?),
    })
}

/// A cell (docs/RULES.md, "Elements"): the column that it begins at, its line, counted from the element's first, and what it
/// shows of that.
#[derive(Drop)]
pub struct Cell {
    pub column: u32,
    pub line: u32,
    content: Content,
}

impl Model for Cell {
    ghost use Rattle.spec_pages.specs.Rows.{Cell as CellValue};
    ghost use Rattle.sp_columns.specs.Contents.{is_fixed, is_number, runs_in};

    ghost Value = { CellValue };

    ghost view = { λ c. record { column = c.column; line = c.line; runs = runs_in c.content; fixed = is_fixed c.content; number = is_number c.content } };
}

impl Cell {
    ghost use Rattle.std.specs.Prelude.{[], true};

    /// A cell that begins at the column and shows these parts of its line, by places of bytes. The line is counted from the
    /// element's first. The error is want of memory alone.
    pub fn new(alloc: Global, column: u32, line: u32, runs: RowRuns) -> Result<Cell, AllocError>
        ensures { IfOk result (λ cell. cell
            ≡ record { column = column; line = line; runs = row_runs runs; fixed = false; number = false }) }
    {
        Ok(Cell {
            column,
            line,
            content: content_of(alloc, runs)?,
        })
    }

    /// A cell that begins at the column and shows a heading's written number, which these parts of its line are. The error is
    /// want of memory alone.
    pub fn number(alloc: Global, column: u32, line: u32, runs: Vec<Run>) -> Result<Cell, AllocError>
        ensures { IfOk result (λ cell. cell
            ≡ record { column = column; line = line; runs = runs.items; fixed = false; number = true }) }
    {
        Ok(Cell {
            column,
            line,
            content: Content::Number(Box::new(alloc, runs)?),
        })
    }

    /// A cell that begins at the column and shows `(CONT'D)` behind a cue of its line.
    pub fn continued(column: u32, line: u32) -> Cell
        ensures { result ≡ record { column = column; line = line; runs = []; fixed = true; number = false } }
    {
        Cell {
            column,
            line,
            content: Content::Continued,
        }
    }

    /// The parts of its line that the cell shows, by places of bytes. Takes no memory.
    pub fn runs(&self) -> &[Run]
        ensures { result.now ≡ self.now.runs }
    {
        match &self.content {
            Content::Nothing | Content::Continued => &[],
            Content::Part(run) => slice::from_ref(run),
            Content::Parts(runs) | Content::Number(runs) => runs.as_slice(),
        }
    }

    /// Whether the cell has no runs and the text `(CONT'D)`.
    pub fn is_fixed(&self) -> bool
        ensures { result ≡ self.now.fixed }
    {
        matches!(&self.content, Content::Continued)
    }

    /// Whether the cell is a heading's written number.
    pub fn is_number(&self) -> bool
        ensures { result ≡ self.now.number }
    {
        matches!(&self.content, Content::Number(_))
    }
}

/// A row of an element. Its key is a line, counted from the element's first, and the number of the row in that line.
#[derive(Drop)]
pub struct Row {
    pub line: u32,
    pub row: u32,
    /// The round in which the line was last changed; in dual dialogue the later one of its two lines.
    pub mark: u8,
    pub shape: Shape,
    /// In order of their columns.
    pub cells: CellList,
}

impl Model for Row {
    ghost use Rattle.spec_pages.specs.Rows.{Row as RowValue};
    ghost use Rattle.sp_columns.specs.CellLists.{cells_in};

    ghost Value = { RowValue };

    ghost view = { λ r. record { line = r.line; row = r.row; mark = r.mark; shape = r.shape; cells = cells_in r.cells } };
}

/// Whether a heading begins with this row.
pub fn begins_heading(shape: &Shape) -> bool
    ensures { result ≡ begins_heading shape.now }
{
    matches!(shape.kind, RowKind::Heading) && shape.index == 0
}

/// An element laid out: its rows, and the place of the line from which they count their lines.
#[derive(Drop)]
pub struct Element {
    pub first: u64,
    pub rows: Vec<Row>,
}

impl Model for Element {
    ghost use Rattle.spec_pages.specs.Rows.{ElementOf};

    ghost Value = { ElementOf };

    ghost view = { λ e. record { first = e.first; rows = e.rows.items } };
}
