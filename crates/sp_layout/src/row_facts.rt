//! What is asked of rows, in lists of its own beside the elements.
ghost use Rattle.std.specs.Prelude.{◌≡◌, ◌+◌, ◌-◌, ◌<◌, ◌≤◌, ◌++◌, length, IsOk, OnOk};
ghost use Rattle.spec_text.specs.Limits.{line_count_limit};
ghost use Rattle.spec_pages.specs.Rows.{shifted_row};
ghost use Rattle.spec_sheets.specs.Shown.{row_key};
ghost use Rattle.sp_layout.specs.RowFacts.{AreInStep, StandsOn, both_facts, facts_between, facts_of, no_facts, with_facts};

use sp_columns::{Element, Row};
use sp_gap::GapList;
use sp_text::Lines;
use spec_labels::RowKey;
use spec_pages::Shape;
use std::alloc::{AllocError, Global};
use std::marker::Model;

/// What is asked of rows, each list round a gap: what page ends see of each row, its mark, and its key, by the id of its line.
#[derive(Drop)]
pub struct RowFacts {
    shapes: GapList<Shape>,
    marks: GapList<u8>,
    keys: GapList<RowKey>,
}

impl Model for RowFacts {
    ghost use Rattle.std.specs.Prelude.{min};
    ghost use Rattle.sp_layout.specs.RowFacts.{AreInStep, RowFactsOf};

    ghost Value = { RowFactsOf };

    ghost view = { λ r. record {
      facts = record { shapes = r.shapes.items; marks = r.marks.items; keys = r.keys.items };
      room = min r.shapes.room (min r.marks.room r.keys.room);
    } };

    ghost invariant = { λ r. AreInStep (record {
      shapes = r.shapes.items;
      marks = r.marks.items;
      keys = r.keys.items;
    }) };
}

/// The key of a row of an element that begins at a line.
fn row_key(lines: &Lines, first: u64, row: &Row) -> RowKey
    requires low { length lines.now.lines ≤ line_count_limit }
    requires inside { first + row.now.line < length lines.now.lines }
    ensures { result ≡ row_key lines.now.lines (shifted_row first row.now) }
{
    let place = first + row.line as u64;
    RowKey {
        line: lines.line(place as usize).id,
        row: row.row,
    }
}

/// Adds what is asked of the rows of an element, where there is room.
fn add_rows(
    shapes: &mut GapList<Shape>,
    marks: &mut GapList<u8>,
    keys: &mut GapList<RowKey>,
    lines: &Lines,
    element: &Element,
)
    requires low { length lines.now.lines ≤ line_count_limit }
    requires inside { StandsOn lines.now.lines element.now }
    requires shapes { length shapes.old.items + length element.now.rows ≤ shapes.old.room }
    requires marks { length marks.old.items + length element.now.rows ≤ marks.old.room }
    requires keys { length keys.old.items + length element.now.rows ≤ keys.old.room }
    ensures shapes { shapes.new.items ≡ shapes.old.items ++ (facts_of lines.now.lines element.now).shapes }
    ensures marks { marks.new.items ≡ marks.old.items ++ (facts_of lines.now.lines element.now).marks }
    ensures keys { keys.new.items ≡ keys.old.items ++ (facts_of lines.now.lines element.now).keys }
{
    for row in &element.rows {
        shapes.push_reserved(row.shape);
        marks.push_reserved(row.mark);
        keys.push_reserved(row_key(lines, element.first, row));
    }
}

impl RowFacts {
    /// Of no rows.
    pub fn new(alloc: Global) -> RowFacts
        ensures { result.facts ≡ no_facts }
    {
        RowFacts {
            shapes: GapList::new(alloc),
            marks: GapList::new(alloc),
            keys: GapList::new(alloc),
        }
    }

    /// How many rows there are.
    pub fn len(&self) -> usize
        ensures len { result ≡ length self.now.facts.shapes }
        ensures in_step { AreInStep self.now.facts }
        ensures enough { length self.now.facts.shapes ≤ self.now.room }
        ensures small { self.now.room ≤ 9223372036854775807 }
    {
        let _marks = self.marks.len();
        let _keys = self.keys.len();
        self.shapes.len()
    }

    /// What page ends see of each row.
    pub fn shapes(&self) -> &GapList<Shape>
        ensures { result.now.items ≡ self.now.facts.shapes }
    {
        &self.shapes
    }

    /// The mark of each row.
    pub fn marks(&self) -> &GapList<u8>
        ensures { result.now.items ≡ self.now.facts.marks }
    {
        &self.marks
    }

    /// The key of each row.
    pub fn keys(&self) -> &GapList<RowKey>
        ensures { result.now.items ≡ self.now.facts.keys }
    {
        &self.keys
    }

    /// Makes room for so many rows more.
    pub fn reserve(&mut self, count: usize) -> Result<(), AllocError>
        ensures facts { self.new.facts ≡ self.old.facts }
        ensures room { OnOk result (length self.new.facts.shapes + count ≤ self.new.room) }
    {
        self.shapes.reserve(count)?;
        self.marks.reserve(count)?;
        self.keys.reserve(count)
    }

    /// Makes room for so many rows in all. No room becomes less. The error is want of memory alone.
    pub fn make_room(&mut self, total: usize) -> Result<(), AllocError>
        ensures facts { self.new.facts ≡ self.old.facts }
        ensures ok { OnOk result (total ≤ self.new.room) }
        ensures room { self.old.room ≤ self.new.room }
        ensures succeeds { total ≤ self.old.room → IsOk result }
    {
        self.shapes.make_room(total)?;
        self.marks.make_room(total)?;
        self.keys.make_room(total)
    }

    /// Adds what is asked of the rows of an element of these lines, where there is room.
    pub fn push_rows(&mut self, lines: &Lines, element: &Element)
        requires low { length lines.now.lines ≤ line_count_limit }
        requires inside { StandsOn lines.now.lines element.now }
        requires room { length self.old.facts.shapes + length element.now.rows ≤ self.old.room }
        ensures facts { self.new.facts ≡ both_facts self.old.facts (facts_of lines.now.lines element.now) }
    {
        add_rows(
            &mut self.shapes,
            &mut self.marks,
            &mut self.keys,
            lines,
            element,
        );
    }

    /// Exchanges what is asked of the rows from one place to before another for that of others, where there is room.
    pub fn exchange(&mut self, from: usize, to: usize, other: &mut RowFacts)
        requires order { from ≤ to }
        requires within { to ≤ length self.old.facts.shapes }
        requires room { length self.old.facts.shapes + length other.old.facts.shapes ≤ self.old.room }
        requires back_room { to - from ≤ other.old.room }
        ensures facts { self.new.facts ≡ with_facts self.old.facts from to other.old.facts }
        ensures taken { other.new.facts ≡ facts_between self.old.facts from to }
        ensures room { self.new.room ≡ self.old.room }
        ensures back_room { other.new.room ≡ other.old.room }
    {
        self.shapes.exchange(from, to, &mut other.shapes);
        self.marks.exchange(from, to, &mut other.marks);
        self.keys.exchange(from, to, &mut other.keys);
    }
}
