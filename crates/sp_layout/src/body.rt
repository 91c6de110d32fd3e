//! Elements one behind the other, and what is asked of their rows.
ghost use Rattle.std.specs.Prelude.{◌≡◌, ◌+◌, ◌-◌, ◌<◌, ◌≤◌, List, length, take, drop, slice_range, vec_len, vec_capacity, Option, All, IsOk, OnOk, OnErr};
ghost use Rattle.spec_text.specs.Limits.{line_count_limit};
ghost use Rattle.spec_text.specs.Lines.{LineState};
ghost use Rattle.spec_labels.specs.Labels.{LabelOf};
ghost use Rattle.spec_sheets.specs.Shown.{heading_count, is_heading_element, labels_past, shown_rows};
ghost use Rattle.sp_layout.specs.Bodies.{IsPageOf, StandsIn, headings_of, keyed_elements, marks_in, no_elements, row_count, shapes_in, with_element};
ghost use Rattle.sp_layout.specs.RowFacts.{StandsOn};
ghost use Rattle.sp_layout.specs.Exchanges.{AreRowsAlike, CanMove, rows_at, run_of, with_rows, with_rows_at, with_run};

use crate::moves::move_elements;
use crate::page::Page;
use crate::row_facts::RowFacts;
use crate::search::{last_start, starts_below};
use sp_columns::{Element, Row, begins_heading};
use sp_gap::{GapList, GapPlaces, exchange, make_room, reserve_more};
use sp_text::Lines;
use spec_labels::RowKey;
use spec_pages::Shape;
use std::alloc::{AllocError, Global};
use std::marker::Model;
use std::mem;

/// Whether the element is a heading: its first row is the first of one (docs/RULES.md, "Elements"). Takes no memory.
pub fn is_heading_element(element: &Element) -> bool
    ensures { result ≡ is_heading_element element.now }
{
    match element.rows.first() {
        Some(row) => begins_heading(&row.shape),
        None => false,
    }
}

/// How many headings the element is: one, or none.
fn headings_of(element: &Element) -> usize
    ensures value { result ≡ headings_of element.now }
    ensures few { result ≤ 1 }
{
    if is_heading_element(element) { 1 } else { 0 }
}

/// Elements in the order of a text (docs/RULES.md, "Elements"): those of its title page, or those of its body. Beside the
/// elements it keeps what page ends see of each row, each row's mark and its key, by the id of its line, and how many rows
/// and headings stand before each element. All this but the elements stands round a gap.
pub struct Body {
    elements: Vec<Element>,
    facts: RowFacts,
    row_starts: GapPlaces,
    heading_starts: GapPlaces,
}

/// One call wherever it is dropped, so that no proof there follows each of its fields.
impl Drop for Body {
    fn drop(self) {
        let Body {
            elements: _elements,
            facts: _facts,
            row_starts: _row_starts,
            heading_starts: _heading_starts,
        } = self;
    }
}

impl Model for Body {
    ghost use Rattle.std.specs.Prelude.{min, vec_capacity};
    ghost use Rattle.sp_layout.specs.Bodies.{BodyOf, IsBody};

    ghost Value = { BodyOf };

    ghost view = { λ b. record {
      elements = b.elements.items;
      keys = b.facts.facts.keys;
      room = min (vec_capacity b.elements) (min b.row_starts.room b.heading_starts.room);
      row_room = b.facts.room;
    } };

    ghost invariant = { λ b. IsBody (record {
      elements = b.elements.items;
      facts = b.facts.facts;
      row_starts = b.row_starts.items;
      heading_starts = b.heading_starts.items;
      rows = b.row_starts.end;
      headings = b.heading_starts.end;
    }) };
}

/// Makes room for one more element.
fn reserve_element(
    elements: &mut Vec<Element>,
    row_starts: &mut GapPlaces,
    heading_starts: &mut GapPlaces,
) -> Result<(), AllocError>
    ensures elements { elements.new.items ≡ elements.old.items }
    ensures row_starts { (row_starts.new.items ≡ row_starts.old.items)
        × (row_starts.new.end ≡ row_starts.old.end) }
    ensures heading_starts { (heading_starts.new.items ≡ heading_starts.old.items)
        × (heading_starts.new.end ≡ heading_starts.old.end) }
    ensures room { OnOk result ((vec_len elements.new < vec_capacity elements.new)
        × (length row_starts.new.items < row_starts.new.room)
        × (length heading_starts.new.items < heading_starts.new.room)) }
{
    reserve_more(elements, 1)?;
    row_starts.reserve(1)?;
    heading_starts.reserve(1)
}

/// Makes room for so many elements in all.
fn make_element_room(
    elements: &mut Vec<Element>,
    row_starts: &mut GapPlaces,
    heading_starts: &mut GapPlaces,
    total: usize,
) -> Result<(), AllocError>
    ensures elements { elements.new.items ≡ elements.old.items }
    ensures row_starts { (row_starts.new.items ≡ row_starts.old.items)
        × (row_starts.new.end ≡ row_starts.old.end) }
    ensures heading_starts { (heading_starts.new.items ≡ heading_starts.old.items)
        × (heading_starts.new.end ≡ heading_starts.old.end) }
    ensures ok { OnOk result ((total ≤ vec_capacity elements.new) × (total ≤ row_starts.new.room)
        × (total ≤ heading_starts.new.room)) }
    ensures room { (vec_capacity elements.old ≤ vec_capacity elements.new)
        × (row_starts.old.room ≤ row_starts.new.room) × (heading_starts.old.room ≤ heading_starts.new.room) }
    ensures succeeds { total ≤ vec_capacity elements.old → total ≤ row_starts.old.room
        → total ≤ heading_starts.old.room → IsOk result }
{
    make_room(elements, total)?;
    row_starts.make_room(total)?;
    heading_starts.make_room(total)
}

/// Exchanges the rows of an element for others.
fn swap_rows_at(elements: &mut Vec<Element>, place: usize, rows: &mut Vec<Row>)
    requires { place < vec_len elements.old }
    ensures elements { elements.new.items ≡ with_rows_at elements.old.items place rows.old.items }
    ensures rows { rows.new.items ≡ rows_at elements.old.items place }
    ensures room { vec_capacity elements.new ≡ vec_capacity elements.old }
{
    mem::swap(&mut elements[place].rows, rows);
}

/// The elements from one place to before another.
fn part_of(elements: &[Element], from: usize, to: usize) -> &[Element]
    requires order { from ≤ to }
    requires within { to ≤ length elements.now }
    ensures { result.now ≡ slice_range elements.now from to }
{
    &elements[from..to]
}

impl Body {
    /// Without elements.
    pub fn new(alloc: Global) -> Body
        ensures { keyed_elements result ≡ no_elements }
    {
        Body {
            elements: Vec::new(alloc),
            facts: RowFacts::new(alloc),
            row_starts: GapPlaces::new(alloc),
            heading_starts: GapPlaces::new(alloc),
        }
    }

    /// Adds an element, whose rows are of these lines. It may have no rows. Where there is no memory, nothing changes.
    pub fn push(&mut self, lines: &Lines, element: Element) -> Result<(), AllocError>
        requires low { length lines.now.lines ≤ line_count_limit }
        requires inside { StandsOn lines.now.lines element }
        ensures ok { OnOk result (keyed_elements self.new
            ≡ with_element lines.now.lines (keyed_elements self.old) element) }
        ensures err { OnErr result (keyed_elements self.new ≡ keyed_elements self.old) }
    {
        let _room = self.len();
        self.facts.reserve(element.rows.len())?;
        reserve_element(
            &mut self.elements,
            &mut self.row_starts,
            &mut self.heading_starts,
        )?;
        self.row_starts.push_reserved(element.rows.len());
        self.heading_starts.push_reserved(headings_of(&element));
        self.facts.push_rows(lines, &element);
        self.elements.push_reserved(element);
        Ok(())
    }

    /// How many elements there are.
    pub fn len(&self) -> usize
        ensures len { result ≡ length self.now.elements }
        ensures enough { length self.now.elements ≤ self.now.room }
        ensures row_enough { row_count self.now.elements ≤ self.now.row_room }
        ensures keys { length self.now.keys ≡ row_count self.now.elements }
        ensures small { self.now.room ≤ 9223372036854775807 }
        ensures row_small { self.now.row_room ≤ 9223372036854775807 }
    {
        let _rows = self.facts.len();
        let _row_starts = self.row_starts.len();
        let _heading_starts = self.heading_starts.len();
        self.elements.len()
    }

    /// How many rows there are.
    pub fn rows(&self) -> usize
        ensures { result ≡ row_count self.now.elements }
    {
        self.facts.len()
    }

    /// How many headings there are.
    pub fn headings(&self) -> usize
        ensures { result ≡ heading_count self.now.elements }
    {
        self.heading_starts.end()
    }

    /// What page ends see of each row.
    pub fn shapes(&self) -> &GapList<Shape>
        ensures { result.now.items ≡ shapes_in self.now.elements }
    {
        self.facts.shapes()
    }

    /// The mark of each row.
    pub fn marks(&self) -> &GapList<u8>
        ensures { result.now.items ≡ marks_in self.now.elements }
    {
        self.facts.marks()
    }

    /// The key of each row, by the id of its line.
    pub fn keys(&self) -> &GapList<RowKey>
        ensures keys { result.now.items ≡ self.now.keys }
        ensures len { length result.now.items ≡ row_count self.now.elements }
    {
        self.facts.keys()
    }

    /// The elements, those without rows among them.
    pub fn elements(&self) -> &[Element]
        ensures { result.now ≡ self.now.elements }
    {
        &self.elements
    }

    /// The elements by themselves.
    pub fn into_elements(self) -> Vec<Element>
        ensures { result.items ≡ self.elements }
    {
        let Body {
            elements,
            facts: _facts,
            row_starts: _row_starts,
            heading_starts: _heading_starts,
        } = self;
        elements
    }

    /// The row before which an element begins: how many rows stand before it.
    pub fn row_start(&self, element: usize) -> usize
        requires { element < length self.now.elements }
        ensures { result ≡ row_count (take element self.now.elements) }
    {
        self.row_starts.at(element)
    }

    /// How many headings stand before an element.
    pub fn heading_start(&self, element: usize) -> usize
        requires { element < length self.now.elements }
        ensures { result ≡ heading_count (take element self.now.elements) }
    {
        self.heading_starts.at(element)
    }

    /// The element in which a row stands.
    pub fn element_of_row(&self, row: usize) -> usize
        requires { row < row_count self.now.elements }
        ensures { StandsIn self.now.elements row result }
    {
        let _len = self.len();
        last_start(&self.row_starts, row)
    }

    /// How many rows stand before the element at a place, or how many there are.
    pub fn rows_before(&self, place: usize) -> usize
        requires { place ≤ length self.now.elements }
        ensures { result ≡ row_count (take place self.now.elements) }
    {
        if place < self.row_starts.len() {
            self.row_start(place)
        } else {
            self.rows()
        }
    }

    /// How many headings stand before the element at a place, or how many there are.
    pub fn headings_before(&self, place: usize) -> usize
        requires { place ≤ length self.now.elements }
        ensures { result ≡ heading_count (take place self.now.elements) }
    {
        if place < self.heading_starts.len() {
            self.heading_start(place)
        } else {
            self.headings()
        }
    }

    /// Makes room for so many elements and rows in all. No room becomes less. The error is want of memory alone.
    pub fn make_room(&mut self, elements: usize, rows: usize) -> Result<(), AllocError>
        ensures same { keyed_elements self.new ≡ keyed_elements self.old }
        ensures ok { OnOk result ((elements ≤ self.new.room) × (rows ≤ self.new.row_room)) }
        ensures room { (self.old.room ≤ self.new.room) × (self.old.row_room ≤ self.new.row_room) }
        ensures succeeds { elements ≤ self.old.room → rows ≤ self.old.row_room → IsOk result }
    {
        make_element_room(
            &mut self.elements,
            &mut self.row_starts,
            &mut self.heading_starts,
            elements,
        )?;
        self.facts.make_room(rows)
    }

    /// Makes room behind the gaps in what is kept of the places of elements, where there is memory for it: without it an exchange
    /// moves those of later ones.
    pub(crate) fn make_gaps(&mut self)
        ensures { self.new ≡ self.old }
    {
        self.row_starts.make_gap();
        self.heading_starts.make_gap();
    }

    /// Exchanges the elements from one place to before another for those of another body, in place, and makes the places of
    /// the later ones less and more by so much (docs/RULES.md, "Windows"). It copies no rows and takes no memory.
    pub fn exchange(&mut self, from: usize, to: usize, other: &mut Body, less: u64, more: u64)
        requires order { from ≤ to }
        requires within { to ≤ length self.old.elements }
        requires later { All (CanMove less more) (drop to self.old.elements) }
        requires room { length self.old.elements + length other.old.elements ≤ self.old.room }
        requires row_room { row_count self.old.elements + row_count other.old.elements ≤ self.old.row_room }
        requires back_room { to - from ≤ other.old.room }
        requires back_row_room { row_count (slice_range self.old.elements from to) ≤ other.old.row_room }
        ensures elements { keyed_elements self.new
            ≡ with_run (keyed_elements self.old) from to (keyed_elements other.old) less more }
        ensures taken { keyed_elements other.new ≡ run_of (keyed_elements self.old) from to }
        ensures room { (self.new.room ≡ self.old.room) × (self.new.row_room ≡ self.old.row_room) }
        ensures back_room { (other.new.room ≡ other.old.room) × (other.new.row_room ≡ other.old.row_room) }
    {
        let _room = self.len();
        let row = self.rows_before(from);
        let row_end = self.rows_before(to);
        let heading = self.headings_before(from);
        let heading_end = self.headings_before(to);
        let count = other.elements.len();
        let rows = other.facts.len();
        let headings = other.heading_starts.end();
        self.facts.exchange(row, row_end, &mut other.facts);
        self.row_starts
            .exchange(from, to, &mut other.row_starts, row, row_end, row + rows);
        self.heading_starts.exchange(
            from,
            to,
            &mut other.heading_starts,
            heading,
            heading_end,
            heading + headings,
        );
        exchange(&mut self.elements, from, to, &mut other.elements);
        move_elements(&mut self.elements, from + count, less, more);
    }

    /// Exchanges the rows of an element for others that are alike to page ends. It copies no rows and takes no memory.
    pub fn swap_rows(&mut self, place: usize, rows: &mut Vec<Row>)
        requires inside { place < length self.old.elements }
        requires alike { AreRowsAlike rows.old.items (rows_at self.old.elements place) }
        ensures elements { keyed_elements self.new ≡ with_rows (keyed_elements self.old) place rows.old.items }
        ensures rows { rows.new.items ≡ rows_at self.old.elements place }
        ensures room { (self.new.room ≡ self.old.room) × (self.new.row_room ≡ self.old.row_room) }
    {
        swap_rows_at(&mut self.elements, place, rows);
    }

    /// The elements that the rows from one to before another stand in.
    fn page_part(&self, from: usize, to: usize) -> Page<'_>
        requires order { from < to }
        requires within { to ≤ row_count self.now.elements }
        ensures { IsPageOf self.now.elements from to result }
    {
        let first = self.element_of_row(from);
        let end = starts_below(&self.row_starts, to);
        let start = self.row_start(first);
        let headings = self.heading_start(first);
        Page {
            elements: part_of(&self.elements, first, end),
            from: from - start,
            to: to - start,
            headings,
        }
    }

    /// The elements that the rows from one to before another stand in, as those of a page. What these rows show is told by
    /// these elements, by the lines of the text, and by the labels of headings without those of the headings before.
    pub fn page(&self, from: usize, to: usize) -> Page<'_>
        requires order { from < to }
        requires within { to ≤ row_count self.now.elements }
        ensures part { IsPageOf self.now.elements from to result }
        ensures shows { (lines : List LineState) (labels : Option (List LabelOf))
            → slice_range (shown_rows lines labels self.now.elements) from to
            ≡ slice_range (shown_rows lines (labels_past result.headings labels) result.elements) result.from result.to }
    {
        self.page_part(from, to)
    }
}
