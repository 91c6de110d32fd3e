//! What a packet asks of each sheet with labels.
ghost use Rattle.std.specs.Prelude.{◌≡◌, ◌+◌, ◌++◌, ◌<◌, ◌≤◌, true, All, AllPairs, IfOk, OnOk, drop, is_some, length, map, slice_index_or};
ghost use Rattle.std.specs.List.{prefix_len};
ghost use Rattle.spec_labels.specs.PageRecords.{SheetOf, record_starts};
ghost use Rattle.spec_state.specs.StateSheets.{keys_in};
ghost use Rattle.spec_locked_pages.specs.Segments.{records_in};
ghost use Rattle.spec_packet.specs.SheetFacts.{laid_facts};
ghost use Rattle.spec_packet.specs.StatePackets.{laid_of};
ghost use Rattle.sp_packet.specs.Runs.{LieWithin, empty_run, facts_by, starts_before};

use crate::cue::{Places, cue_places};
use sp_gap::GapList;
use sp_locks::Sheet;
use sp_sheets::StateView;
use sp_state::Script;
use spec_pages::Shape;
use std::alloc::{AllocError, Global};
use std::marker::Model;

/// What a packet asks of a sheet with labels (docs/RULES.md, "Packets").
#[derive(Drop)]
pub struct SheetFacts {
    /// The places of its first and last record.
    pub records: Places,
    /// The number of pages of its segment, 0 where it is omitted.
    pub pages: usize,
    /// Where its first row goes on with a speech, the places of the records that the cue above it comes from.
    pub cue: Option<Places>,
}

impl Model for SheetFacts {
    ghost use Rattle.spec_packet.specs.SheetFacts.{SheetFactsOf};

    ghost Value = { SheetFactsOf };

    ghost view = { λ f. record { records = f.records; pages = f.pages; cue = f.cue } };
}

/// The facts of the sheets with labels of a script whose pages are locked, in print order (docs/RULES.md, "Packets"). Each
/// sheet and each record is looked at once, and each row of a cue once for each sheet that repeats it. `AllocError` comes
/// for want of memory alone.
pub fn sheet_facts(alloc: Global, script: &Script) -> Result<Vec<SheetFacts>, AllocError>
    requires { is_some (script.now).pages ≡ true }
    ensures facts { IfOk result (λ facts. facts.items ≡ laid_facts (laid_of script.now)) }
    ensures within { IfOk result (λ facts. All (LieWithin (length (records_in script.now))) facts.items) }
{
    let starts = script.page_starts(alloc)?;
    facts_of(alloc, &script.view(), &starts)
}

/// Where the rows of a record begin, or the end of the rows behind the last record.
fn start_or_end(starts: &[usize], rows: usize, index: usize) -> usize
    ensures { result ≡ slice_index_or starts.now index rows }
{
    match starts.get(index) {
        Some(start) => *start,
        None => rows,
    }
}

/// How many records from this one on have no rows.
fn empty_run(starts: &[usize], rows: usize, from: usize) -> usize
    requires { from ≤ length starts.now }
    ensures value { result ≡ empty_run rows (drop from starts.now) }
    ensures within { from + result ≤ length starts.now }
{
    for i in from..starts.len() {
        if start_or_end(starts, rows, i + 1) > starts[i] {
            return i - from;
        }
    }
    starts.len() - from
}

/// How many of the first sheets begin before a row.
fn sheets_before(sheets: &[Sheet], row: usize) -> usize
    ensures value { result ≡ prefix_len (starts_before row) sheets.now }
    ensures within { result ≤ length sheets.now }
{
    sheets.iter().take_while(|sheet| sheet.start < row).count()
}

/// Adds the facts of the pages of the record at a place.
fn add_pages(
    facts: &mut Vec<SheetFacts>,
    starts: &[usize],
    shapes: &GapList<Shape>,
    place: usize,
    pages: &[Sheet],
) -> Result<(), AllocError>
    requires order { AllPairs (λ one other. one ≤ other) starts.now }
    requires inside { All (λ (sheet : SheetOf). sheet.start < length shapes.now.items) pages.now }
    ensures { OnOk result (facts.new.items ≡ facts.old.items
        ++ map (facts_by starts.now shapes.now.items place (length pages.now)) pages.now) }
{
    for page in pages {
        facts.push(SheetFacts {
            records: Places {
                first: place,
                last: place,
            },
            pages: pages.len(),
            cue: cue_places(starts, shapes, page.start),
        })?;
    }
    Ok(())
}

/// The facts of the sheets with labels, by the first rows of records.
fn facts_of(
    alloc: Global,
    view: &StateView<'_>,
    starts: &[usize],
) -> Result<Vec<SheetFacts>, AllocError>
    requires locked { is_some (view.now).pages ≡ true }
    requires starts { starts.now ≡ record_starts (view.now).lines (keys_in view.now) (records_in view.now) }
    ensures facts { IfOk result (λ facts. facts.items ≡ laid_facts (laid_of view.now)) }
    ensures within { IfOk result (λ facts. All (LieWithin (length (records_in view.now))) facts.items) }
{
    let sheets = view.body_sheets();
    let shapes = view.shapes();
    let rows = shapes.len();
    let mut facts = Vec::new(alloc);
    let mut index = 0;
    let mut sheet = 0;
    while index < starts.len() {
        let run = empty_run(starts, rows, index);
        if run > 0 {
            facts.push(SheetFacts {
                records: Places {
                    first: index,
                    last: index + (run - 1),
                },
                pages: 0,
                cue: None,
            })?;
            index += run;
            sheet += 1;
        } else {
            let pages = sheets_before(&sheets[sheet..], start_or_end(starts, rows, index + 1));
            add_pages(
                &mut facts,
                starts,
                shapes,
                index,
                &sheets[sheet..sheet + pages],
            )?;
            index += 1;
            sheet += pages;
        }
    }
    Ok(facts)
}
