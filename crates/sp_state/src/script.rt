//! A state and its sheets.
ghost use Rattle.std.specs.Prelude.{◌≡◌, ◌≤◌, Some, length, slice_get, IfErr, IfSome, IfNone, IfOk, OnOk, OnErr};
ghost use Rattle.spec_text.specs.Lines.{line_texts, read_lines};
ghost use Rattle.spec_text.specs.Edits.{replacement_of};
ghost use Rattle.spec_text.specs.Ranges.{range_of};
ghost use Rattle.spec_state.specs.State.{opened_state, text_of as state_text};
ghost use Rattle.spec_state.specs.Openings.{pages_locked, round_begun, scenes_locked};
ghost use Rattle.spec_machine.specs.Refusals.{pages_refusal, round_refusal, scenes_refusal};
ghost use Rattle.spec_locked_pages.specs.Segments.{pages_of};
ghost use Rattle.sp_text.specs.Changing.{Refuses, edit_of};
ghost use Rattle.spec_state.specs.Keeping.{IsWhole, records_of};
ghost use Rattle.sp_text.specs.Gap.{text_of};
ghost use Rattle.spec_state.specs.StateSheets.{body_sheets, sheets_of_state};
ghost use Rattle.sp_reread.specs.Cache.{texts_in, ReadsAtMostAll, ReadsAll};
ghost use Rattle.sp_exchange.specs.Reads.{IsRefused};
ghost use Rattle.sp_sheets.specs.Made.{IsMadeOf};
ghost use Rattle.sp_sheets.specs.Openings.{IsOpening};
ghost use Rattle.sp_text_entry.specs.Reads.{ReadsEdit, ReadsEditAtMost};
ghost use Rattle.sp_state.specs.Fills.{FillsEdit, FillsEditAtMost};
ghost use Rattle.sp_state.specs.Entries.{CanTurn, HoldsFew, HoldsWindow, IsSameEntry, Leads, done_range, turned_range, turned_state};
ghost use Rattle.sp_sheets.specs.States.{state_in};
ghost use Rattle.sp_sheets.specs.Pages.{FillsAll, FillsAtMostAll, locked_starts_in};
ghost use Rattle.sp_text_entry.specs.TextEntries.{edited_by, refusal_at};

use crate::editing::{edit_made, made_on, made_with_speakers, put_made, turn_made};
use crate::entry::{Entry, Unturned};
use crate::turning::PageStarts;
use sp_exchange::Text;
use sp_kit::Steps;
use sp_locks::Sheet;
use sp_print::PageView;
use sp_records::{OpeningFault, Records};
use sp_reflow::Pages;
use sp_sheets::{
    Made, StateView, lock_pages_made, lock_scenes_made, made_sheet, made_starts, made_title, make,
    next_round_made, sheet_count, title_count,
};
use sp_text::{Edit, EditFault, Lines};
use spec_pages::Paper;
use std::alloc::{AllocError, Global};
use std::marker::Model;

/// A script: its lines with their stanzas, its records, and what is made of them: the rows of its elements, its pages and its
/// sheets (docs/RULES.md, "The desk" and "Sheets"). Contracts see the state alone.
pub struct Script {
    text: Text,
    records: Records,
    made: Made,
    starts: PageStarts,
}

/// One call wherever it is dropped, so that no proof there follows each of its fields.
impl Drop for Script {
    fn drop(self) {
        let Script {
            text: _text,
            records: _records,
            made: _made,
            starts: _starts,
        } = self;
    }
}

impl Model for Script {
    ghost use Rattle.std.specs.Prelude.{◌≡◌, IfSome};
    ghost use Rattle.spec_state.specs.State.{State};
    ghost use Rattle.spec_state.specs.Keeping.{IsWhole};
    ghost use Rattle.sp_sheets.specs.States.{state_with};
    ghost use Rattle.spec_locked_pages.specs.Segments.{pages_of};
    ghost use Rattle.sp_sheets.specs.Firsts.{first_rows};
    ghost use Rattle.sp_sheets.specs.Made.{IsMadeOf};

    ghost Value = { State };

    ghost view = { λ s. state_with s.text s.records };

    ghost invariant = { λ s. IsWhole (state_with s.text s.records) × IsMadeOf (state_with s.text s.records) s.made
        × (s.starts.pages.starts ≡ pages_of (state_with s.text s.records))
        × IfSome s.starts.firsts (λ those. those.items ≡ first_rows (state_with s.text s.records)) };
}

/// Lines with their stanzas, and what is made of them with these records. Each stanza is read once, and each page filled once.
fn read_and_make<S: Steps>(
    alloc: Global,
    lines: Lines,
    records: &Records,
    steps: &mut S,
) -> Result<(Text, Made, Pages), AllocError>
    requires { IsWhole (state_in lines records.now) }
    ensures lines { IfOk result (λ it. it.0.lines ≡ lines) }
    ensures made { IfOk result (λ it. IsMadeOf (state_in lines records.now) it.1) }
    ensures pages { IfOk result (λ it. it.2.starts ≡ pages_of (state_in lines records.now)) }
    ensures reads { OnOk result (ReadsAll (texts_in lines) (S.reads steps.old) (S.reads steps.new)) }
    ensures at_most { ReadsAtMostAll (texts_in lines) (S.reads steps.old) (S.reads steps.new) }
    ensures fills { OnOk result (FillsAll (state_in lines records.now) (S.fills steps.old) (S.fills steps.new)) }
    ensures fills_at_most { FillsAtMostAll (state_in lines records.now) (S.fills steps.old) (S.fills steps.new) }
{
    let text = Text::new(alloc, lines, steps)?;
    let (made, pages) = make(alloc, &text, records, steps)?;
    Ok((text, made, pages))
}

/// Makes the index of ids where pages are locked, since page records are carried by it.
fn index_ids(lines: &mut Lines, records: &Records) -> Result<(), AllocError>
    ensures { lines.new ≡ lines.old }
{
    match records.pages {
        None => Ok(()),
        Some(_) => lines.make_index(),
    }
}

impl Script {
    /// The script of lines that were just read, without records. Each stanza is read once, and each page of the body
    /// filled once. `AllocError` comes for want of memory alone.
    pub fn new<S: Steps>(alloc: Global, lines: Lines, steps: &mut S) -> Result<Script, AllocError>
        requires read { lines.lines ≡ read_lines (line_texts lines.lines) }
        requires next { lines.next ≡ length lines.lines }
        ensures state { IfOk result (λ script. script ≡ opened_state (texts_in lines)) }
        ensures reads { OnOk result (ReadsAll (texts_in lines) (S.reads steps.old) (S.reads steps.new)) }
        ensures at_most { ReadsAtMostAll (texts_in lines) (S.reads steps.old) (S.reads steps.new) }
        ensures fills { OnOk result (FillsAll (opened_state (texts_in lines)) (S.fills steps.old) (S.fills steps.new)) }
        ensures fills_at_most { FillsAtMostAll (opened_state (texts_in lines)) (S.fills steps.old) (S.fills steps.new) }
    {
        let _count = lines.len();
        Script::open(alloc, lines, Records::none(), steps)
    }

    /// The script of these lines with these records. Each stanza is read once, and each page of the body filled once.
    /// `AllocError` comes for want of memory alone.
    pub fn open<S: Steps>(
        alloc: Global,
        lines: Lines,
        records: Records,
        steps: &mut S,
    ) -> Result<Script, AllocError>
        requires { IsWhole (state_in lines records) }
        ensures state { IfOk result (λ script. script ≡ state_in lines records) }
        ensures reads { OnOk result (ReadsAll (texts_in lines) (S.reads steps.old) (S.reads steps.new)) }
        ensures at_most { ReadsAtMostAll (texts_in lines) (S.reads steps.old) (S.reads steps.new) }
        ensures fills { OnOk result (FillsAll (state_in lines records) (S.fills steps.old) (S.fills steps.new)) }
        ensures fills_at_most { FillsAtMostAll (state_in lines records) (S.fills steps.old) (S.fills steps.new) }
    {
        let mut lines = lines;
        index_ids(&mut lines, &records)?;
        let (text, made, pages) = read_and_make(alloc, lines, &records, steps)?;
        Ok(Script {
            text,
            records,
            made,
            starts: PageStarts {
                pages,
                firsts: None,
            },
        })
    }

    /// Lends its state with what is made of it. Takes no memory.
    pub fn view(&self) -> StateView<'_>
        ensures { result ≡ self.now }
    {
        StateView::new(&self.text, &self.records, &self.made)
    }

    /// Lends its lines.
    pub fn lines(&self) -> &Lines
        ensures { text_of result.now ≡ state_text self.now }
    {
        self.text.lines()
    }

    /// Lends its round, its settings and its records.
    pub fn records(&self) -> &Records
        ensures { result.now ≡ records_of self.now }
    {
        &self.records
    }

    /// Lends the sheets of its body, by the places of their rows. The state keeps the rules of a state.
    pub fn body_sheets(&self) -> &[Sheet]
        ensures sheets { result.now ≡ body_sheets self.now }
        ensures whole { IsWhole self.now }
    {
        let numbered = &self.made.numbered;
        &numbered.sheets
    }

    /// The first rows of its page records; none where pages aren't locked (docs/RULES.md, "Page records"). `AllocError` comes
    /// for want of memory alone.
    pub fn page_starts(&self, alloc: Global) -> Result<Vec<usize>, AllocError>
        ensures { IfOk result (λ starts. starts.items ≡ locked_starts_in self.now) }
    {
        let lines = self.text.lines();
        made_starts(alloc, lines, &self.records, &self.made)
    }

    /// How many sheets it has, those of its title page counted. Takes no memory.
    pub fn sheets(&self) -> usize
        ensures { result ≡ length (sheets_of_state self.now) }
    {
        sheet_count(&self.made)
    }

    /// Lends the sheet at a place; None where there are no more than that many. Takes no memory.
    pub fn sheet(&self, i: usize) -> Option<PageView<'_>>
        ensures some { IfSome result (λ page. slice_get (sheets_of_state self.now) i ≡ Some page) }
        ensures none { IfNone result (length (sheets_of_state self.now) ≤ i) }
    {
        let lines = self.text.lines();
        let count = title_count(&self.made);
        if i < count {
            return Some(made_title(lines, &self.made, i));
        }
        made_sheet(lines, &self.made, i - count)
    }

    /// Makes an edit, and answers the entry that undoes it. Each stanza of its window is read once, the part of the layout that
    /// it changes is laid out anew, and each page of its page window is filled once (docs/RULES.md, "Windows"); sheets are made
    /// those of the new state, and so are labels where a heading comes or goes. Where pages are locked their records are carried,
    /// and those whose rows differ get the round (docs/RULES.md, "Edits and records"). On a fault nothing is changed; NoMemory
    /// may come in place of any answer, and the others come as docs/RULES.md says in "Edits".
    pub fn edit<S: Steps>(
        &mut self,
        alloc: Global,
        edit: Edit,
        steps: &mut S,
    ) -> Result<Entry, EditFault>
        ensures whole { IsWhole self.old }
        ensures refuses { Refuses (refusal_at self.old edit) result }
        ensures state { OnOk result (self.new ≡ edited_by self.old edit) }
        ensures back { IfOk result (Leads self.new self.old) }
        ensures range { IfOk result (λ it. done_range it ≡ range_of (replacement_of self.old.lines (edit_of edit))) }
        ensures window { IfOk result (HoldsWindow (state_text self.old) (state_text self.new)
            (range_of (replacement_of self.old.lines (edit_of edit)))) }
        ensures few { IfOk result (HoldsFew (state_text self.new)) }
        ensures same { OnErr result (self.new ≡ self.old) }
        ensures reads { OnOk result (ReadsEdit self.old edit (S.reads steps.old) (S.reads steps.new)) }
        ensures at_most { ReadsEditAtMost self.old edit (S.reads steps.old) (S.reads steps.new) }
        ensures unread { IsRefused (refusal_at self.old edit) → S.reads steps.new ≡ S.reads steps.old }
        ensures fills { OnOk result (FillsEdit self.old edit (S.fills steps.old) (S.fills steps.new)) }
        ensures fills_at_most { FillsEditAtMost self.old edit (S.fills steps.old) (S.fills steps.new) }
        ensures unfilled { IsRefused (refusal_at self.old edit) → S.fills steps.new ≡ S.fills steps.old }
    {
        let entry = edit_made(
            alloc,
            &mut self.text,
            &mut self.records,
            &mut self.made,
            &mut self.starts,
            edit,
            steps,
        )?;
        Ok(entry)
    }

    /// Turns an entry, and answers the one that leads back: the entry of an edit undoes it, the one answered does it again, and so
    /// on. No stanza is read, nothing laid out and no page filled; sheets are made those of the new state, and so are labels where a
    /// heading comes or goes. On an error there was no memory, nothing is changed, and an entry of the same edit is handed back,
    /// which can be turned (docs/RULES.md, "The desk").
    pub fn turn(&mut self, alloc: Global, entry: Entry) -> Result<Entry, Unturned>
        requires can { CanTurn self.old entry }
        requires whole { IsWhole (turned_state self.old entry) }
        ensures whole { IsWhole self.old }
        ensures state { OnOk result (self.new ≡ turned_state self.old entry) }
        ensures back { IfOk result (Leads self.new self.old) }
        ensures range { IfOk result (λ it. done_range it ≡ turned_range entry) }
        ensures few { HoldsFew (state_text self.old) entry → IfOk result (HoldsFew (state_text self.new)) }
        ensures same { OnErr result (self.new ≡ self.old) }
        ensures handed_back { IfErr result (λ error. IsSameEntry error.back entry) }
        ensures again { IfErr result (λ error. CanTurn self.old error.back) }
    {
        let other = turn_made(
            alloc,
            &mut self.text,
            &mut self.records,
            &mut self.made,
            &mut self.starts,
            entry,
        )?;
        Ok(other)
    }

    /// Sets whether a cue says that its speaker goes on. No stanza is read and no page filled, and title sheets stay; rows and the
    /// sheets of the body are made anew. On an error there was no memory, and nothing is changed (docs/RULES.md, "The desk").
    pub fn set_speakers(&mut self, alloc: Global, on: bool) -> Result<(), AllocError>
        ensures state { OnOk result (self.new ≡ record self.old { speakers = on }) }
        ensures same { OnErr result (self.new ≡ self.old) }
    {
        let made = made_with_speakers(
            alloc,
            &self.text,
            &mut self.records,
            &self.starts.pages,
            &self.made.numbered.title_starts,
            on,
        )?;
        put_made(&mut self.made, &mut self.starts.firsts, made);
        Ok(())
    }

    /// Sets the paper. No stanza is read; each page on the new paper is filled once, and all else is made anew. On an error
    /// there was no memory, and nothing is changed (docs/RULES.md, "The desk").
    pub fn set_paper<S: Steps>(
        &mut self,
        alloc: Global,
        paper: Paper,
        steps: &mut S,
    ) -> Result<(), AllocError>
        ensures state { OnOk result (self.new ≡ record self.old { paper = paper }) }
        ensures same { OnErr result (self.new ≡ self.old) }
        ensures reads { S.reads steps.new ≡ S.reads steps.old }
        ensures fills { OnOk result (FillsAll (record self.old { paper = paper })
            (S.fills steps.old) (S.fills steps.new)) }
        ensures fills_at_most { FillsAtMostAll (record self.old { paper = paper })
            (S.fills steps.old) (S.fills steps.new) }
    {
        let (made, pages) = made_on(alloc, &self.text, &mut self.records, paper, steps)?;
        put_made(&mut self.made, &mut self.starts.firsts, made);
        self.starts.pages = pages;
        Ok(())
    }

    /// Locks scenes: each heading gets a record of the label that it has without records (docs/RULES.md, "Scene numbers").
    /// No stanza is read and no page filled. It is refused as docs/RULES.md says in "The desk"; NoMemory may come in place
    /// of any answer. On a fault nothing is changed.
    pub fn lock_scenes(&mut self, alloc: Global) -> Result<(), OpeningFault>
        ensures { IsOpening (scenes_refusal self.old) (scenes_locked self.old) self.old self.new result }
    {
        self.starts.firsts = None;
        lock_scenes_made(alloc, &self.text, &mut self.records, &mut self.made)
    }

    /// Locks pages: each page gets a record, and each heading that has none (docs/RULES.md, "Page records"). No stanza is
    /// read and no page filled, and the sheets stay as they are. It is refused as docs/RULES.md says in "The desk";
    /// NoMemory may come in place of any answer. On a fault nothing is changed.
    pub fn lock_pages(&mut self, alloc: Global) -> Result<(), OpeningFault>
        ensures { IsOpening (pages_refusal self.old) (pages_locked self.old) self.old self.new result }
    {
        self.starts.firsts = None;
        lock_pages_made(alloc, &mut self.text, &mut self.records, &self.made)
    }

    /// Begins the next round: where scenes are locked each heading that has no record gets one, and where pages are locked each
    /// page (docs/RULES.md, "Scene numbers" and "Page records"). No stanza is read and no page filled, and the sheets stay as
    /// they are. It is refused as docs/RULES.md says in "The desk"; NoMemory may come in place of any answer. On a fault
    /// nothing is changed.
    pub fn next_round(&mut self, alloc: Global) -> Result<(), OpeningFault>
        ensures { IsOpening (round_refusal self.old) (round_begun self.old) self.old self.new result }
    {
        self.starts.firsts = None;
        next_round_made(alloc, &self.text, &mut self.records, &self.made)
    }
}
