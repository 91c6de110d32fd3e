//! A script with the journal of its edits.
ghost use Rattle.std.specs.Prelude.{◌≡◌, ℕ, ◌≤◌, drop, false, Some, length, slice_get, IfOk, IfNone, IfSome, OnOk};
ghost use Rattle.spec_text.specs.Lines.{line_texts, read_lines};
ghost use Rattle.spec_state.specs.State.{opened_state, text_of};
ghost use Rattle.spec_state.specs.Keeping.{IsWhole, records_of};
ghost use Rattle.spec_state.specs.StateSheets.{sheets_of_state};
ghost use Rattle.spec_wire.specs.Commands as commands;
ghost use Rattle.spec_wire.specs.Replies.{is_refused};
ghost use Rattle.spec_machine.specs.KeptMemories.{IsWholeMemory};
ghost use Rattle.spec_machine.specs.LabelPromises.{AreLabelled, LosesNone};
ghost use Rattle.spec_machine.specs.SheetPromises.{KeepsSheets};
ghost use Rattle.spec_locked_pages.specs.Chains.{AreLinked, KeepsAlong};
ghost use Rattle.spec_locked_pages.specs.Promises.{KeepsPages};
ghost use Rattle.spec_machine.specs.Machine.{opened_memory};
ghost use Rattle.sp_text.specs.Gap.{text_of as lines_text};
ghost use Rattle.sp_text.specs.Changing.{edit_of};
ghost use Rattle.sp_wire.specs.Values.{command_of, reply_of};
ghost use Rattle.sp_reread.specs.Cache.{texts_in, ReadsAtMostAll, ReadsAll};
ghost use Rattle.sp_desk.specs.Answers.{IsAnswer};
ghost use Rattle.sp_desk.specs.Reads.{DeskReads};
ghost use Rattle.sp_desk.specs.Fills.{DeskFills};
ghost use Rattle.sp_sheets.specs.States.{state_in};
ghost use Rattle.sp_sheets.specs.Pages.{FillsAll, FillsAtMostAll};

use crate::DeskFault;
use crate::replies::{edited_reply, page_count, scene_count, sheet_labels};
use sp_contents::{block_replies, outline_reply, round_name, sheet_reply};
use sp_journal::Journal;
use sp_kit::Steps;
use sp_print::PageView;
use sp_records::Records;
use sp_state::{Entry, Script, Unturned};
use sp_text::{Edit, Lines};
use sp_wire::{Command, Refusal, Reply};
use spec_pages::Paper;
use std::alloc::{AllocError, Global};
use std::marker::Model;

/// A script, what was done to it and what was undone (docs/RULES.md, "The desk"). Contracts see the memory of the machine:
/// the present state, and for each entry the whole state that it leads to.
pub struct Desk {
    script: Script,
    journal: Journal<Entry>,
}

/// One call wherever it is dropped, so that no proof there follows each of its fields.
impl Drop for Desk {
    fn drop(self) {
        let Desk {
            script: _script,
            journal: _journal,
        } = self;
    }
}

impl Model for Desk {
    ghost use Rattle.spec_machine.specs.Machine.{Memory};
    ghost use Rattle.sp_desk.specs.Memories.{memory_by, IsDesk};

    ghost Value = { Memory };

    ghost view = { λ d. memory_by d.script d.journal.done d.journal.undone };

    ghost invariant = { λ d. IsDesk d.script d.journal.done d.journal.undone };
}

impl Desk {
    /// The desk of lines that were just read, without records: nothing is locked, and nothing can be undone or redone (docs/RULES.md, "The
    /// desk"). It reads each stanza and fills each page once. `AllocError` comes for want of memory alone.
    pub fn new<S: Steps>(alloc: Global, lines: Lines, steps: &mut S) -> Result<Desk, AllocError>
        requires read { lines.lines ≡ read_lines (line_texts lines.lines) }
        requires next { lines.next ≡ length lines.lines }
        ensures memory { IfOk result (λ desk. desk ≡ opened_memory (opened_state (texts_in lines))) }
        ensures reads { OnOk result (ReadsAll (texts_in lines) (S.reads steps.old) (S.reads steps.new)) }
        ensures at_most { ReadsAtMostAll (texts_in lines) (S.reads steps.old) (S.reads steps.new) }
        ensures fills { OnOk result (FillsAll (opened_state (texts_in lines)) (S.fills steps.old) (S.fills steps.new)) }
        ensures fills_at_most { FillsAtMostAll (opened_state (texts_in lines)) (S.fills steps.old) (S.fills steps.new) }
    {
        let _count = lines.len();
        let script = Script::new(alloc, lines, steps)?;
        Ok(Desk {
            script,
            journal: Journal::new(alloc),
        })
    }

    /// The desk of these lines with these records, which together keep the rules of a state (docs/RULES.md, "Record file" and "The desk").
    /// Nothing can be undone or redone. It reads each stanza and fills each page once. `AllocError` comes for want of memory alone.
    pub fn open<S: Steps>(
        alloc: Global,
        lines: Lines,
        records: Records,
        steps: &mut S,
    ) -> Result<Desk, AllocError>
        requires { IsWhole (state_in lines records) }
        ensures memory { IfOk result (λ desk. desk ≡ opened_memory (state_in lines records)) }
        ensures reads { OnOk result (ReadsAll (texts_in lines) (S.reads steps.old) (S.reads steps.new)) }
        ensures at_most { ReadsAtMostAll (texts_in lines) (S.reads steps.old) (S.reads steps.new) }
        ensures fills { OnOk result (FillsAll (state_in lines records) (S.fills steps.old) (S.fills steps.new)) }
        ensures fills_at_most { FillsAtMostAll (state_in lines records) (S.fills steps.old) (S.fills steps.new) }
    {
        let script = Script::open(alloc, lines, records, steps)?;
        Ok(Desk {
            script,
            journal: Journal::new(alloc),
        })
    }

    /// Answers a command, as the machine does: what it makes of the memory, and the reply; a refusal is a fault and never
    /// `Reply::Refused`. `Save` and `Packet` are refused UnknownCommand, since a session answers them itself. NoMemory may come
    /// in place of any answer. On a fault nothing is changed. An edit lays out anew the part of the text that it changes, and a
    /// setting the whole text; the other commands, undo, redo, locks and rounds among them, lay out nothing (docs/RULES.md, "The
    /// desk"). An edit reads each stanza of its window once and fills each page of its page window once, a change of the paper
    /// fills each page on the new one once, and no other command reads a stanza or fills a page (docs/RULES.md, "Windows"). No
    /// command loses a locked label, and an accepted lock of pages or a new round leaves the bytes of every
    /// sheet as they were (docs/RULES.md, "Page records" and "Scene numbers"). An edit keeps the bytes of each locked page
    /// that it leaves alone, and so do all edits that can be undone, from each of them on (docs/RULES.md, "Windows").
    pub fn apply<S: Steps>(
        &mut self,
        alloc: Global,
        command: Command,
        steps: &mut S,
    ) -> Result<Reply, DeskFault>
        ensures step { IsAnswer self.old (command_of command) self.new result }
        ensures unrefused { IfOk result (λ reply. is_refused (reply_of reply) ≡ false) }
        ensures labels { AreLabelled (self.new).state × LosesNone (self.old).state (self.new).state }
        ensures opening { OnOk result (KeepsSheets (command_of command) self.old self.new) }
        ensures locked { KeepsPages self.old (command_of command) (self.new).state }
        ensures chain { (i k : ℕ) → KeepsAlong i (drop k (self.new).done) (self.new).state }
        ensures reads { DeskReads self.old (command_of command) result (S.reads steps.old) (S.reads steps.new) }
        ensures fills { DeskFills self.old (command_of command) result (S.fills steps.old) (S.fills steps.new) }
    {
        let _before = self.sheets();
        let answer = self.answer(alloc, command, steps);
        let _after = self.sheets();
        answer
    }

    fn answer<S: Steps>(
        &mut self,
        alloc: Global,
        command: Command,
        steps: &mut S,
    ) -> Result<Reply, DeskFault>
        ensures step { IsAnswer self.old (command_of command) self.new result }
        ensures unrefused { IfOk result (λ reply. is_refused (reply_of reply) ≡ false) }
        ensures reads { DeskReads self.old (command_of command) result (S.reads steps.old) (S.reads steps.new) }
        ensures fills { DeskFills self.old (command_of command) result (S.fills steps.old) (S.fills steps.new) }
    {
        match command {
            Command::Edit(edit) => self.edit(alloc, edit, steps),
            Command::Undo => self.undo(alloc),
            Command::Redo => self.redo(alloc),
            Command::LockScenes => self.lock_scenes(alloc),
            Command::LockPages => self.lock_pages(alloc),
            Command::NextRound => self.next_round(alloc),
            Command::Sheet(index) => self.sheet_answer(alloc, index),
            Command::Labels => self.labels_answer(alloc),
            Command::Blocks => self.blocks_answer(alloc),
            Command::Speakers(on) => self.set_speakers(alloc, on),
            Command::Paper(paper) => self.set_paper(alloc, paper, steps),
            Command::Outline => self.outline_answer(alloc),
            Command::Save | Command::Packet => { Err(DeskFault::Refused(Refusal::UnknownCommand)) }
        }
    }

    fn edit<S: Steps>(
        &mut self,
        alloc: Global,
        edit: Edit,
        steps: &mut S,
    ) -> Result<Reply, DeskFault>
        ensures step { IsAnswer self.old (commands.edit (edit_of edit)) self.new result }
        ensures unrefused { IfOk result (λ reply. is_refused (reply_of reply) ≡ false) }
        ensures reads { DeskReads self.old (commands.edit (edit_of edit)) result
            (S.reads steps.old) (S.reads steps.new) }
        ensures fills { DeskFills self.old (commands.edit (edit_of edit)) result
            (S.fills steps.old) (S.fills steps.new) }
    {
        self.journal.reserve_one()?;
        let entry = self.script.edit(alloc, edit, steps)?;
        self.journal.push(entry);
        Ok(edited_reply(&self.script))
    }

    fn undo(&mut self, alloc: Global) -> Result<Reply, DeskFault>
        ensures step { IsAnswer self.old commands.undo self.new result }
        ensures unrefused { IfOk result (λ reply. is_refused (reply_of reply) ≡ false) }
    {
        let Some(entry) = self.journal.take_done() else {
            return Err(DeskFault::Refused(Refusal::NothingToUndo));
        };
        match self.script.turn(alloc, entry) {
            Ok(again) => {
                self.journal.keep_undone(again);
                Ok(edited_reply(&self.script))
            }
            Err(Unturned { back }) => {
                self.journal.keep_done(back);
                Err(DeskFault::NoMemory)
            }
        }
    }

    fn redo(&mut self, alloc: Global) -> Result<Reply, DeskFault>
        ensures step { IsAnswer self.old commands.redo self.new result }
        ensures unrefused { IfOk result (λ reply. is_refused (reply_of reply) ≡ false) }
    {
        let Some(entry) = self.journal.take_undone() else {
            return Err(DeskFault::Refused(Refusal::NothingToRedo));
        };
        match self.script.turn(alloc, entry) {
            Ok(again) => {
                self.journal.keep_done(again);
                Ok(edited_reply(&self.script))
            }
            Err(Unturned { back }) => {
                self.journal.keep_undone(back);
                Err(DeskFault::NoMemory)
            }
        }
    }

    fn lock_scenes(&mut self, alloc: Global) -> Result<Reply, DeskFault>
        ensures step { IsAnswer self.old commands.lock_scenes self.new result }
        ensures unrefused { IfOk result (λ reply. is_refused (reply_of reply) ≡ false) }
    {
        self.script.lock_scenes(alloc)?;
        self.journal.clear();
        Ok(Reply::Scenes(scene_count(self.script.records())))
    }

    fn lock_pages(&mut self, alloc: Global) -> Result<Reply, DeskFault>
        ensures step { IsAnswer self.old commands.lock_pages self.new result }
        ensures unrefused { IfOk result (λ reply. is_refused (reply_of reply) ≡ false) }
    {
        self.script.lock_pages(alloc)?;
        self.journal.clear();
        Ok(Reply::Pages(page_count(self.script.records())))
    }

    fn next_round(&mut self, alloc: Global) -> Result<Reply, DeskFault>
        ensures step { IsAnswer self.old commands.next_round self.new result }
        ensures unrefused { IfOk result (λ reply. is_refused (reply_of reply) ≡ false) }
    {
        let round = self.script.records().round_after();
        let name = round_name(alloc, round)?;
        self.script.next_round(alloc)?;
        self.journal.clear();
        Ok(Reply::Round { name, round })
    }

    fn set_speakers(&mut self, alloc: Global, on: bool) -> Result<Reply, DeskFault>
        ensures step { IsAnswer self.old (commands.speakers on) self.new result }
        ensures unrefused { IfOk result (λ reply. is_refused (reply_of reply) ≡ false) }
    {
        if self.script.records().pages.is_some() {
            return Err(DeskFault::Refused(Refusal::PagesLocked));
        }
        self.script.set_speakers(alloc, on)?;
        self.journal.clear();
        Ok(Reply::Set {
            sheets: self.script.sheets() as u64,
        })
    }

    fn set_paper<S: Steps>(
        &mut self,
        alloc: Global,
        paper: Paper,
        steps: &mut S,
    ) -> Result<Reply, DeskFault>
        ensures step { IsAnswer self.old (commands.paper paper) self.new result }
        ensures unrefused { IfOk result (λ reply. is_refused (reply_of reply) ≡ false) }
        ensures reads { S.reads steps.new ≡ S.reads steps.old }
        ensures fills { DeskFills self.old (commands.paper paper) result (S.fills steps.old) (S.fills steps.new) }
    {
        if self.script.records().pages.is_some() {
            return Err(DeskFault::Refused(Refusal::PagesLocked));
        }
        self.script.set_paper(alloc, paper, steps)?;
        self.journal.clear();
        Ok(Reply::Set {
            sheets: self.script.sheets() as u64,
        })
    }

    fn sheet_answer(&self, alloc: Global, index: u64) -> Result<Reply, DeskFault>
        ensures step { IsAnswer self.now (commands.sheet index) self.now result }
        ensures unrefused { IfOk result (λ reply. is_refused (reply_of reply) ≡ false) }
    {
        match self.script.sheet(index as usize) {
            Some(page) => Ok(sheet_reply(alloc, &page)?),
            None => Err(DeskFault::Refused(Refusal::NoSheet)),
        }
    }

    fn labels_answer(&self, alloc: Global) -> Result<Reply, DeskFault>
        ensures step { IsAnswer self.now commands.labels self.now result }
        ensures unrefused { IfOk result (λ reply. is_refused (reply_of reply) ≡ false) }
    {
        Ok(Reply::Labels(sheet_labels(alloc, &self.script)?))
    }

    fn blocks_answer(&self, alloc: Global) -> Result<Reply, DeskFault>
        ensures step { IsAnswer self.now commands.blocks self.now result }
        ensures unrefused { IfOk result (λ reply. is_refused (reply_of reply) ≡ false) }
    {
        let script = &self.script;
        Ok(Reply::Blocks(block_replies(alloc, script.lines(), script.view().stanzas())?))
    }

    fn outline_answer(&self, alloc: Global) -> Result<Reply, DeskFault>
        ensures step { IsAnswer self.now commands.outline self.now result }
        ensures unrefused { IfOk result (λ reply. is_refused (reply_of reply) ≡ false) }
    {
        Ok(outline_reply(alloc, &self.script.view())?)
    }

    /// How many sheets the present state has, those of its title page counted (docs/RULES.md, "Sheets"). The state and all that can be
    /// undone or redone keep the rules of a state, and each entry leads to the next by an edit. Takes no memory.
    pub fn sheets(&self) -> usize
        ensures count { result ≡ length (sheets_of_state (self.now).state) }
        ensures whole { IsWholeMemory self.now }
        ensures linked { AreLinked self.now }
    {
        self.script.sheets()
    }

    /// Lends the sheet at a place from 0; None where there are no more than that many (docs/RULES.md, "Sheets"). Takes no memory.
    pub fn sheet(&self, i: usize) -> Option<PageView<'_>>
        ensures some { IfSome result (λ page. slice_get (sheets_of_state (self.now).state) i ≡ Some page) }
        ensures none { IfNone result (length (sheets_of_state (self.now).state) ≤ i) }
    {
        self.script.sheet(i)
    }

    /// Lends the lines of the present state (docs/RULES.md, "Text and lines"). Takes no memory.
    pub fn lines(&self) -> &Lines
        ensures { lines_text result.now ≡ text_of (self.now).state }
    {
        self.script.lines()
    }

    /// Lends its script, which is of the present state. Takes no memory.
    pub fn script(&self) -> &Script
        ensures { result.now ≡ (self.now).state }
    {
        &self.script
    }

    /// Lends the round, the settings and the records of the present state (docs/RULES.md, "Record file"). Takes no memory.
    pub fn records(&self) -> &Records
        ensures { result.now ≡ records_of (self.now).state }
    {
        self.script.records()
    }
}
