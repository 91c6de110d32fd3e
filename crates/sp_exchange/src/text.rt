//! A text with its stanzas, changed and restored.
ghost use Rattle.std.specs.Prelude.{◌≡◌, ◌+◌, ◌-◌, ◌≤◌, length, IfErr, IfOk, IsOk, OnErr, OnOk};
ghost use Rattle.spec_text.specs.Edits.{restored};
ghost use Rattle.spec_text.specs.Lines.{IsText};
ghost use Rattle.spec_script.specs.Stanzas.{stanzas_of};
ghost use Rattle.sp_text.specs.Changing.{Refuses};
ghost use Rattle.sp_text.specs.DisplacedLines.{displaced_of};
ghost use Rattle.sp_text.specs.Gap.{text_of};
ghost use Rattle.sp_reread.specs.Cache.{GivesBack, counted_on, texts_in, AreCountable, stanzas_before, HasSwapRoom, ReadsAll, ReadsAtMostAll};
ghost use Rattle.sp_exchange.specs.Reads.{IsRefused, ChangeReads, ChangeReadsAtMost, RereadsAtMost};
ghost use Rattle.sp_exchange.specs.Restoring.{CanRestoreText, HasRoomFor, IsSameText, IsTurned, stanzas_in, text_before, refusal_in, text_edited, StoodBefore, StandInWindowOf, Displaces, DisplacesStanzas};

use sp_kit::Steps;
use sp_reread::{Stanzas, Swapped, Unswapped};
use sp_text::{Displaced, Edit, EditFault, Lines, Unrestored};
use std::alloc::{AllocError, Global};
use std::marker::Model;

/// The lines of a text with its stanzas (docs/RULES.md, "Text and lines" and "Stanzas"). Contracts see the lines alone, since the
/// stanzas are theirs.
#[derive(Drop)]
pub struct Text {
    lines: Lines,
    stanzas: Stanzas,
}

impl Model for Text {
    ghost use Rattle.std.specs.Prelude.{◌≡◌};
    ghost use Rattle.sp_text.specs.Gap.{text_of};
    ghost use Rattle.sp_exchange.specs.Restoring.{TextOf, text_stanzas};

    ghost Value = { TextOf };

    ghost view = { λ t. record { lines = t.lines; room = t.stanzas.room } };

    ghost invariant = { λ t. t.stanzas.stanzas ≡ text_stanzas (text_of t.lines) };
}

/// There was no memory to restore. It hands back what was to be restored.
#[derive(Drop)]
pub struct UnrestoredText {
    pub lines: Displaced,
    pub stanzas: Swapped,
}

/// Puts displaced lines back where there is room.
fn restore_in_room(lines: &mut Lines, back: Displaced)
    requires place { back.first + back.stands ≤ length lines.old.lines }
    requires keeps { IsText (restored (text_of lines.old) (displaced_of back)) }
    requires room { length lines.old.lines - back.stands + length back.lines ≤ lines.old.room }
    requires back_room { back.stands ≤ back.room }
    ensures { text_of lines.new ≡ restored (text_of lines.old) (displaced_of back) }
{
    match lines.restore(back) {
        Ok(_) => {}
        Err(_) => unreachable!(),
    }
}

/// Puts displaced stanzas back where there is room.
fn put_back_in_room(stanzas: &mut Stanzas, back: Swapped) -> Swapped
    requires place { back.at + back.stands ≤ length stanzas.old.stanzas }
    requires low { AreCountable (stanzas_before stanzas.old.stanzas back) }
    requires room { HasSwapRoom stanzas.old back }
    ensures list { stanzas.new.stanzas ≡ stanzas_before stanzas.old.stanzas back }
    ensures out { GivesBack result stanzas.new.stanzas stanzas.old.stanzas }
    ensures at { result.at ≡ back.at }
    ensures stands { result.stands ≡ length back.stanzas }
{
    match stanzas.put_back(back) {
        Ok(other) => other,
        Err(_) => unreachable!(),
    }
}

/// Makes stanzas those of a text from which lines were displaced. Each stanza of the window is read once.
fn reread<S: Steps>(
    stanzas: &mut Stanzas,
    lines: &Lines,
    displaced: &Displaced,
    steps: &mut S,
) -> Result<Swapped, AllocError>
    requires { StoodBefore lines.now displaced.now stanzas.old.stanzas }
    ensures list { OnOk result (stanzas.new.stanzas ≡ stanzas_of (texts_in lines.now)) }
    ensures back { IfOk result (λ it. GivesBack it stanzas.new.stanzas stanzas.old.stanzas) }
    ensures window { IfOk result (StandInWindowOf lines.now displaced.now stanzas.old.stanzas) }
    ensures reads { IfOk result (λ it. S.reads steps.new ≡ counted_on it.stands (S.reads steps.old)) }
    ensures at_most { OnErr result (RereadsAtMost lines.now displaced.now stanzas.old.stanzas
        (S.reads steps.old) (S.reads steps.new)) }
    ensures fills { S.fills steps.new ≡ S.fills steps.old }
    ensures same { OnErr result (stanzas.new.stanzas ≡ stanzas.old.stanzas) }
    ensures room { stanzas.old.room ≤ stanzas.new.room }
    ensures back_room { IfOk result (λ it. it.stands ≤ it.room) }
{
    stanzas.update(
        lines,
        displaced.first as usize,
        displaced.lines.len(),
        displaced.stands as usize,
        steps,
    )
}

impl Text {
    /// Lines with their stanzas. Each stanza is read once.
    pub fn new<S: Steps>(alloc: Global, lines: Lines, steps: &mut S) -> Result<Text, AllocError>
        ensures lines { IfOk result (λ text. text.lines ≡ lines) }
        ensures reads { OnOk result (ReadsAll (texts_in lines) (S.reads steps.old) (S.reads steps.new)) }
        ensures at_most { ReadsAtMostAll (texts_in lines) (S.reads steps.old) (S.reads steps.new) }
        ensures fills { S.fills steps.new ≡ S.fills steps.old }
    {
        let stanzas = Stanzas::new(alloc, &lines, steps)?;
        Ok(Text { lines, stanzas })
    }

    /// Lends its lines, which keep the rules of a text.
    pub fn lines(&self) -> &Lines
        ensures lines { result.now ≡ self.now.lines }
        ensures keeps { IsText (text_of self.now.lines) }
    {
        let _count = self.lines.len();
        &self.lines
    }

    /// Lends its stanzas.
    pub fn stanzas(&self) -> &Stanzas
        ensures stanzas { result.now.stanzas ≡ stanzas_in self.now }
    {
        &self.stanzas
    }

    /// Makes the index of its lines' ids, where it isn't made. Nothing else is changed.
    pub fn make_index(&mut self) -> Result<(), AllocError>
        ensures { self.new ≡ self.old }
    {
        self.lines.make_index()
    }

    /// Makes the edit in the lines and in the stanzas, and answers those that it displaced (docs/RULES.md, "Edits" and "Windows").
    /// The stanzas are those of its window; each stanza that stands there now is read once, and no other. NoMemory comes for want
    /// of memory alone. A refused edit leaves the text as it was.
    pub fn change<S: Steps>(
        &mut self,
        edit: Edit,
        round: u8,
        steps: &mut S,
    ) -> Result<(Displaced, Swapped), EditFault>
        ensures refuses { Refuses (refusal_in self.old.lines edit) result }
        ensures text { OnOk result (text_of self.new.lines ≡ text_edited self.old.lines edit round) }
        ensures displaced { IfOk result (λ it. Displaces self.old.lines edit it.0) }
        ensures leads { IfOk result (λ it. text_before (text_of self.new.lines) it.0 ≡ text_of self.old.lines) }
        ensures can { IfOk result (λ it. CanRestoreText (text_of self.new.lines) it.0 it.1) }
        ensures room { IfOk result (λ it. HasRoomFor self.new it.0 it.1) }
        ensures window { IfOk result (λ it. DisplacesStanzas self.old.lines self.new.lines edit it.1) }
        ensures reads { OnOk result (ChangeReads self.old.lines edit round (S.reads steps.old) (S.reads steps.new)) }
        ensures at_most { ChangeReadsAtMost self.old.lines edit round (S.reads steps.old) (S.reads steps.new) }
        ensures unread { IsRefused (refusal_in self.old.lines edit) → S.reads steps.new ≡ S.reads steps.old }
        ensures fills { S.fills steps.new ≡ S.fills steps.old }
        ensures same { OnErr result (text_of self.new.lines ≡ text_of self.old.lines) }
    {
        let _count = self.lines.len();
        let _stanzas = self.stanzas.len();
        let displaced = self.lines.change(edit, round)?;
        match reread(&mut self.stanzas, &self.lines, &displaced, steps) {
            Ok(swapped) => Ok((displaced, swapped)),
            Err(_) => {
                restore_in_room(&mut self.lines, displaced);
                Err(EditFault::NoMemory)
            }
        }
    }

    /// Puts lines and stanzas back in the place of those that stand there now, and answers what it displaced. No stanza is
    /// read. It takes memory only where there is no room for what it puts back. On an error there was none, the text is as it
    /// was, and what was to be restored is handed back.
    pub fn restore(
        &mut self,
        back: Displaced,
        swapped: Swapped,
    ) -> Result<(Displaced, Swapped), UnrestoredText>
        requires { CanRestoreText (text_of self.old.lines) back swapped }
        ensures text { OnOk result (text_of self.new.lines ≡ text_before (text_of self.old.lines) back) }
        ensures turned { IfOk result (λ it. IsTurned (text_of self.old.lines) back swapped it.0 it.1) }
        ensures room { IfOk result (λ it. HasRoomFor self.new it.0 it.1) }
        ensures same { OnErr result (text_of self.new.lines ≡ text_of self.old.lines) }
        ensures handed_back { IfErr result (λ error. IsSameText error.lines error.stanzas back swapped) }
        ensures succeeds { HasRoomFor self.old back swapped → IsOk result }
    {
        let _count = self.lines.len();
        let _stanzas = self.stanzas.len();
        let other = match self.stanzas.put_back(swapped) {
            Ok(other) => other,
            Err(Unswapped { back: swapped }) => {
                return Err(UnrestoredText {
                    lines: back,
                    stanzas: swapped,
                });
            }
        };
        match self.lines.restore(back) {
            Ok(displaced) => Ok((displaced, other)),
            Err(Unrestored { back }) => {
                let swapped = put_back_in_room(&mut self.stanzas, other);
                Err(UnrestoredText {
                    lines: back,
                    stanzas: swapped,
                })
            }
        }
    }
}
