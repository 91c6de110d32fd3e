//! What an edit displaced.
ghost use Rattle.std.specs.Prelude.{◌≡◌, IfOk, IfErr, IsOk, OnOk, OnErr};
ghost use Rattle.spec_state.specs.Keeping.{IsWhole};
ghost use Rattle.sp_text.specs.Changing.{Refuses};
ghost use Rattle.sp_text.specs.Gap.{text_of};
ghost use Rattle.sp_exchange.specs.Reads.{IsRefused};
ghost use Rattle.sp_exchange.specs.Restoring.{CanRestoreText, DisplacesStanzas, HasRoomFor, text_before, stanzas_in, replacement_in, range_in, refusal_in};
ghost use Rattle.sp_text_entry.specs.TextEntries.{CanTurnText, HasTextRoom, IsSameTextEntry, IsTextTurned, LeadsText, done_lines, edited_by, turned_lines, turned_text};
ghost use Rattle.sp_layout.specs.Changes.{CanChange, HasChangeRoom, with_change};
ghost use Rattle.sp_layout.specs.Edited.{KeepsToWindow};
ghost use Rattle.sp_layout.specs.Kept.{laid_of};
ghost use Rattle.sp_sheets.specs.Firsts.{IsLaidOf, first_rows};
ghost use Rattle.sp_sheets.specs.States.{state_with};
ghost use Rattle.sp_text_entry.specs.Relaid.{IsExchangeOf};
ghost use Rattle.sp_text_entry.specs.Reads.{ReadsEdit, ReadsEditAtMost};

use crate::carrying::put_back_pages;
use crate::relaying::{Relaid, relay_and_raise};
use sp_exchange::{Text, UnrestoredText};
use sp_kit::Steps;
use sp_layout::{KeptLayout, LayoutChange};
use sp_records::Records;
use sp_refill::ExchangedRows;
use sp_reread::Swapped;
use sp_text::{Displaced, Edit, EditFault};
use spec_labels::Moved;
use std::alloc::Global;
use std::marker::Model;

/// What an edit displaced, or what was displaced when that was put back: lines, stanzas, and the anchors and rounds of page
/// records in two lists, of which `first` is put back before `second`.
#[derive(Drop)]
pub struct TextEntry {
    pub lines: Displaced,
    pub stanzas: Swapped,
    pub first: Vec<Moved>,
    pub second: Vec<Moved>,
}

impl Model for TextEntry {
    ghost use Rattle.sp_text_entry.specs.TextEntries.{TextEntryState};

    ghost Value = { TextEntryState };

    ghost view = { λ e. record { lines = e.lines; stanzas = e.stanzas; first = e.first.items; second = e.second.items } };
}

/// There was no memory; what was to be put back is handed back.
#[derive(Drop)]
pub struct UnturnedText {
    pub back: TextEntry,
}

/// Puts displaced lines and stanzas back where there is room.
fn restore_in_room(text: &mut Text, back: Displaced, swapped: Swapped)
    requires can { CanRestoreText (text_of text.old.lines) back swapped }
    requires room { HasRoomFor text.old back swapped }
    ensures { text_of text.new.lines ≡ text_before (text_of text.old.lines) back }
{
    match text.restore(back, swapped) {
        Ok(_) => {}
        Err(_) => unreachable!(),
    }
}

/// An edit that was made: what undoes it but for the page starts, the rows that it exchanged, and the first rows of the page
/// records.
#[derive(Drop)]
pub struct EditedText {
    pub text: TextEntry,
    pub layout: LayoutChange,
    pub rows: ExchangedRows,
    pub firsts: Vec<usize>,
}

/// Makes an edit in a text and in its layout, and answers what undoes it. `before` are the first rows of the page records. Each
/// stanza of its window is read once. An `EditFault` says why the edit is refused, or that there was no memory; then nothing is
/// changed.
pub fn edit_entry<S: Steps>(
    alloc: Global,
    text: &mut Text,
    records: &mut Records,
    layout: &mut KeptLayout,
    before: &[usize],
    edit: Edit,
    steps: &mut S,
) -> Result<EditedText, EditFault>
    requires whole { IsWhole (state_with text.old records.old) }
    requires laid { IsLaidOf (state_with text.old records.old) (laid_of layout.old) }
    requires before { before.now ≡ first_rows (state_with text.old records.old) }
    ensures refuses { Refuses (refusal_in text.old.lines edit) result }
    ensures state { OnOk result (state_with text.new records.new ≡ edited_by (state_with text.old records.old) edit) }
    ensures whole { OnOk result (IsWhole (state_with text.new records.new)) }
    ensures back { IfOk result (λ it.
        LeadsText (state_with text.new records.new) (state_with text.old records.old) it.text) }
    ensures range { IfOk result (λ it. done_lines it.text ≡ range_in text.old.lines edit) }
    ensures room { IfOk result (λ it. HasTextRoom text.new it.text) }
    ensures laid { OnOk result (IsLaidOf (state_with text.new records.new) (laid_of layout.new)) }
    ensures layout_back { IfOk result (λ it. with_change (laid_of layout.new) it.layout ≡ laid_of layout.old) }
    ensures can_change { IfOk result (λ it. CanChange (laid_of layout.new) it.layout) }
    ensures layout_room { IfOk result (λ it. HasChangeRoom layout.new it.layout) }
    ensures window { IfOk result (λ it. DisplacesStanzas text.old.lines text.new.lines edit it.text.stanzas) }
    ensures few { IfOk result (λ it. KeepsToWindow (stanzas_in text.new) it.text.stanzas it.layout) }
    ensures rows { IfOk result (λ it.
        IsExchangeOf (state_with text.old records.old) (replacement_in text.old.lines edit) it.rows) }
    ensures firsts { IfOk result (λ it. it.firsts.items ≡ first_rows (state_with text.new records.new)) }
    ensures same { OnErr result (state_with text.new records.new ≡ state_with text.old records.old) }
    ensures same_layout { OnErr result (laid_of layout.new ≡ laid_of layout.old) }
    ensures reads { OnOk result (ReadsEdit (state_with text.old records.old) edit
        (S.reads steps.old) (S.reads steps.new)) }
    ensures at_most { ReadsEditAtMost (state_with text.old records.old) edit (S.reads steps.old) (S.reads steps.new) }
    ensures unread { IsRefused (refusal_in text.old.lines edit) → S.reads steps.new ≡ S.reads steps.old }
    ensures fills { S.fills steps.new ≡ S.fills steps.old }
{
    let (displaced, swapped) = text.change(edit, records.round, steps)?;
    let _changed = text.lines();
    match relay_and_raise(alloc, text, &displaced, &swapped, records, before, layout) {
        Ok(
            Relaid {
                change,
                moved,
                raised,
                rows,
                firsts,
            },
        ) => Ok(EditedText {
            text: TextEntry {
                lines: displaced,
                stanzas: swapped,
                first: raised,
                second: moved,
            },
            layout: change,
            rows,
            firsts,
        }),
        Err(_) => {
            restore_in_room(text, displaced, swapped);
            Err(EditFault::NoMemory)
        }
    }
}

/// Puts back what an entry displaced, and answers the entry of what stood in its place, which leads back. So the entry of an edit
/// undoes it, the one answered does it again, and so on. No stanza is read. It takes memory only where the lines, the stanzas or
/// the entry have no room for what they get. On an error there was none, nothing is changed, and the entry is handed back.
pub fn turn_entry(
    text: &mut Text,
    records: &mut Records,
    entry: TextEntry,
) -> Result<TextEntry, UnturnedText>
    requires can { CanTurnText (state_with text.old records.old) entry }
    ensures state { OnOk result
        (state_with text.new records.new ≡ turned_text (state_with text.old records.old) entry) }
    ensures back { IfOk result (LeadsText (state_with text.new records.new) (state_with text.old records.old)) }
    ensures range { IfOk result (λ it. done_lines it ≡ turned_lines entry) }
    ensures same { OnErr result (state_with text.new records.new ≡ state_with text.old records.old) }
    ensures entry { IfOk result (IsTextTurned (state_with text.old records.old) entry) }
    ensures handed_back { IfErr result (λ error. IsSameTextEntry error.back entry) }
    ensures room { IfOk result (HasTextRoom text.new) }
    ensures succeeds { HasTextRoom text.old entry → IsOk result }
{
    let TextEntry {
        lines: back,
        stanzas: swapped,
        mut first,
        mut second,
    } = entry;
    match text.restore(back, swapped) {
        Ok((displaced, others)) => {
            put_back_pages(records, &mut first);
            put_back_pages(records, &mut second);
            Ok(TextEntry {
                lines: displaced,
                stanzas: others,
                first: second,
                second: first,
            })
        }
        Err(
            UnrestoredText {
                lines: back,
                stanzas: swapped,
            },
        ) => Err(UnturnedText {
            back: TextEntry {
                lines: back,
                stanzas: swapped,
                first,
                second,
            },
        }),
    }
}
