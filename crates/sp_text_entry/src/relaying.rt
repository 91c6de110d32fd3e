//! A layout in an edit: the part that the edit changes is laid out anew, and page records are carried and raised by it.
ghost use Rattle.std.specs.Prelude.{◌≡◌, ◌+◌, ◌≤◌, length, IfOk, OnOk, OnErr};
ghost use Rattle.spec_state.specs.Keeping.{IsWhole};
ghost use Rattle.sp_exchange.specs.Restoring.{stanzas_in};
ghost use Rattle.sp_layout.specs.Edited.{KeepsToWindow, WasLaidOf};
ghost use Rattle.sp_layout.specs.Changes.{CanChange, HasChangeRoom, with_change};
ghost use Rattle.sp_layout.specs.Kept.{laid_of};
ghost use Rattle.sp_sheets.specs.Firsts.{IsLaidOf, first_rows};
ghost use Rattle.sp_text_entry.specs.Raised.{AreCarried, FitPages, put_back_in, old_text, old_state, carried_state, raised_by, LeadRecordsBack};
ghost use Rattle.sp_text_entry.specs.Relaid.{IsSomeEditOf, ExchangesRowsOf};
ghost use Rattle.sp_sheets.specs.States.{state_with};

use crate::carrying::{Carried, carry_and_raise};
use sp_exchange::Text;
use sp_layout::{KeptLayout, LayoutChange, relay_edit};
use sp_records::Records;
use sp_refill::{ExchangedRows, exchanged_rows, rows_ahead};
use sp_reread::Swapped;
use sp_text::{Displaced, OldLines};
use spec_labels::Moved;
use std::alloc::{AllocError, Global};

/// Makes a change of a layout where there is room for it, and answers what leads back. It takes no memory.
pub fn change_in_room(layout: &mut KeptLayout, change: LayoutChange) -> LayoutChange
    requires can { CanChange (laid_of layout.old) change }
    requires room { HasChangeRoom layout.old change }
    ensures layout { laid_of layout.new ≡ with_change (laid_of layout.old) change }
    ensures back { with_change (laid_of layout.new) result ≡ laid_of layout.old }
    ensures can { CanChange (laid_of layout.new) result }
{
    match layout.change(change) {
        Ok(other) => other,
        Err(_) => unreachable!(),
    }
}

/// What an edit displaced of a layout and of page records, the rows that it exchanged, and the first rows of the page records.
#[derive(Drop)]
pub(crate) struct Relaid {
    pub change: LayoutChange,
    pub moved: Vec<Moved>,
    pub raised: Vec<Moved>,
    pub rows: ExchangedRows,
    pub firsts: Vec<usize>,
}

/// Lays out the part that an edit changed, carries page records, and gives those the round whose rows differ. `before` are
/// the first rows that the page records had.
pub(crate) fn relay_and_raise(
    alloc: Global,
    text: &Text,
    displaced: &Displaced,
    swapped: &Swapped,
    records: &mut Records,
    before: &[usize],
    layout: &mut KeptLayout,
) -> Result<Relaid, AllocError>
    requires place { displaced.now.first + displaced.now.stands ≤ length text.now.lines.lines }
    requires whole { IsWhole (old_state text.now.lines displaced.now records.old) }
    requires carried { IsWhole (carried_state text.now.lines displaced.now records.old) }
    requires can { AreCarried text.now.lines.lines displaced.now.lines records.old }
    requires was { WasLaidOf (old_text text.now.lines displaced.now) text.now.lines.lines
        (stanzas_in text.now) swapped.now (records.old).speakers (laid_of layout.old) }
    requires edit { IsSomeEditOf (old_state text.now.lines displaced.now records.old)
        text.now.lines.lines (stanzas_in text.now) swapped.now }
    requires before { before.now ≡ first_rows (old_state text.now.lines displaced.now records.old) }
    ensures laid { OnOk result (IsLaidOf (state_with text.now records.new) (laid_of layout.new)) }
    ensures layout_back { IfOk result (λ it. with_change (laid_of layout.new) it.change ≡ laid_of layout.old) }
    ensures can_change { IfOk result (λ it. CanChange (laid_of layout.new) it.change) }
    ensures room { IfOk result (λ it. HasChangeRoom layout.new it.change) }
    ensures few { IfOk result (λ it. KeepsToWindow (stanzas_in text.now) swapped.now it.change) }
    ensures rows { IfOk result (λ it. ExchangesRowsOf (old_state text.now.lines displaced.now records.old)
        text.now.lines.lines (stanzas_in text.now) swapped.now it.rows) }
    ensures records { OnOk result (records.new ≡ raised_by text.now.lines displaced.now records.old) }
    ensures raised { IfOk result (λ it. FitPages records.new it.raised.items) }
    ensures moved { IfOk result (λ it. FitPages (put_back_in it.raised.items records.new) it.moved.items) }
    ensures back { IfOk result (λ it. LeadRecordsBack records.new it.raised.items it.moved.items records.old) }
    ensures firsts { IfOk result (λ it. it.firsts.items ≡ first_rows (state_with text.now records.new)) }
    ensures same { OnErr result (records.new ≡ records.old) }
    ensures same_layout { OnErr result (laid_of layout.new ≡ laid_of layout.old) }
{
    let lines = text.lines();
    let stanzas = text.stanzas();
    let ahead = rows_ahead(lines, stanzas, swapped, &layout.body);
    let old = OldLines::new(lines, displaced);
    let change = relay_edit(
        alloc,
        lines,
        &old,
        stanzas,
        swapped,
        records.speakers,
        layout,
    )?;
    match carry_and_raise(alloc, lines, displaced, records, before, layout, &change) {
        Ok(
            Carried {
                moved,
                raised,
                firsts,
            },
        ) => {
            let rows = exchanged_rows(&ahead, lines, stanzas, swapped, &layout.body);
            Ok(Relaid {
                change,
                moved,
                raised,
                rows,
                firsts,
            })
        }
        Err(error) => {
            let _other = change_in_room(layout, change);
            Err(error)
        }
    }
}
