//! What is made of a state after a change of its parts; where there is no memory for it the change is taken back.
ghost use Rattle.std.specs.Prelude.{◌≡◌, None, IfErr, IfOk, IfSome, OnOk, OnErr};
ghost use Rattle.spec_state.specs.Keeping.{IsWhole};
ghost use Rattle.spec_state.specs.StateSheets.{title_starts};
ghost use Rattle.spec_locked_pages.specs.Segments.{pages_of};
ghost use Rattle.sp_text.specs.Changing.{Refuses};
ghost use Rattle.sp_text.specs.Gap.{text_of};
ghost use Rattle.sp_exchange.specs.Reads.{IsRefused};
ghost use Rattle.sp_exchange.specs.Restoring.{range_in, refusal_in};
ghost use Rattle.sp_layout.specs.Changes.{CanChange, HasChangeRoom, with_change};
ghost use Rattle.sp_layout.specs.Kept.{laid_of};
ghost use Rattle.sp_sheets.specs.Firsts.{IsLaidOf, first_rows};
ghost use Rattle.sp_sheets.specs.Made.{IsMadeOf, IsNumberedOf};
ghost use Rattle.sp_text_entry.specs.TextEntries.{CanTurnText, HasTextRoom, IsTextTurned, edited_by, turned_text};
ghost use Rattle.sp_state.specs.Entries.{CanTurn, HoldsFew, HoldsWindow, IsSameEntry, Leads, done_range, turned_range, turned_state};
ghost use Rattle.sp_text_entry.specs.Reads.{ReadsEdit, ReadsEditAtMost};
ghost use Rattle.sp_state.specs.Fills.{FillsEdit, FillsEditAtMost};
ghost use Rattle.sp_sheets.specs.States.{state_in, state_with};
ghost use Rattle.sp_sheets.specs.Pages.{FillsAll, FillsAtMostAll};

use crate::entry::{Entry, Unturned};
use crate::turning::{LayoutEntry, PageStarts, UnturnedLayout, refilled, turn_layout};
use sp_exchange::Text;
use sp_kit::Steps;
use sp_layout::{KeptLayout, LayoutChange};
use sp_records::Records;
use sp_reflow::Pages;
use sp_sheets::{
    Keeps, LaidState, Made, Numbered, keeps_headings, laid_firsts, lay, leaves_titles, make, number,
};
use sp_text::{Edit, EditFault, Lines};
use sp_text_entry::{EditedText, TextEntry, UnturnedText, change_in_room, edit_entry, turn_entry};
use spec_pages::Paper;
use std::alloc::{AllocError, Global};
use std::mem;

/// The labels and the sheets of a state, by its layout and the first rows of its pages and of its title sheets.
fn numbered_by(
    alloc: Global,
    text: &Text,
    records: &Records,
    layout: &KeptLayout,
    pages: &Pages,
    titles: &[usize],
) -> Result<Numbered, AllocError>
    requires whole { IsWhole (state_with text.now records.now) }
    requires laid { IsLaidOf (state_with text.now records.now) (laid_of layout.now) }
    requires pages { pages.now.starts ≡ pages_of (state_with text.now records.now) }
    requires titles { titles.now ≡ title_starts (state_with text.now records.now) }
    ensures { IfOk result (IsNumberedOf (state_with text.now records.now)) }
{
    let none: &[usize] = &[];
    let firsts = laid_firsts(alloc, text.lines(), records, layout, none)?;
    let titles = Vec::from_slice(alloc, titles)?;
    let laid = LaidState::new(text, records, layout, &firsts);
    number(alloc, &laid, pages, titles)
}

/// What is made of a state, with the first rows of its pages and of its title sheets.
fn remade(
    alloc: Global,
    text: &Text,
    records: &Records,
    pages: &Pages,
    titles: &[usize],
) -> Result<Made, AllocError>
    requires whole { IsWhole (state_with text.now records.now) }
    requires pages { pages.now.starts ≡ pages_of (state_with text.now records.now) }
    requires titles { titles.now ≡ title_starts (state_with text.now records.now) }
    ensures { IfOk result (IsMadeOf (state_with text.now records.now)) }
{
    let layout = lay(alloc, text, records)?;
    let numbered = numbered_by(alloc, text, records, &layout, pages, titles)?;
    Ok(Made { layout, numbered })
}

/// Puts what was made anew in the place of what was made before; first rows of page records are known no longer.
pub(crate) fn put_made(made: &mut Made, firsts: &mut Option<Vec<usize>>, other: Made)
    ensures made { made.new ≡ other }
    ensures firsts { firsts.new ≡ None }
{
    *made = other;
    *firsts = None;
}

/// Sets whether a cue says that its speaker goes on. It fills no page and cuts no title sheet: the first rows of both stay.
pub(crate) fn made_with_speakers(
    alloc: Global,
    text: &Text,
    records: &mut Records,
    pages: &Pages,
    titles: &[usize],
    on: bool,
) -> Result<Made, AllocError>
    requires whole { IsWhole (state_with text.now records.old) }
    requires pages { pages.now.starts ≡ pages_of (state_with text.now records.old) }
    requires titles { titles.now ≡ title_starts (state_with text.now records.old) }
    ensures records { OnOk result (records.new ≡ record records.old { speakers = on }) }
    ensures whole { OnOk result (IsWhole (state_with text.now records.new)) }
    ensures made { IfOk result (IsMadeOf (state_with text.now records.new)) }
    ensures pages { OnOk result (pages.now.starts ≡ pages_of (state_with text.now records.new)) }
    ensures same { OnErr result (records.new ≡ records.old) }
{
    let before = records.set_speakers(on);
    match remade(alloc, text, records, pages, titles) {
        Ok(made) => Ok(made),
        Err(error) => {
            records.speakers = before;
            Err(error)
        }
    }
}

/// Sets the paper.
pub(crate) fn made_on<S: Steps>(
    alloc: Global,
    text: &Text,
    records: &mut Records,
    paper: Paper,
    steps: &mut S,
) -> Result<(Made, Pages), AllocError>
    requires whole { IsWhole (state_with text.now records.old) }
    ensures records { OnOk result (records.new ≡ record records.old { paper = paper }) }
    ensures whole { OnOk result (IsWhole (state_with text.now records.new)) }
    ensures made { IfOk result (λ it. IsMadeOf (state_with text.now records.new) it.0) }
    ensures pages { IfOk result (λ it. it.1.starts ≡ pages_of (state_with text.now records.new)) }
    ensures fills { OnOk result (FillsAll (state_with text.now (record records.old { paper = paper }))
        (S.fills steps.old) (S.fills steps.new)) }
    ensures at_most { FillsAtMostAll (state_with text.now (record records.old { paper = paper }))
        (S.fills steps.old) (S.fills steps.new) }
    ensures same { OnErr result (records.new ≡ records.old) }
    ensures reads { S.reads steps.new ≡ S.reads steps.old }
{
    let before = mem::replace(&mut records.paper, paper);
    match make(alloc, text, records, steps) {
        Ok(it) => Ok(it),
        Err(error) => {
            records.paper = before;
            Err(error)
        }
    }
}

/// Turns an entry where there is room.
fn turn_in_room(text: &mut Text, records: &mut Records, entry: TextEntry) -> TextEntry
    requires can { CanTurnText (state_with text.old records.old) entry }
    requires room { HasTextRoom text.old entry }
    ensures state { state_with text.new records.new ≡ turned_text (state_with text.old records.old) entry }
    ensures entry { IsTextTurned (state_with text.old records.old) entry result }
{
    match turn_entry(text, records, entry) {
        Ok(other) => other,
        Err(_) => unreachable!(),
    }
}

/// Takes an edit back from its text and its layout where there is room.
fn take_back(
    text: &mut Text,
    records: &mut Records,
    layout: &mut KeptLayout,
    entry: TextEntry,
    change: LayoutChange,
)
    requires can { CanTurnText (state_with text.old records.old) entry }
    requires room { HasTextRoom text.old entry }
    requires can_change { CanChange (laid_of layout.old) change }
    requires layout_room { HasChangeRoom layout.old change }
    ensures state { state_with text.new records.new ≡ turned_text (state_with text.old records.old) entry }
    ensures layout { laid_of layout.new ≡ with_change (laid_of layout.old) change }
{
    let _change = change_in_room(layout, change);
    let _entry = turn_in_room(text, records, entry);
}

/// The first rows of page records: those that are known, or else those that are found. They are known no longer.
fn firsts_before(
    alloc: Global,
    lines: &Lines,
    records: &Records,
    layout: &KeptLayout,
    known: &mut Option<Vec<usize>>,
) -> Result<Vec<usize>, AllocError>
    requires whole { IsWhole (state_in lines.now records.now) }
    requires laid { IsLaidOf (state_in lines.now records.now) (laid_of layout.now) }
    requires known { IfSome known.old (λ those. those.items ≡ first_rows (state_in lines.now records.now)) }
    ensures found { IfOk result (λ those. those.items ≡ first_rows (state_in lines.now records.now)) }
    ensures forgotten { known.new ≡ None }
{
    let none: &[usize] = &[];
    match known.take() {
        Some(firsts) => Ok(firsts),
        None => laid_firsts(alloc, lines, records, layout, none),
    }
}

/// Makes an edit. What it changes of the layout is laid out anew, the pages of its page window are filled again, and
/// sheets are made those of the new state; so are labels where a heading comes or goes, and title sheets where an element of a
/// title page does. The first rows of page records are found once, and once more where those before the edit aren't known. A fault
/// forgets them, and changes nothing else.
pub(crate) fn edit_made<S: Steps>(
    alloc: Global,
    text: &mut Text,
    records: &mut Records,
    made: &mut Made,
    starts: &mut PageStarts,
    edit: Edit,
    steps: &mut S,
) -> Result<Entry, EditFault>
    requires whole { IsWhole (state_with text.old records.old) }
    requires made { IsMadeOf (state_with text.old records.old) made.old }
    requires pages { starts.old.pages.starts ≡ pages_of (state_with text.old records.old) }
    requires firsts { IfSome starts.old.firsts (λ those.
        those.items ≡ first_rows (state_with text.old records.old)) }
    ensures refuses { Refuses (refusal_in text.old.lines edit) result }
    ensures state { OnOk result (state_with text.new records.new ≡ edited_by (state_with text.old records.old) edit) }
    ensures whole { OnOk result (IsWhole (state_with text.new records.new)) }
    ensures back { IfOk result (Leads (state_with text.new records.new) (state_with text.old records.old)) }
    ensures range { IfOk result (λ it. done_range it ≡ range_in text.old.lines edit) }
    ensures window { IfOk result (HoldsWindow (text_of text.old.lines) (text_of text.new.lines)
        (range_in text.old.lines edit)) }
    ensures few { IfOk result (HoldsFew (text_of text.new.lines)) }
    ensures made { IsMadeOf (state_with text.new records.new) made.new }
    ensures firsts { IfSome starts.new.firsts (λ those.
        those.items ≡ first_rows (state_with text.new records.new)) }
    ensures pages { starts.new.pages.starts ≡ pages_of (state_with text.new records.new) }
    ensures same { OnErr result (state_with text.new records.new ≡ state_with text.old records.old) }
    ensures reads { OnOk result (ReadsEdit (state_with text.old records.old) edit
        (S.reads steps.old) (S.reads steps.new)) }
    ensures at_most { ReadsEditAtMost (state_with text.old records.old) edit (S.reads steps.old) (S.reads steps.new) }
    ensures unread { IsRefused (refusal_in text.old.lines edit) → S.reads steps.new ≡ S.reads steps.old }
    ensures fills { OnOk result (FillsEdit (state_with text.old records.old) edit
        (S.fills steps.old) (S.fills steps.new)) }
    ensures fills_at_most { FillsEditAtMost (state_with text.old records.old) edit
        (S.fills steps.old) (S.fills steps.new) }
    ensures unfilled { IsRefused (refusal_in text.old.lines edit) → S.fills steps.new ≡ S.fills steps.old }
{
    let before = firsts_before(
        alloc,
        text.lines(),
        records,
        &made.layout,
        &mut starts.firsts,
    )?;
    let EditedText {
        text: entry,
        layout: change,
        rows,
        firsts: after,
    } = edit_entry(alloc, text, records, &mut made.layout, &before, edit, steps)?;
    let keeps_labels = keeps_headings(&made.layout, &change);
    let keeps_titles = leaves_titles(&change);
    let keeps_firsts = before.as_slice() == after.as_slice();
    let keeps = Keeps {
        labels: keeps_labels,
        titles: keeps_titles,
        pages: keeps_firsts,
    };
    let laid = LaidState::new(text, records, &made.layout, &after);
    match refilled(
        alloc,
        &laid,
        &rows,
        keeps,
        &mut starts.pages,
        &mut made.numbered,
        steps,
    ) {
        Ok(swapped) => {
            starts.firsts = Some(after);
            Ok(Entry {
                text: entry,
                layout: change,
                pages: swapped,
            })
        }
        Err(_) => {
            take_back(text, records, &mut made.layout, entry, change);
            Err(EditFault::NoMemory)
        }
    }
}

/// Turns an entry: undoes an edit, or does it again. Nothing is laid out and no page filled; sheets are made those of the new
/// state, and so are labels where a heading comes or goes, and title sheets where an element of a title page does. The first rows of
/// page records are looked for once. On an error there was no memory, nothing is changed, and an entry that can be turned is handed
/// back.
pub(crate) fn turn_made(
    alloc: Global,
    text: &mut Text,
    records: &mut Records,
    made: &mut Made,
    starts: &mut PageStarts,
    entry: Entry,
) -> Result<Entry, Unturned>
    requires can { CanTurn (state_with text.old records.old) entry }
    requires made { IsMadeOf (state_with text.old records.old) made.old }
    requires pages { starts.old.pages.starts ≡ pages_of (state_with text.old records.old) }
    requires firsts { IfSome starts.old.firsts (λ those.
        those.items ≡ first_rows (state_with text.old records.old)) }
    requires was_whole { IsWhole (state_with text.old records.old) }
    requires whole { IsWhole (turned_state (state_with text.old records.old) entry) }
    ensures state { OnOk result
        (state_with text.new records.new ≡ turned_state (state_with text.old records.old) entry) }
    ensures back { IfOk result (Leads (state_with text.new records.new) (state_with text.old records.old)) }
    ensures range { IfOk result (λ it. done_range it ≡ turned_range entry) }
    ensures few { HoldsFew (text_of text.old.lines) entry → IfOk result (HoldsFew (text_of text.new.lines)) }
    ensures made { IsMadeOf (state_with text.new records.new) made.new }
    ensures firsts { IfSome starts.new.firsts (λ those.
        those.items ≡ first_rows (state_with text.new records.new)) }
    ensures pages { starts.new.pages.starts ≡ pages_of (state_with text.new records.new) }
    ensures same { OnErr result (state_with text.new records.new ≡ state_with text.old records.old) }
    ensures handed_back { IfErr result (λ error. IsSameEntry error.back entry) }
    ensures again { IfErr result (λ error. CanTurn (state_with text.old records.old) error.back) }
{
    let _lines = text.lines();
    let Entry {
        text: of_text,
        layout: change,
        pages,
    } = entry;
    let back = LayoutEntry {
        layout: change,
        pages,
    };
    match turn_entry(text, records, of_text) {
        Ok(other) => match turn_layout(
            alloc,
            text,
            records,
            &mut made.layout,
            starts,
            back,
            &mut made.numbered,
        ) {
            Ok(LayoutEntry { layout, pages }) => {
                return Ok(Entry {
                    text: other,
                    layout,
                    pages,
                });
            }
            Err(
                UnturnedLayout {
                    back: LayoutEntry { layout, pages },
                },
            ) => {
                starts.firsts = None;
                let of_text = turn_in_room(text, records, other);
                Err(Unturned {
                    back: Entry {
                        text: of_text,
                        layout,
                        pages,
                    },
                })
            }
        },
        Err(UnturnedText { back: of_text }) => {
            starts.firsts = None;
            let LayoutEntry { layout, pages } = back;
            Err(Unturned {
                back: Entry {
                    text: of_text,
                    layout,
                    pages,
                },
            })
        }
    }
}
