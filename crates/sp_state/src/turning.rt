//! The layout and the first rows of pages after an edit, and after it is undone or done again.
ghost use Rattle.std.specs.Prelude.{◌≡◌, ◌+◌, ◌-◌, ◌≤◌, length, IfErr, IfOk, IfSome, IsTrue, OnErr, OnOk};
ghost use Rattle.std.specs.Bool.{OnTrue};
ghost use Rattle.spec_state.specs.Headings.{heading_labels};
ghost use Rattle.spec_state.specs.Keeping.{IsWhole, records_of};
ghost use Rattle.spec_state.specs.StateSheets.{title_starts};
ghost use Rattle.spec_locked_pages.specs.Segments.{pages_of};
ghost use Rattle.sp_reflow.specs.Updates.{CanPutBack, taken_back, taken_of, with_taken};
ghost use Rattle.sp_layout.specs.Changes.{CanChange, HasChangeRoom, with_change};
ghost use Rattle.sp_layout.specs.Kept.{laid_of};
ghost use Rattle.sp_state.specs.Entries.{StandsBack};
ghost use Rattle.sp_sheets.specs.HeadingIds.{laid_labels};
ghost use Rattle.sp_sheets.specs.Firsts.{IsLaidOf, first_rows};
ghost use Rattle.sp_sheets.specs.Made.{IsNumberedOf};
ghost use Rattle.sp_sheets.specs.Pages.{WerePageSheets, WereUnmarkedSheets};
ghost use Rattle.sp_sheets.specs.Titles.{laid_titles};
ghost use Rattle.sp_sheets.specs.States.{state_with};
ghost use Rattle.sp_state.specs.Fills.{AreStartsBefore, RefillsWindow, RefillsAtMost};
ghost use Rattle.sp_state.specs.Entries.{LeadToSame};

use sp_exchange::Text;
use sp_kit::Steps;
use sp_layout::{KeptLayout, LayoutChange, UnchangedLayout};
use sp_records::Records;
use sp_reflow::{ExchangedRows, Galley, Pages, SwappedPages, UnswappedPages};
use sp_sheets::{
    Keeps, LaidState, Numbered, firsts_stay, keeps_headings, laid_firsts, laid_stops,
    leaves_titles, renumber, rows_on,
};
use sp_text_entry::change_in_room;
use std::alloc::{AllocError, Global};

/// The first rows of pages, and those of page records where they are known.
#[derive(Drop)]
pub(crate) struct PageStarts {
    pub pages: Pages,
    pub firsts: Option<Vec<usize>>,
}

/// What an edit displaced of a layout and of the first rows of pages.
#[derive(Drop)]
pub(crate) struct LayoutEntry {
    pub layout: LayoutChange,
    pub pages: SwappedPages,
}

/// There was no memory; what was to be put back is handed back.
#[derive(Drop)]
pub(crate) struct UnturnedLayout {
    pub back: LayoutEntry,
}

/// Puts page starts back where there is room.
fn put_back_in_room(pages: &mut Pages, back: SwappedPages) -> SwappedPages
    requires can { CanPutBack pages.old.starts back }
    requires room { length pages.old.starts - back.stands + length back.starts ≤ pages.old.room }
    requires back_room { back.stands ≤ back.room }
    ensures starts { pages.new.starts ≡ with_taken pages.old.starts back }
    ensures turned { taken_of result ≡ taken_back pages.old.starts back }
{
    match pages.put_back(back) {
        Ok(other) => other,
        Err(_) => unreachable!(),
    }
}

/// Fills the pages of the page window again, where rows were exchanged.
fn update_pages<S: Steps>(
    alloc: Global,
    laid: &LaidState<'_>,
    rows: &ExchangedRows,
    pages: &mut Pages,
    steps: &mut S,
) -> Result<SwappedPages, AllocError>
    requires { AreStartsBefore laid.now rows.now pages.old.starts }
    ensures pages { OnOk result (pages.new.starts ≡ pages_of laid.now) }
    ensures back { IfOk result (λ it. with_taken pages.new.starts it ≡ pages.old.starts) }
    ensures can { IfOk result (λ it. CanPutBack pages.new.starts it) }
    ensures back_room { IfOk result (λ it. it.stands ≤ it.room) }
    ensures returns { IfOk result (λ it. length pages.new.starts - it.stands + length it.starts ≤ pages.new.room) }
    ensures fills { OnOk result
        (RefillsWindow laid.now rows.now pages.old.starts (S.fills steps.old) (S.fills steps.new)) }
    ensures at_most { RefillsAtMost laid.now rows.now pages.old.starts (S.fills steps.old) (S.fills steps.new) }
    ensures reads { S.reads steps.new ≡ S.reads steps.old }
    ensures same { OnErr result (pages.new.starts ≡ pages.old.starts) }
{
    let layout = laid.layout();
    let records = laid.records();
    let stops = laid_stops(alloc, layout, laid.firsts())?;
    let galley = Galley::new(layout.body.shapes(), &stops, rows_on(records.paper));
    pages.update(&galley, rows, steps)
}

/// Whether the first rows of page records and those of pages stayed, where putting these back would make the latter those before.
fn pages_stay(keeps_firsts: bool, pages: &Pages, swapped: &SwappedPages) -> bool
    requires { CanPutBack pages.now.starts swapped.now }
    ensures firsts { OnTrue result (IsTrue keeps_firsts) }
    ensures pages { OnTrue result (with_taken pages.now.starts swapped.now ≡ pages.now.starts) }
{
    keeps_firsts && swapped.leaves(pages.starts())
}

/// Makes page starts, labels and sheets those of a state after an edit, by the rows that it exchanged: the pages of the page window
/// are filled again. What may be kept of labels and sheets is kept, the sheets of locked pages only if pages stay too. On an error
/// there was no memory, and nothing is changed.
pub(crate) fn refilled<S: Steps>(
    alloc: Global,
    laid: &LaidState<'_>,
    rows: &ExchangedRows,
    keeps: Keeps,
    pages: &mut Pages,
    numbered: &mut Numbered,
    steps: &mut S,
) -> Result<SwappedPages, AllocError>
    requires stale { AreStartsBefore laid.now rows.now pages.old.starts }
    requires labels { IsTrue keeps.labels → numbered.old.labels ≡ heading_labels laid.now.lines laid.now.scenes }
    requires titles { IsTrue keeps.titles → numbered.old.title_starts ≡ title_starts laid.now }
    requires sheets { WereUnmarkedSheets (records_of laid.now) pages.old.starts numbered.old.sheets }
    requires kept { IsTrue keeps.pages
        → WerePageSheets (records_of laid.now) (first_rows laid.now) pages.old.starts numbered.old.sheets }
    ensures pages { OnOk result (pages.new.starts ≡ pages_of laid.now) }
    ensures back { IfOk result (λ it. with_taken pages.new.starts it ≡ pages.old.starts) }
    ensures can { IfOk result (λ it. CanPutBack pages.new.starts it) }
    ensures numbered { OnOk result (IsNumberedOf laid.now numbered.new) }
    ensures same_numbered { OnErr result (numbered.new ≡ numbered.old) }
    ensures fills { OnOk result
        (RefillsWindow laid.now rows.now pages.old.starts (S.fills steps.old) (S.fills steps.new)) }
    ensures at_most { RefillsAtMost laid.now rows.now pages.old.starts (S.fills steps.old) (S.fills steps.new) }
    ensures reads { S.reads steps.new ≡ S.reads steps.old }
    ensures same { OnErr result (pages.new.starts ≡ pages.old.starts) }
{
    let swapped = update_pages(alloc, laid, rows, pages, steps)?;
    let keeps = Keeps {
        labels: keeps.labels,
        titles: keeps.titles,
        pages: pages_stay(keeps.pages, pages, &swapped),
    };
    match renumber(alloc, laid, pages, &swapped, keeps, numbered) {
        Ok(()) => Ok(swapped),
        Err(error) => {
            let _other = put_back_in_room(pages, swapped);
            Err(error)
        }
    }
}

/// Makes page starts, labels and sheets those of a state after an edit was undone or done again, by the page starts that it
/// displaced. It fills no page. What may be kept of labels and sheets is kept, the sheets of locked pages only if pages stay too. On
/// an error there was no memory, and page starts, labels and sheets are as they were.
fn turned_pages(
    alloc: Global,
    laid: &LaidState<'_>,
    keeps: Keeps,
    pages: &mut Pages,
    back: SwappedPages,
    numbered: &mut Numbered,
) -> Result<SwappedPages, UnswappedPages>
    requires can { CanPutBack pages.old.starts back }
    requires leads { with_taken pages.old.starts back ≡ pages_of laid.now }
    requires labels { IsTrue keeps.labels → numbered.old.labels ≡ heading_labels laid.now.lines laid.now.scenes }
    requires titles { IsTrue keeps.titles → numbered.old.title_starts ≡ title_starts laid.now }
    requires sheets { WereUnmarkedSheets (records_of laid.now) pages.old.starts numbered.old.sheets }
    requires kept { IsTrue keeps.pages
        → WerePageSheets (records_of laid.now) (first_rows laid.now) pages.old.starts numbered.old.sheets }
    ensures pages { OnOk result (pages.new.starts ≡ pages_of laid.now) }
    ensures back { IfOk result (λ it. with_taken pages.new.starts it ≡ pages.old.starts) }
    ensures can { IfOk result (λ it. CanPutBack pages.new.starts it) }
    ensures numbered { OnOk result (IsNumberedOf laid.now numbered.new) }
    ensures same_numbered { OnErr result (numbered.new ≡ numbered.old) }
    ensures same { OnErr result (pages.new.starts ≡ pages.old.starts) }
    ensures handed_back { IfErr result (λ error. taken_of error.back ≡ taken_of back) }
{
    let other = pages.put_back(back)?;
    let keeps = Keeps {
        labels: keeps.labels,
        titles: keeps.titles,
        pages: pages_stay(keeps.pages, pages, &other),
    };
    match renumber(alloc, laid, pages, &other, keeps, numbered) {
        Ok(()) => Ok(other),
        Err(_) => {
            let back = put_back_in_room(pages, other);
            Err(UnswappedPages { back })
        }
    }
}

/// Takes a change of a layout back where there is room, and hands it back with page starts.
fn unturned(layout: &mut KeptLayout, change: LayoutChange, pages: SwappedPages) -> UnturnedLayout
    requires can { CanChange (laid_of layout.old) change }
    requires room { HasChangeRoom layout.old change }
    ensures layout { laid_of layout.new ≡ with_change (laid_of layout.old) change }
    ensures back { with_change (laid_of layout.new) result.back.layout ≡ laid_of layout.old }
    ensures can { CanChange (laid_of layout.new) result.back.layout }
    ensures pages { result.back.pages ≡ pages }
{
    let back = change_in_room(layout, change);
    UnturnedLayout {
        back: LayoutEntry {
            layout: back,
            pages,
        },
    }
}

/// Makes layout, page starts, labels and sheets those of a state after an edit was undone or done again, by what the edit displaced
/// of layout and page starts, and finds the first rows of page records, first as far apart as those that are known. It lays out
/// nothing and fills no page, and keeps the labels where no heading comes or goes, and the title sheets where no element of a title
/// page does. Where known first rows and page starts stay, the sheets of locked pages may be kept but for their rounds. On an error
/// there was no memory, all four are as they were, and what is handed back leads where what was to be put back led.
pub(crate) fn turn_layout(
    alloc: Global,
    text: &Text,
    records: &Records,
    layout: &mut KeptLayout,
    starts: &mut PageStarts,
    back: LayoutEntry,
    numbered: &mut Numbered,
) -> Result<LayoutEntry, UnturnedLayout>
    requires whole { IsWhole (state_with text.now records.now) }
    requires can_change { CanChange (laid_of layout.old) back.layout }
    requires laid { IsLaidOf (state_with text.now records.now) (with_change (laid_of layout.old) back.layout) }
    requires can { CanPutBack starts.old.pages.starts back.pages }
    requires leads { with_taken starts.old.pages.starts back.pages ≡ pages_of (state_with text.now records.now) }
    requires labels { numbered.old.labels ≡ laid_labels (laid_of layout.old) (records.now).scenes }
    requires titles { numbered.old.title_starts ≡ laid_titles (laid_of layout.old) (records.now).paper }
    requires sheets { WereUnmarkedSheets records.now starts.old.pages.starts numbered.old.sheets }
    requires kept { IfSome starts.old.firsts (λ those.
        WerePageSheets records.now those.items starts.old.pages.starts numbered.old.sheets) }
    ensures laid { OnOk result (IsLaidOf (state_with text.now records.now) (laid_of layout.new)) }
    ensures places { IfOk result (λ it. StandsBack back.layout it.layout) }
    ensures layout_back { IfOk result (λ it. with_change (laid_of layout.new) it.layout ≡ laid_of layout.old) }
    ensures can_change { IfOk result (λ it. CanChange (laid_of layout.new) it.layout) }
    ensures pages { OnOk result (starts.new.pages.starts ≡ pages_of (state_with text.now records.now)) }
    ensures back { IfOk result (λ it. with_taken starts.new.pages.starts it.pages ≡ starts.old.pages.starts) }
    ensures can { IfOk result (λ it. CanPutBack starts.new.pages.starts it.pages) }
    ensures firsts { OnOk result
        (IfSome starts.new.firsts (λ those. those.items ≡ first_rows (state_with text.now records.now))) }
    ensures numbered { OnOk result (IsNumberedOf (state_with text.now records.now) numbered.new) }
    ensures same_numbered { OnErr result (numbered.new ≡ numbered.old) }
    ensures same { OnErr result (starts.new.pages.starts ≡ starts.old.pages.starts) }
    ensures same_layout { OnErr result (laid_of layout.new ≡ laid_of layout.old) }
    ensures handed_back { IfErr result (λ error. taken_of error.back.pages ≡ taken_of back.pages) }
    ensures again { IfErr result (λ error. CanChange (laid_of layout.old) error.back.layout) }
    ensures leads_again { IfErr result (λ error. LeadToSame layout.old error.back.layout back.layout) }
{
    let LayoutEntry {
        layout: change,
        pages: back,
    } = back;
    match layout.change(change) {
        Ok(other) => {
            let none: &[usize] = &[];
            let near = match &starts.firsts {
                Some(firsts) => firsts.as_slice(),
                None => none,
            };
            let Ok(firsts) = laid_firsts(alloc, text.lines(), records, layout, near) else {
                return Err(unturned(layout, other, back));
            };
            let keeps_labels = keeps_headings(layout, &other);
            let keeps_titles = leaves_titles(&other);
            let keeps_firsts = firsts_stay(&starts.firsts, &firsts);
            let keeps = Keeps {
                labels: keeps_labels,
                titles: keeps_titles,
                pages: keeps_firsts,
            };
            let laid = LaidState::new(text, records, layout, &firsts);
            match turned_pages(alloc, &laid, keeps, &mut starts.pages, back, numbered) {
                Ok(pages) => {
                    starts.firsts = Some(firsts);
                    Ok(LayoutEntry {
                        layout: other,
                        pages,
                    })
                }
                Err(UnswappedPages { back }) => Err(unturned(layout, other, back)),
            }
        }
        Err(UnchangedLayout { back: change }) => Err(UnturnedLayout {
            back: LayoutEntry {
                layout: change,
                pages: back,
            },
        }),
    }
}
