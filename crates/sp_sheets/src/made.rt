//! What is made of a state: its elements in rows, the labels of its headings, and its sheets.
ghost use Rattle.std.specs.Prelude.{◌≡◌, option_map, vec_items, None, IfNone, IfOk, IfSome, IsTrue, OnErr, OnOk};
ghost use Rattle.std.specs.Bool.{OnFalse};
ghost use Rattle.spec_pages.specs.Pages.{rows_on};
ghost use Rattle.spec_state.specs.Headings.{heading_labels};
ghost use Rattle.spec_state.specs.StateSheets.{body_sheets, title_starts};
ghost use Rattle.spec_state.specs.Keeping.{IsWhole, records_of};
ghost use Rattle.spec_state.specs.State.{State};
ghost use Rattle.spec_locked_pages.specs.Segments.{pages_of};
ghost use Rattle.sp_reflow.specs.Updates.{with_taken, CanPutBack};
ghost use Rattle.sp_layout.specs.Kept.{laid_of};
ghost use Rattle.sp_sheets.specs.Firsts.{IsLaidOf, first_rows, laid_in};
ghost use Rattle.sp_sheets.specs.Made.{IsMadeOf, IsNumberedOf};
ghost use Rattle.sp_sheets.specs.Pages.{AreStopsOf, FillsAll, FillsAtMostAll, labels_in, locked_starts_in, numbered_on, WerePageSheets, WereUnmarkedSheets};
ghost use Rattle.sp_sheets.specs.Numbered.{AreMovedOutside};
ghost use Rattle.sp_sheets.specs.States.{state_in, state_with};

use crate::title_rows::{changed_titles, made_titles};
use crate::{
    LaidState, Made, Numbered, Stale, heading_lines, laid_firsts, merged_stops, renew_locked,
    renew_sheets, stale_places,
};
use sp_exchange::Text;
use sp_kit::Steps;
use sp_labels::Label;
use sp_layout::{KeptLayout, lay_out_text};
use sp_locks::Sheet;
use sp_records::Records;
use sp_reflow::{Pages, SwappedPages};
use sp_reread::placed_blocks;
use sp_scenes::numbers_of_lines;
use sp_text::Lines;
use spec_pages::Paper;
use std::alloc::{AllocError, Global};

/// How many body rows a page of the paper has.
pub fn rows_on(paper: Paper) -> u32
    ensures { result ≡ rows_on paper }
{
    match paper {
        Paper::Letter => 54,
        Paper::A4 => 58,
    }
}

/// The labels of the headings of a text where scenes are locked.
fn made_labels(
    alloc: Global,
    text: &Text,
    records: &Records,
) -> Result<Option<Vec<Label>>, AllocError>
    requires { IsWhole (state_with text.now records.now) }
    ensures { IfOk result (λ labels. option_map vec_items labels ≡ labels_in text.now.lines records.now) }
{
    match &records.scenes {
        None => Ok(None),
        Some(scenes) => {
            let ids = heading_lines(alloc, text.lines(), text.stanzas())?;
            Ok(Some(numbers_of_lines(alloc, &ids, scenes.as_slice())?))
        }
    }
}

/// None where the labels that there are may be kept, else the labels of the headings of a text; of these there are none where scenes
/// aren't locked.
fn changed_labels(
    alloc: Global,
    text: &Text,
    records: &Records,
    keeps: bool,
) -> Result<Option<Option<Vec<Label>>>, AllocError>
    requires { IsWhole (state_with text.now records.now) }
    ensures made { IfOk result (λ changed. IfSome changed (λ labels.
        option_map vec_items labels ≡ labels_in text.now.lines records.now)) }
    ensures kept { IfOk result (λ changed. IfNone changed (IsTrue keeps)) }
{
    if keeps {
        return Ok(None);
    }
    let labels = made_labels(alloc, text, records)?;
    Ok(Some(labels))
}

/// The first rows of the page records of a state that this was made of; none where pages aren't locked.
pub fn made_starts(
    alloc: Global,
    lines: &Lines,
    records: &Records,
    made: &Made,
) -> Result<Vec<usize>, AllocError>
    requires whole { IsWhole (state_in lines.now records.now) }
    requires made { IsMadeOf (state_in lines.now records.now) made.now }
    ensures { IfOk result (λ starts. starts.items ≡ locked_starts_in (state_in lines.now records.now)) }
{
    let none: &[usize] = &[];
    laid_firsts(alloc, lines, records, &made.layout, none)
}

/// Whether rows may be marked.
fn may_be_marked(records: &Records) -> bool
    ensures { OnFalse result ((records.now).round ≡ 0) }
{
    records.round > 0
}

/// Makes sheets those of a state's pages: those of its page records where pages are locked, else numbered ones, of which only the
/// stale ones are set anew or moved. Where records with the same labels had the same first rows and pages, locked sheets may be kept
/// but for their rounds. On an error there was no memory, and they are as they were.
fn renew_body_sheets(
    alloc: Global,
    laid: &LaidState<'_>,
    pages: &[usize],
    stale: Stale,
    keeps_pages: bool,
    sheets: &mut Vec<Sheet>,
) -> Result<(), AllocError>
    requires kept { IsTrue keeps_pages
        → WerePageSheets (records_of laid.now) (first_rows laid.now) pages.now sheets.old.items }
    requires stale { AreMovedOutside sheets.old.items (numbered_on (laid_in laid.now).body.elements pages.now) stale }
    requires pages { pages.now ≡ pages_of laid.now }
    ensures made { OnOk result (sheets.new.items ≡ body_sheets laid.now) }
    ensures same { OnErr result (sheets.new.items ≡ sheets.old.items) }
{
    let layout = laid.layout();
    let records = laid.records();
    match &records.pages {
        None => {
            let marks = layout.body.marks();
            renew_sheets(alloc, marks, may_be_marked(records), pages, stale, sheets)
        }
        Some(those) => {
            let rows = layout.body.rows();
            renew_locked(
                alloc,
                those,
                laid.firsts(),
                pages,
                rows,
                keeps_pages,
                sheets,
            )
        }
    }
}

/// The text of a state laid out, by its stanzas. `AllocError` comes for want of memory alone.
pub fn lay(alloc: Global, text: &Text, records: &Records) -> Result<KeptLayout, AllocError>
    ensures { IfOk result (λ layout. IsLaidOf (state_with text.now records.now) (laid_of layout)) }
{
    let blocks = placed_blocks(alloc, text.stanzas())?;
    let layout = lay_out_text(alloc, text.lines(), &blocks, records.speakers)?;
    Ok(KeptLayout::new(layout))
}

/// The stops of a state whose text is laid out, by the first rows of its page records (docs/RULES.md, "Pages"). `AllocError`
/// comes for want of memory alone.
pub fn laid_stops(
    alloc: Global,
    layout: &KeptLayout,
    firsts: &[usize],
) -> Result<Vec<usize>, AllocError>
    ensures { (state : State) → IsWhole state → IsLaidOf state (laid_of layout.now) → firsts.now ≡ first_rows state
        → IfOk result (λ stops. AreStopsOf state stops.items) }
{
    merged_stops(alloc, &layout.body, &layout.breaks, firsts)
}

/// The first rows of the pages of a state whose text is laid out. Each page of the body is filled once. `AllocError` comes for want
/// of memory alone.
pub fn make_pages<S: Steps>(
    alloc: Global,
    laid: &LaidState<'_>,
    steps: &mut S,
) -> Result<Pages, AllocError>
    ensures pages { IfOk result (λ pages. pages.starts ≡ pages_of laid.now) }
    ensures fills { OnOk result (FillsAll laid.now (S.fills steps.old) (S.fills steps.new)) }
    ensures at_most { FillsAtMostAll laid.now (S.fills steps.old) (S.fills steps.new) }
    ensures reads { S.reads steps.new ≡ S.reads steps.old }
{
    let layout = laid.layout();
    let records = laid.records();
    let stops = laid_stops(alloc, layout, laid.firsts())?;
    Pages::new(
        alloc,
        layout.body.shapes(),
        &stops,
        rows_on(records.paper),
        steps,
    )
}

/// The labels and the sheets of a state whose text is laid out, by the first rows of its pages and of its title sheets. It fills no
/// page. `AllocError` comes for want of memory alone.
pub fn number(
    alloc: Global,
    laid: &LaidState<'_>,
    pages: &Pages,
    titles: Vec<usize>,
) -> Result<Numbered, AllocError>
    requires pages { pages.now.starts ≡ pages_of laid.now }
    requires titles { titles.items ≡ title_starts laid.now }
    ensures { IfOk result (IsNumberedOf laid.now) }
{
    let labels = made_labels(alloc, laid.text(), laid.records())?;
    let mut sheets = Vec::new(alloc);
    let none = Stale {
        from: 0,
        to: 0,
        less: 0,
        more: 0,
    };
    renew_body_sheets(alloc, laid, pages.starts(), none, false, &mut sheets)?;
    Ok(Numbered {
        labels,
        title_starts: titles,
        sheets,
    })
}

/// Whether pages are locked or rows may be marked: then no sheet stays as it is.
fn renews_all(records: &Records) -> bool
    ensures locked { OnFalse result ((records.now).pages ≡ None) }
    ensures round { OnFalse result ((records.now).round ≡ 0) }
{
    records.pages.is_some() || may_be_marked(records)
}

/// What may be kept of the labels and the sheets of a state before an edit: the labels, the title sheets, and the sheets of locked
/// pages but for their rounds.
#[derive(Clone, Copy)]
pub struct Keeps {
    pub labels: bool,
    pub titles: bool,
    pub pages: bool,
}

/// Makes the labels and the sheets those of a state after an edit whose text is laid out, by the first rows of its pages, and by
/// what would make these those before. It fills no page. Labels that are those of the state already may be kept: then no stanza is
/// looked at; and so may title sheets: then no row of the title page is. Where pages aren't locked and the round is 0, sheets before
/// the exchanged pages, but for the one before them, stay as they are, and where as many pages come as go those behind them only
/// move, by the rows that come and go. Where pages are locked and first rows and pages stayed, sheets may be kept but for their
/// rounds. On an error there was no memory, and nothing is changed.
pub fn renumber(
    alloc: Global,
    laid: &LaidState<'_>,
    pages: &Pages,
    swapped: &SwappedPages,
    keeps: Keeps,
    numbered: &mut Numbered,
) -> Result<(), AllocError>
    requires pages { pages.now.starts ≡ pages_of laid.now }
    requires can { CanPutBack pages.now.starts swapped.now }
    requires sheets { WereUnmarkedSheets (records_of laid.now)
        (with_taken pages.now.starts swapped.now) numbered.old.sheets }
    requires labels { IsTrue keeps.labels → numbered.old.labels ≡ heading_labels laid.now.lines laid.now.scenes }
    requires titles { IsTrue keeps.titles → numbered.old.title_starts ≡ title_starts laid.now }
    requires kept { IsTrue keeps.pages
        → WerePageSheets (records_of laid.now) (first_rows laid.now) pages.now.starts numbered.old.sheets }
    ensures numbered { OnOk result (IsNumberedOf laid.now numbered.new) }
    ensures same { OnErr result (numbered.new ≡ numbered.old) }
{
    let titles = changed_titles(alloc, laid, keeps.titles)?;
    let starts = pages.starts();
    let layout = laid.layout();
    let records = laid.records();
    let marks = layout.body.marks();
    let stale = stale_places(&numbered.sheets, marks, renews_all(records), swapped);
    let labels = changed_labels(alloc, laid.text(), records, keeps.labels)?;
    renew_body_sheets(
        alloc,
        laid,
        starts,
        stale,
        keeps.pages,
        &mut numbered.sheets,
    )?;
    if let Some(labels) = labels {
        numbered.labels = labels;
    }
    if let Some(titles) = titles {
        numbered.title_starts = titles;
    }
    Ok(())
}

/// The labels and the sheets of a state whose text is laid out, and the first rows of its pages.
fn numbered_pages<S: Steps>(
    alloc: Global,
    text: &Text,
    records: &Records,
    layout: &KeptLayout,
    steps: &mut S,
) -> Result<(Numbered, Pages), AllocError>
    requires whole { IsWhole (state_with text.now records.now) }
    requires laid { IsLaidOf (state_with text.now records.now) (laid_of layout.now) }
    ensures numbered { IfOk result (λ it. IsNumberedOf (state_with text.now records.now) it.0) }
    ensures pages { IfOk result (λ it. it.1.starts ≡ pages_of (state_with text.now records.now)) }
    ensures fills { OnOk result (FillsAll (state_with text.now records.now) (S.fills steps.old) (S.fills steps.new)) }
    ensures at_most { FillsAtMostAll (state_with text.now records.now) (S.fills steps.old) (S.fills steps.new) }
    ensures reads { S.reads steps.new ≡ S.reads steps.old }
{
    let none: &[usize] = &[];
    let firsts = laid_firsts(alloc, text.lines(), records, layout, none)?;
    let laid = LaidState::new(text, records, layout, &firsts);
    let pages = make_pages(alloc, &laid, steps)?;
    let titles = made_titles(alloc, &laid)?;
    let numbered = number(alloc, &laid, &pages, titles)?;
    Ok((numbered, pages))
}

/// What is made of a state, and the first rows of its pages. Each page of the body is filled once. `AllocError` comes for want of
/// memory alone.
pub fn make<S: Steps>(
    alloc: Global,
    text: &Text,
    records: &Records,
    steps: &mut S,
) -> Result<(Made, Pages), AllocError>
    requires { IsWhole (state_with text.now records.now) }
    ensures made { IfOk result (λ it. IsMadeOf (state_with text.now records.now) it.0) }
    ensures pages { IfOk result (λ it. it.1.starts ≡ pages_of (state_with text.now records.now)) }
    ensures fills { OnOk result (FillsAll (state_with text.now records.now) (S.fills steps.old) (S.fills steps.new)) }
    ensures at_most { FillsAtMostAll (state_with text.now records.now) (S.fills steps.old) (S.fills steps.new) }
    ensures reads { S.reads steps.new ≡ S.reads steps.old }
{
    let layout = lay(alloc, text, records)?;
    let (numbered, pages) = numbered_pages(alloc, text, records, &layout, steps)?;
    Ok((Made { layout, numbered }, pages))
}
