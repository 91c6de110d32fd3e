//! Page records in an edit: they are carried, and those whose rows differ are raised.
ghost use Rattle.std.specs.Prelude.{◌≡◌, ◌+◌, ◌≤◌, IfOk, OnOk, OnErr, length};
ghost use Rattle.spec_text.specs.Limits.{size_limit};
ghost use Rattle.spec_text.specs.Lines.{IsText};
ghost use Rattle.spec_state.specs.Keeping.{IsWhole};
ghost use Rattle.sp_compare.specs.BareRows.{AreLaid};
ghost use Rattle.sp_layout.specs.Bodies.{row_count};
ghost use Rattle.sp_layout.specs.Changes.{CanChange};
ghost use Rattle.sp_layout.specs.Kept.{laid_of};
ghost use Rattle.sp_sheets.specs.Firsts.{IsLaidOf, first_rows};
ghost use Rattle.sp_text_entry.specs.TextEntries.{had_by};
ghost use Rattle.sp_text_entry.specs.Raised.{AreCarried, FitPages, put_back_in, old_text, old_state, carried_by, carried_state, raised_by, LeadRecordsBack};
ghost use Rattle.sp_text_entry.specs.Relaid.{others_of, old_body_in, both_in, KeepsOutside, HasSegments, AreRaisedIn, old_layout_in};
ghost use Rattle.sp_sheets.specs.States.{state_in};

use sp_compare::{BothTexts, OtherRows, RunPlaces, raises};
use sp_layout::{KeptLayout, LayoutChange, SpeechRows};
use sp_locks::{carry, put_back};
use sp_records::Records;
use sp_sheets::laid_firsts;
use sp_text::{Displaced, Lines, OldLines};
use spec_labels::Moved;
use std::alloc::{AllocError, Global};

/// Carries the page records of removed lines, where pages are locked, and answers the anchors that they had.
fn carry_pages(
    alloc: Global,
    records: &mut Records,
    lines: &Lines,
    displaced: &Displaced,
) -> Result<Vec<Moved>, AllocError>
    requires { AreCarried lines.now.lines displaced.now.lines records.old }
    ensures records { OnOk result (records.new ≡ carried_by lines.now displaced.now records.old) }
    ensures fits { IfOk result (λ moved. FitPages records.new moved.items) }
    ensures back { IfOk result (λ moved. put_back_in moved.items records.new ≡ records.old) }
    ensures same { OnErr result (records.new ≡ records.old) }
{
    match &mut records.pages {
        None => Ok(Vec::new(alloc)),
        Some(pages) => carry(alloc, pages, lines, displaced),
    }
}

/// Exchanges the anchors and rounds of page records with those that are kept for them.
pub(crate) fn put_back_pages(records: &mut Records, moved: &mut Vec<Moved>)
    requires { FitPages records.old moved.old.items }
    ensures records { records.new ≡ put_back_in moved.old.items records.old }
    ensures had { moved.new.items ≡ had_by records.old.pages moved.old.items }
    ensures fits { FitPages records.new moved.new.items }
    ensures back { put_back_in moved.new.items records.new ≡ records.old }
{
    if let Some(pages) = &mut records.pages {
        put_back(pages, moved);
    }
}

/// The rows of a speech as those that an element of the body had.
fn other_rows(speech: &Option<SpeechRows>) -> Option<OtherRows<'_>>
    ensures { result ≡ others_of speech.now }
{
    match speech {
        Some(speech) => Some(OtherRows {
            element: speech.element,
            rows: &speech.rows,
        }),
        None => None,
    }
}

/// A text before an edit and after it, with its rows. `gone` is what the edit changed of the layout.
fn both_texts<'a>(
    lines: &'a Lines,
    displaced: &'a Displaced,
    layout: &'a KeptLayout,
    gone: &'a LayoutChange,
) -> BothTexts<'a>
    requires place { displaced.now.first + displaced.now.stands ≤ length lines.now.lines }
    requires text { IsText (old_text lines.now displaced.now) }
    requires news { AreLaid lines.now.lines (laid_of layout.now).body }
    requires can_change { CanChange (laid_of layout.now) gone.now }
    requires few { row_count (old_body_in layout.now gone.now).elements ≤ size_limit }
    requires olds { AreLaid (old_text lines.now displaced.now).lines (old_body_in layout.now gone.now) }
    requires outside { KeepsOutside lines.now displaced.now layout.now gone.now }
    ensures { result ≡ both_in lines.now displaced.now layout.now gone.now }
{
    let part = &gone.part;
    let places = part.places;
    let olds = &part.kept;
    let at = RunPlaces {
        from: places.from,
        to: places.to,
        less: places.less,
        more: places.more,
    };
    let others = other_rows(&gone.speech);
    BothTexts::exchanged(
        OldLines::new(lines, displaced),
        &olds.body,
        at,
        others,
        lines,
        &layout.body,
    )
}

/// The rounds that page records get, and the first rows of the records.
#[derive(Drop)]
struct Raised {
    raised: Vec<Moved>,
    firsts: Vec<usize>,
}

/// The rounds that the page records get whose rows differ, and the first rows of the records; none where pages aren't locked.
/// `gone` is what the edit changed of the layout, and `before` the first rows that the records had.
fn raises_among(
    alloc: Global,
    lines: &Lines,
    displaced: &Displaced,
    records: &Records,
    before: &[usize],
    layout: &KeptLayout,
    gone: &LayoutChange,
) -> Result<Raised, AllocError>
    requires whole { IsWhole (state_in lines.now records.now) }
    requires place { displaced.now.first + displaced.now.stands ≤ length lines.now.lines }
    requires text { IsText (old_text lines.now displaced.now) }
    requires laid { IsLaidOf (state_in lines.now records.now) (laid_of layout.now) }
    requires can_change { CanChange (laid_of layout.now) gone.now }
    requires few { row_count (old_body_in layout.now gone.now).elements ≤ size_limit }
    requires olds { AreLaid (old_text lines.now displaced.now).lines (old_body_in layout.now gone.now) }
    requires outside { KeepsOutside lines.now displaced.now layout.now gone.now }
    requires before { HasSegments (old_body_in layout.now gone.now) records.now before.now }
    ensures raised { IfOk result (λ it. AreRaisedIn (both_in lines.now displaced.now layout.now gone.now)
        before.now (state_in lines.now records.now) it.raised.items) }
    ensures firsts { IfOk result (λ it. it.firsts.items ≡ first_rows (state_in lines.now records.now)) }
{
    let firsts = laid_firsts(alloc, lines, records, layout, before)?;
    let Some(pages) = &records.pages else {
        return Ok(Raised {
            raised: Vec::new(alloc),
            firsts,
        });
    };
    let texts = both_texts(lines, displaced, layout, gone);
    let raised = raises(alloc, &texts, before, &firsts, pages, records.round)?;
    Ok(Raised { raised, firsts })
}

/// The anchors that page records had that were carried, the rounds that those had that were raised, and the first rows of all.
#[derive(Drop)]
pub(crate) struct Carried {
    pub moved: Vec<Moved>,
    pub raised: Vec<Moved>,
    pub firsts: Vec<usize>,
}

/// Carries page records after an edit, and gives those the round whose rows differ. `gone` is what the edit changed of the
/// layout, and `before` the first rows that the records had.
pub(crate) fn carry_and_raise(
    alloc: Global,
    lines: &Lines,
    displaced: &Displaced,
    records: &mut Records,
    before: &[usize],
    layout: &KeptLayout,
    gone: &LayoutChange,
) -> Result<Carried, AllocError>
    requires place { displaced.now.first + displaced.now.stands ≤ length lines.now.lines }
    requires whole { IsWhole (old_state lines.now displaced.now records.old) }
    requires carried { IsWhole (carried_state lines.now displaced.now records.old) }
    requires can { AreCarried lines.now.lines displaced.now.lines records.old }
    requires laid { IsLaidOf (state_in lines.now records.old) (laid_of layout.now) }
    requires can_change { CanChange (laid_of layout.now) gone.now }
    requires was { IsLaidOf (old_state lines.now displaced.now records.old) (old_layout_in layout.now gone.now) }
    requires outside { KeepsOutside lines.now displaced.now layout.now gone.now }
    requires before { before.now ≡ first_rows (old_state lines.now displaced.now records.old) }
    ensures records { OnOk result (records.new ≡ raised_by lines.now displaced.now records.old) }
    ensures raised { IfOk result (λ it. FitPages records.new it.raised.items) }
    ensures moved { IfOk result (λ it. FitPages (put_back_in it.raised.items records.new) it.moved.items) }
    ensures back { IfOk result (λ it. LeadRecordsBack records.new it.raised.items it.moved.items records.old) }
    ensures firsts { IfOk result (λ it. it.firsts.items ≡ first_rows (state_in lines.now records.new)) }
    ensures same { OnErr result (records.new ≡ records.old) }
{
    let mut moved = carry_pages(alloc, records, lines, displaced)?;
    match raises_among(alloc, lines, displaced, records, before, layout, gone) {
        Ok(Raised { mut raised, firsts }) => {
            put_back_pages(records, &mut raised);
            Ok(Carried {
                moved,
                raised,
                firsts,
            })
        }
        Err(error) => {
            put_back_pages(records, &mut moved);
            Err(error)
        }
    }
}
