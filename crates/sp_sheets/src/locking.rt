//! Locks and rounds: what they make of the records of a state, and of what is made of it. They read no stanza and fill no
//! page.
ghost use Rattle.std.specs.Prelude.{◌≡◌, ◌<◌, ◌≤◌, [], false, is_some, true, length, option_map, vec_items, All, IfErr, IfOk, IfSome, OnOk};
ghost use Rattle.spec_labels.specs.Scenes.{AreHeadings, AreSceneRecords, extended_records, locked_labels, locked_records, scene_record_limit};
ghost use Rattle.spec_labels.specs.PageRecords.{AreSheets, SheetOf, extended_page_records};
ghost use Rattle.spec_state.specs.Headings.{headings_of};
ghost use Rattle.spec_state.specs.Keeping.{IsWhole};
ghost use Rattle.spec_state.specs.Openings.{pages_locked, round_begun, scenes_extended, scenes_locked};
ghost use Rattle.spec_state.specs.SoundStates.{AreLocked};
ghost use Rattle.spec_machine.specs.Machine.{FewScenes};
ghost use Rattle.spec_machine.specs.Refusals.{are_more, pages_refusal, round_refusal, scenes_refusal};
ghost use Rattle.sp_locks.specs.Extension.{IsMade};
ghost use Rattle.sp_sheets.specs.Made.{IsMadeOf};
ghost use Rattle.sp_sheets.specs.Openings.{ArePagesOpened, CanLockHeadings, IsFull, IsOpening, IsReason, headings_refusal};
ghost use Rattle.sp_sheets.specs.States.{state_with};

use crate::{Made, headings_among};
use sp_exchange::Text;
use sp_labels::{Label, LockFault};
use sp_locks::{PageRecord, extend};
use sp_records::{OpeningFault, Records};
use sp_reread::placed_blocks;
use sp_scenes::{HeadingAt, SceneRecord, extend_scenes, lock_scenes, numbers};
use std::alloc::{AllocError, Global};

/// The greatest round.
const ROUND_LIMIT: u8 = 99;

/// The headings of a text.
fn headings_by(alloc: Global, text: &Text) -> Result<Vec<HeadingAt>, AllocError>
    ensures headings { IfOk result (λ headings. headings.items ≡ headings_of text.now.lines.lines) }
    ensures are { IfOk result (λ headings. AreHeadings headings.items) }
{
    let blocks = placed_blocks(alloc, text.stanzas())?;
    headings_among(alloc, text.lines(), &blocks)
}

/// The records of all headings, and their labels by these.
fn first_scenes(
    alloc: Global,
    scenes: &Option<Vec<SceneRecord>>,
    headings: &[HeadingAt],
) -> Result<(Vec<SceneRecord>, Vec<Label>), OpeningFault>
    requires headings { AreHeadings headings.now }
    ensures can { OnOk result (CanLockHeadings (is_some scenes.now) headings.now) }
    ensures records { IfOk result (λ it. it.0.items ≡ locked_records headings.now) }
    ensures labels { IfOk result (λ it. it.1.items ≡ locked_labels it.0.items headings.now) }
    ensures refused { IfErr result (IsReason (headings_refusal (is_some scenes.now) headings.now)) }
{
    if scenes.is_some() {
        return Err(OpeningFault::ScenesLocked);
    }
    let scenes = lock_scenes(alloc, headings)?;
    let labels = numbers(alloc, headings, Some(scenes.as_slice()))?;
    Ok((scenes, labels))
}

/// Locks the scenes of the state of this text and these records: each heading gets a record of the label that it has without
/// records (docs/RULES.md, "Scene numbers"). Takes what is made of the state, and leaves what is made of the locked one, which
/// has other labels of headings and is else the same. The first of ScenesLocked, SceneForm, SceneOrder and RecordsFull that
/// holds refuses it (docs/RULES.md, "The desk"); NoMemory may come in place of any answer. On a fault nothing is changed.
pub fn lock_scenes_made(
    alloc: Global,
    text: &Text,
    records: &mut Records,
    made: &mut Made,
) -> Result<(), OpeningFault>
    requires whole { IsWhole (state_with text.now records.old) }
    requires made { IsMadeOf (state_with text.now records.old) made.old }
    ensures opening { IsOpening (scenes_refusal (state_with text.now records.old))
        (scenes_locked (state_with text.now records.old)) (state_with text.now records.old)
        (state_with text.now records.new) result }
    ensures whole { IsWhole (state_with text.now records.new) }
    ensures made { IsMadeOf (state_with text.now records.new) made.new }
{
    let headings = headings_by(alloc, text)?;
    let (scenes, labels) = first_scenes(alloc, &records.scenes, &headings)?;
    let numbered = &mut made.numbered;
    records.scenes = Some(scenes);
    numbered.labels = Some(labels);
    Ok(())
}

/// The same records.
fn copies(alloc: Global, records: &[SceneRecord]) -> Result<Vec<SceneRecord>, AllocError>
    ensures { IfOk result (λ copies. copies.items ≡ records.now) }
{
    let mut copies = Vec::with_capacity(alloc, records.len())?;
    for record in records {
        copies.push(SceneRecord {
            label: record.label.copy(alloc)?,
            line: record.line,
        })?;
    }
    Ok(copies)
}

/// The records with one for every heading, in a list of its own.
fn extended(
    alloc: Global,
    records: &[SceneRecord],
    headings: &[HeadingAt],
) -> Result<Vec<SceneRecord>, LockFault>
    requires headings { AreHeadings headings.now }
    requires records { AreSceneRecords records.now }
    ensures few { OnOk result (length (extended_records records.now headings.now) ≤ scene_record_limit) }
    ensures records { IfOk result (λ all. all.items ≡ extended_records records.now headings.now) }
    ensures full { IfErr result (IsFull (scene_record_limit < length (extended_records records.now headings.now))) }
{
    let mut all = copies(alloc, records)?;
    extend_scenes(alloc, &mut all, headings)?;
    Ok(all)
}

/// The scene records with one for every heading, where scenes are locked, in a list of its own.
fn extended_scenes(
    alloc: Global,
    text: &Text,
    records: &Option<Vec<SceneRecord>>,
) -> Result<Option<Vec<SceneRecord>>, LockFault>
    requires records { IfSome records.now (λ those. AreSceneRecords those.items) }
    ensures few { OnOk result
        (FewScenes (scenes_extended (headings_of text.now.lines.lines) (option_map vec_items records.now))) }
    ensures records { IfOk result (λ all. option_map vec_items all
        ≡ scenes_extended (headings_of text.now.lines.lines) (option_map vec_items records.now)) }
    ensures full { IfErr result (IsFull (are_more scene_record_limit
        (scenes_extended (headings_of text.now.lines.lines) (option_map vec_items records.now)) ≡ true)) }
{
    match records {
        None => Ok(None),
        Some(records) => {
            let headings = headings_by(alloc, text)?;
            Ok(Some(extended(alloc, records, &headings)?))
        }
    }
}

/// The records of sheets that are numbered.
fn first_pages(alloc: Global, made: &Made) -> Result<Vec<PageRecord>, LockFault>
    requires sheets { AreSheets made.now.numbered.sheets }
    requires within { All (λ (sheet : SheetOf).
        sheet.omitted ≡ false → sheet.start < length made.now.layout.body.keys) made.now.numbered.sheets }
    ensures { IsMade (extended_page_records [] made.now.numbered.sheets made.now.layout.body.keys) result }
{
    let layout = &made.layout;
    let numbered = &made.numbered;
    let mut pages = Vec::new(alloc);
    extend(alloc, &mut pages, &numbered.sheets, layout.body.keys())?;
    Ok(pages)
}

/// Makes each page a record, where pages are locked.
fn extend_pages(
    alloc: Global,
    pages: &mut Option<Vec<PageRecord>>,
    made: &Made,
) -> Result<(), LockFault>
    requires records { IfSome pages.old (λ those. AreLocked those.items) }
    requires sheets { AreSheets made.now.numbered.sheets }
    requires within { All (λ (sheet : SheetOf).
        sheet.omitted ≡ false → sheet.start < length made.now.layout.body.keys) made.now.numbered.sheets }
    ensures { ArePagesOpened made.now (option_map (λ those. those.items) pages.old)
        (option_map (λ those. those.items) pages.new) result }
{
    let layout = &made.layout;
    let numbered = &made.numbered;
    match pages {
        None => Ok(()),
        Some(pages) => extend(alloc, pages, &numbered.sheets, layout.body.keys()),
    }
}

/// Locks the pages of the state of this text and these records: each page gets a record, and each heading that has none
/// (docs/RULES.md, "Page records" and "Scene numbers"), and the text its index of ids. Takes what is made of the state; that is
/// what is made of the locked one too, since labels and sheets stay. The first of ScenesNotLocked, PagesLocked, NoPages and
/// RecordsFull that holds refuses it (docs/RULES.md, "The desk"); NoMemory may come in place of any answer. On a fault nothing
/// is changed, and no index made.
pub fn lock_pages_made(
    alloc: Global,
    text: &mut Text,
    records: &mut Records,
    made: &Made,
) -> Result<(), OpeningFault>
    requires whole { IsWhole (state_with text.old records.old) }
    requires made { IsMadeOf (state_with text.old records.old) made.now }
    ensures text { text.new ≡ text.old }
    ensures opening { IsOpening (pages_refusal (state_with text.old records.old))
        (pages_locked (state_with text.old records.old)) (state_with text.old records.old)
        (state_with text.old records.new) result }
    ensures whole { IsWhole (state_with text.old records.new) }
    ensures made { IsMadeOf (state_with text.old records.new) made.now }
{
    if records.scenes.is_none() {
        return Err(OpeningFault::ScenesNotLocked);
    }
    if records.pages.is_some() {
        return Err(OpeningFault::PagesLocked);
    }
    let layout = &made.layout;
    if layout.body.rows() == 0 {
        return Err(OpeningFault::NoPages);
    }
    let scenes = extended_scenes(alloc, text, &records.scenes)?;
    let pages = first_pages(alloc, made)?;
    text.make_index()?;
    records.scenes = scenes;
    records.pages = Some(pages);
    Ok(())
}

/// Begins the next round of the state of this text and these records: where scenes are locked each heading that has no record
/// gets one, and where pages are locked each page (docs/RULES.md, "Scene numbers" and "Page records"). Takes what is made of the
/// state; that is what is made of the new state too, since labels and sheets stay. The first of RoundsFull and RecordsFull that
/// holds refuses it (docs/RULES.md, "The desk"); NoMemory may come in place of any answer. On a fault nothing is changed.
pub fn next_round_made(
    alloc: Global,
    text: &Text,
    records: &mut Records,
    made: &Made,
) -> Result<(), OpeningFault>
    requires whole { IsWhole (state_with text.now records.old) }
    requires made { IsMadeOf (state_with text.now records.old) made.now }
    ensures opening { IsOpening (round_refusal (state_with text.now records.old))
        (round_begun (state_with text.now records.old)) (state_with text.now records.old)
        (state_with text.now records.new) result }
    ensures whole { IsWhole (state_with text.now records.new) }
    ensures made { IsMadeOf (state_with text.now records.new) made.now }
{
    if records.round >= ROUND_LIMIT {
        return Err(OpeningFault::RoundsFull);
    }
    let scenes = extended_scenes(alloc, text, &records.scenes)?;
    extend_pages(alloc, &mut records.pages, made)?;
    records.scenes = scenes;
    records.round += 1;
    Ok(())
}
