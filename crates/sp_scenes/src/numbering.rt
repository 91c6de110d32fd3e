ghost use Rattle.std.specs.Prelude.{◌≡◌, ◌+◌, ◌<◌, ◌≤◌, ◌++◌, ◌∷◌, [], length, All, IfOk, OnOk, option_copied, unwrap_or, ◌^◌};
ghost use Rattle.std.specs.Option.{ForSome};
ghost use Rattle.spec_text.specs.Limits.{line_count_limit};
ghost use Rattle.spec_labels.specs.Labels.{IsLabel, plain_label};
ghost use Rattle.spec_labels.specs.Scenes.{AreHeadings, AreSceneRecords, label_at, label_before, label_between, locked_labels, scene_labels, unlocked_labels};
ghost use Rattle.sp_scenes.specs.LineLabels.{heading_lines, line_labels};
ghost use Rattle.sp_scenes.specs.LinePlaces.{ArePlaces};
ghost use Rattle.sp_scenes.specs.NewLabels.{new_labels};

use crate::heading::{HeadingAt, SceneRecord};
use crate::places::{LinePlace, place_of, places_of};
use sp_labels::{Label, between};
use std::alloc::{AllocError, Global};

/// The label of each heading, with the scene records where scenes are locked (docs/RULES.md, "Scene numbers"). It takes
/// the headings of a text, at most 200,000: their places rise strictly, their ids are distinct, and a number is given
/// only where one is written. Records have distinct lines, and labels above label 0 which rise strictly and whose
/// numbers are at most 2,000,000,000. `AllocError` comes for want of memory alone.
pub fn numbers(
    alloc: Global,
    headings: &[HeadingAt],
    records: Option<&[SceneRecord]>,
) -> Result<Vec<Label>, AllocError>
    requires headings { AreHeadings headings.now }
    requires records { ForSome records (λ records. AreSceneRecords records.now) }
    ensures numbers { IfOk result (λ labels. labels.items ≡ scene_labels headings.now (option_copied records.entry)) }
    ensures labels { IfOk result (λ labels. All IsLabel labels.items) }
{
    match records {
        Some(records) => locked(alloc, headings, records, &places_of(alloc, records)?),
        None => unlocked(alloc, headings),
    }
}

/// The labels without records.
pub(crate) fn unlocked(alloc: Global, headings: &[HeadingAt]) -> Result<Vec<Label>, AllocError>
    requires { AreHeadings headings.now }
    ensures numbers { IfOk result (λ labels. labels.items ≡ unlocked_labels headings.now) }
    ensures count { IfOk result (λ labels. length labels.items ≡ length headings.now) }
    ensures labels { IfOk result (λ labels. All IsLabel labels.items) }
{
    let mut labels = Vec::with_capacity(alloc, headings.len())?;
    let mut before = 0;
    for heading in headings {
        let label = unlocked_label(alloc, heading, before)?;
        before = label.number;
        labels.push(label)?;
    }
    Ok(labels)
}

/// The label of a heading behind a label of this number.
fn unlocked_label(alloc: Global, heading: &HeadingAt, before: u32) -> Result<Label, AllocError>
    requires { before < 2 ^ 31 }
    ensures { IfOk result (λ label. label ≡ unwrap_or heading.now.number (plain_label (before + 1))) }
{
    match &heading.number {
        Some(label) => label.copy(alloc),
        None => Ok(Label {
            number: before + 1,
            path: Vec::new(alloc),
        }),
    }
}

/// The label of the heading of each of these lines, where scenes are locked (docs/RULES.md, "Scene numbers"). It takes the
/// ids of the lines of a text's headings in order, at most 200,000, and records as `numbers` does. `AllocError` comes for
/// want of memory alone.
pub fn numbers_of_lines(
    alloc: Global,
    lines: &[u64],
    records: &[SceneRecord],
) -> Result<Vec<Label>, AllocError>
    requires lines { length lines.now ≤ line_count_limit }
    requires records { AreSceneRecords records.now }
    ensures numbers { IfOk result (λ labels. labels.items ≡ line_labels records.now lines.now) }
    ensures labels { IfOk result (λ labels. All IsLabel labels.items) }
{
    locked_lines(alloc, lines, records, &places_of(alloc, records)?)
}

/// The labels with records, of which the places by line are given.
pub(crate) fn locked(
    alloc: Global,
    headings: &[HeadingAt],
    records: &[SceneRecord],
    places: &[LinePlace],
) -> Result<Vec<Label>, AllocError>
    requires headings { AreHeadings headings.now }
    requires records { AreSceneRecords records.now }
    requires places { ArePlaces records.now places.now }
    ensures numbers { IfOk result (λ labels. labels.items ≡ locked_labels records.now headings.now) }
    ensures count { IfOk result (λ labels. length labels.items ≡ length headings.now) }
    ensures labels { IfOk result (λ labels. All IsLabel labels.items) }
{
    let lines = heading_lines(alloc, headings)?;
    locked_lines(alloc, &lines, records, places)
}

/// The ids of the lines of headings.
fn heading_lines(alloc: Global, headings: &[HeadingAt]) -> Result<Vec<u64>, AllocError>
    ensures { IfOk result (λ lines. lines.items ≡ heading_lines headings.now) }
{
    let mut lines = Vec::with_capacity(alloc, headings.len())?;
    for heading in headings {
        lines.push(heading.id)?;
    }
    Ok(lines)
}

/// The labels of the headings of these lines, with records, of which the places by line are given. The record of a line is
/// looked for directly behind that of the line before.
fn locked_lines(
    alloc: Global,
    lines: &[u64],
    records: &[SceneRecord],
    places: &[LinePlace],
) -> Result<Vec<Label>, AllocError>
    requires few { length lines.now ≤ line_count_limit }
    requires records { AreSceneRecords records.now }
    requires places { ArePlaces records.now places.now }
    ensures numbers { IfOk result (λ labels. labels.items ≡ line_labels records.now lines.now) }
    ensures count { IfOk result (λ labels. length labels.items ≡ length lines.now) }
    ensures labels { IfOk result (λ labels. All IsLabel labels.items) }
{
    let mut labels = Vec::with_capacity(alloc, lines.len())?;
    let mut waiting = 0;
    let mut guess = 0;
    for line in lines {
        match place_of(records, places, guess, *line) {
            Some(place) => {
                push_recorded(alloc, &mut labels, records, place, waiting)?;
                waiting = 0;
                guess = place + 1;
            }
            None => waiting += 1,
        }
    }
    push_new(alloc, &mut labels, records, records.len(), waiting)?;
    Ok(labels)
}

/// Puts the labels of so many new headings behind the others, and behind these the label of the record at a place.
fn push_recorded(
    alloc: Global,
    labels: &mut Vec<Label>,
    records: &[SceneRecord],
    place: usize,
    count: u32,
) -> Result<(), AllocError>
    requires records { AreSceneRecords records.now }
    requires place { place < length records.now }
    requires few { count ≤ 200000 }
    ensures { OnOk result (labels.new.items ≡ labels.old.items ++ new_labels records.now place 0 count
        ++ unwrap_or (label_at records.now place) (plain_label 0) ∷ []) }
{
    push_new(alloc, labels, records, place, count)?;
    let record = &records[place];
    labels.push(record.label.copy(alloc)?)?;
    Ok(())
}

/// Puts the labels of so many new headings behind the others, before the record at a place.
fn push_new(
    alloc: Global,
    labels: &mut Vec<Label>,
    records: &[SceneRecord],
    place: usize,
    count: u32,
) -> Result<(), AllocError>
    requires records { AreSceneRecords records.now }
    requires place { place ≤ length records.now }
    requires few { count ≤ 200000 }
    ensures { OnOk result (labels.new.items ≡ labels.old.items ++ new_labels records.now place 0 count) }
{
    for before in 0..count {
        labels.push(label_between(alloc, records, place, before + 1)?)?;
    }
    Ok(())
}

/// The `m`-th label before the record at a place, or behind all records at their end.
fn label_between(
    alloc: Global,
    records: &[SceneRecord],
    place: usize,
    m: u32,
) -> Result<Label, AllocError>
    requires records { AreSceneRecords records.now }
    requires place { place ≤ length records.now }
    requires some { 0 < m }
    requires few { m ≤ 200000 }
    ensures { IfOk result (λ label. label ≡ label_between records.now place m) }
{
    let zero = Label {
        number: 0,
        path: Vec::new(alloc),
    };
    let low = label_before(records, place, &zero);
    between(alloc, low, label_at(records, place), m)
}

/// The label of the record at a place, where there is one.
fn label_at(records: &[SceneRecord], place: usize) -> Option<&Label>
    ensures { option_copied result ≡ label_at records.now place }
{
    records.get(place).map(|record| &record.label)
}

/// The label of the record directly before a place, or label 0.
fn label_before<'a>(records: &'a [SceneRecord], place: usize, zero: &'a Label) -> &'a Label
    requires place { place ≤ length records.now }
    requires records { AreSceneRecords records.now }
    requires zero { zero.now ≡ plain_label 0 }
    ensures label { result.now ≡ label_before records.now place }
    ensures low { result.now.number ≤ 2000000000 }
{
    if place == 0 {
        zero
    } else {
        let record = &records[place - 1];
        &record.label
    }
}
