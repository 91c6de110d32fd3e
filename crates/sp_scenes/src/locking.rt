ghost use Rattle.std.specs.Prelude.{◌≡◌, ◌<◌, length, IfOk, IfSome};
ghost use Rattle.spec_labels.specs.Scenes.{AreHeadings, AreSceneRecords, AreWithin, disordered_place, first_fall, is_unlockable, records_of, scene_number_limit, unlockable_place, unlocked_labels};
ghost use Rattle.sp_scenes.specs.Locking.{IsLocking};

use crate::fault::SceneFault;
use crate::heading::{HeadingAt, SceneRecord};
use crate::numbering::unlocked;
use sp_labels::{Label, compare};
use std::alloc::{AllocError, Global};

/// Scene records.
pub(crate) const RECORD_LIMIT: usize = 100_000;

/// The records of all headings with the labels that they have without records (docs/RULES.md, "Scene numbers"). It
/// takes headings as `numbers` does. It refuses, in this order: SceneForm with the place of the first heading whose
/// written number is no label or is label 0; SceneOrder with the place of the first heading whose label isn't above that
/// of the heading before it; RecordsFull for more than 100,000 headings. NoMemory may come in place of any answer.
pub fn lock_scenes(alloc: Global, headings: &[HeadingAt]) -> Result<Vec<SceneRecord>, SceneFault>
    requires { AreHeadings headings.now }
    ensures locking { IsLocking headings.now result }
    ensures records { IfOk result (λ records. AreSceneRecords records.items) }
    ensures low { IfOk result (λ records. AreWithin scene_number_limit records.items) }
{
    if let Some(place) = unlockable_place(headings) {
        return Err(SceneFault::SceneForm(place));
    }
    let labels = unlocked(alloc, headings)?;
    if let Some(place) = disordered_place(headings, &labels) {
        return Err(SceneFault::SceneOrder(place));
    }
    if headings.len() > RECORD_LIMIT {
        return Err(SceneFault::RecordsFull);
    }
    Ok(records_of(alloc, headings, labels)?)
}

/// The place of the first heading with a written number that can't be locked.
fn unlockable_place(headings: &[HeadingAt]) -> Option<u64>
    ensures { result ≡ unlockable_place headings.now }
{
    let heading = headings.iter().find(|heading| is_unlockable(heading))?;
    Some(heading.place)
}

/// A number is written that is no label, or is label 0.
fn is_unlockable(heading: &HeadingAt) -> bool
    ensures { result ≡ is_unlockable heading.now }
{
    heading.written
        && match &heading.number {
            Some(label) => label.number == 0 && label.path.is_empty(),
            None => true,
        }
}

/// The place of the first heading whose label, of these, isn't above that of the heading before it.
fn disordered_place(headings: &[HeadingAt], labels: &[Label]) -> Option<u64>
    requires { labels.now ≡ unlocked_labels headings.now }
    ensures { result ≡ disordered_place headings.now }
{
    let place = first_fall(labels)?;
    let heading = &headings[place];
    Some(heading.place)
}

/// The place of the first label that isn't above the one directly before it.
fn first_fall(labels: &[Label]) -> Option<usize>
    ensures place { result ≡ first_fall labels.now }
    ensures within { IfSome result (λ place. place < length labels.now) }
{
    for before in 0..labels.len().saturating_sub(1) {
        if !compare(&labels[before], &labels[before + 1]).is_lt() {
            return Some(before + 1);
        }
    }
    None
}

/// Records of headings with these labels.
pub(crate) fn records_of(
    alloc: Global,
    headings: &[HeadingAt],
    labels: Vec<Label>,
) -> Result<Vec<SceneRecord>, AllocError>
    requires { length labels.items ≡ length headings.now }
    ensures { IfOk result (λ records. records.items ≡ records_of headings.now labels.items) }
{
    let mut records = Vec::with_capacity(alloc, headings.len())?;
    for label in labels {
        let heading = &headings[records.len()];
        records.push(SceneRecord {
            label,
            line: heading.id,
        })?;
    }
    Ok(records)
}
