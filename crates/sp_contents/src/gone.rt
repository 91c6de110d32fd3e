//! Scenes that are gone: records whose lines are no headings.
ghost use Rattle.std.specs.Prelude.{◌≡◌, ℕ, not, option_map, is_some, IfOk};
ghost use Rattle.std.specs.BTreeMap.{get};
ghost use Rattle.std.specs.Ordering.{nat_cmp};
ghost use Rattle.spec_machine.specs.Outlines.{gone_labels};
ghost use Rattle.sp_contents.specs.Gone.{gone_among, has_line};

use sp_labels::Label;
use sp_scenes::{HeadingAt, SceneRecord};
use std::alloc::{AllocError, Global};
use std::collections::BTreeMap;

/// The lines of headings, each by its id.
fn lines_of(alloc: Global, headings: &[HeadingAt]) -> Result<BTreeMap<u64, bool>, AllocError>
    ensures { IfOk result (λ lines. (line : ℕ) → is_some (get nat_cmp lines line) ≡ has_line headings.now line) }
{
    let mut lines = BTreeMap::new(alloc);
    for heading in headings {
        lines.insert(heading.id, true)?;
    }
    Ok(lines)
}

/// Whether the line of a record isn't among these.
fn is_gone(lines: &BTreeMap<u64, bool>, locked: &SceneRecord) -> bool
    ensures { result ≡ not (is_some (get nat_cmp lines.now locked.now.line)) }
{
    !lines.contains_key(&locked.line)
}

/// The labels of records whose lines aren't those of headings.
fn gone_among(
    alloc: Global,
    headings: &[HeadingAt],
    records: &[SceneRecord],
) -> Result<Vec<Label>, AllocError>
    ensures { IfOk result (λ gone. gone.items ≡ gone_among headings.now records.now) }
{
    let lines = lines_of(alloc, headings)?;
    let mut gone = Vec::new(alloc);
    for record in records {
        if is_gone(&lines, record) {
            gone.push(record.label.copy(alloc)?)?;
        }
    }
    Ok(gone)
}

/// The labels of scenes that are gone; none where scenes aren't locked.
pub fn gone_labels(
    alloc: Global,
    headings: &[HeadingAt],
    scenes: &Option<Vec<SceneRecord>>,
) -> Result<Vec<Label>, AllocError>
    ensures { IfOk result (λ gone.
        gone.items ≡ gone_labels headings.now (option_map (λ those. those.items) scenes.now)) }
{
    match scenes {
        None => Ok(Vec::new(alloc)),
        Some(records) => gone_among(alloc, headings, records),
    }
}
