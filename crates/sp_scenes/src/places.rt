//! Where the record of a line stands: entries sorted by line, so that a look-up halves what is left at each step.
ghost use Rattle.std.specs.Prelude.{◌≡◌, IfOk};
ghost use Rattle.spec_labels.specs.Scenes.{AreSceneRecords, line_place};
ghost use Rattle.sp_scenes.specs.LinePlaces.{ArePlaces};

use crate::heading::SceneRecord;
use std::alloc::{AllocError, Global};

/// The place of the record of a line.
#[derive(Clone, Copy)]
pub(crate) struct LinePlace {
    pub line: u64,
    pub place: usize,
}

/// The places of all records, by the ids of their lines.
pub(crate) fn places_of(
    alloc: Global,
    records: &[SceneRecord],
) -> Result<Vec<LinePlace>, AllocError>
    ensures { IfOk result (λ places. ArePlaces records.now places.items) }
{
    let mut places = Vec::with_capacity(alloc, records.len())?;
    for (place, record) in records.iter().enumerate() {
        let line = record.line;
        places.push(LinePlace { line, place })?;
    }
    places.sort_by_key(|entry| entry.line)?;
    Ok(places)
}

/// The place of the record of a line, where it has one. It looks at the guess first: headings mostly have the order of
/// their records.
pub(crate) fn place_of(
    records: &[SceneRecord],
    places: &[LinePlace],
    guess: usize,
    line: u64,
) -> Option<usize>
    requires records { AreSceneRecords records.now }
    requires places { ArePlaces records.now places.now }
    ensures { result ≡ line_place records.now line }
{
    if let Some(record) = records.get(guess) {
        if record.line == line {
            return Some(guess);
        }
    }
    match places.binary_search_by_key(&line, |entry| entry.line) {
        Ok(found) => {
            let entry = places[found];
            Some(entry.place)
        }
        Err(_) => None,
    }
}
