//! The packet of a script.
ghost use Rattle.std.specs.Prelude.{◌≡◌, ◌+◌, ◌++◌, ◌^◌, ◌<◌, true, Some, All, IfErr, IfOk, OnOk, is_some, length, map, replicate};
ghost use Rattle.spec_packet.specs.StatePackets.{packet_places, places_from};
ghost use Rattle.sp_packet.specs.Fresh.{is_handed_by};
ghost use Rattle.sp_packet.specs.Refusing.{HasNoPacket};
ghost use Rattle.sp_packet.specs.Runs.{LieWithin};

use crate::facts::{SheetFacts, sheet_facts};
use crate::fresh::{FreshCounts, fresh_counts, is_handed};
use sp_locks::PageRecord;
use sp_state::Script;
use std::alloc::{AllocError, Global};

/// Why there is no packet (docs/RULES.md, "Packets").
#[derive(Clone, Copy, PartialEq, Eq, Drop)]
pub enum PacketFault {
    /// There are no page records.
    PagesNotLocked,
    /// There is no memory.
    NoMemory,
}

impl From<AllocError> for PacketFault {
    ghost use Rattle.std.specs.Prelude.{◌≡◌};
    ghost use Rattle.sp_packet.specs.declared.handing.PacketFault.TheVariants.{NoMemory};

    ghost from_gives = { λ _ r. r ≡ NoMemory };

    fn from(_error: AllocError) -> PacketFault {
        PacketFault::NoMemory
    }
}

/// The places, from 0 and title sheets counted, of the sheets that have to be handed out anew in the script's round, in print
/// order (docs/RULES.md, "Packets"). PagesNotLocked comes exactly where there are no page records; NoMemory may come in place of any answer.
pub fn packet(alloc: Global, script: &Script) -> Result<Vec<u64>, PacketFault>
    ensures locked { IfOk result (λ places. is_some (script.now).pages ≡ true) }
    ensures places { IfOk result (λ places. places.items ≡ packet_places script.now) }
    ensures refused { IfErr result (HasNoPacket script.now) }
{
    match &script.records().pages {
        None => Err(PacketFault::PagesNotLocked),
        Some(records) => Ok(packet_of(alloc, script, records)?),
    }
}

/// The places of the sheets of the packet, by the page records.
fn packet_of(alloc: Global, script: &Script, records: &[PageRecord]) -> Result<Vec<u64>, AllocError>
    requires { (script.now).pages ≡ Some records.now }
    ensures { IfOk result (λ places. places.items ≡ packet_places script.now) }
{
    let facts = sheet_facts(alloc, script)?;
    let fresh = fresh_counts(alloc, script.records().round, records)?;
    let titles = script.sheets() - script.body_sheets().len();
    let mut places = title_places(alloc, titles)?;
    add_handed(&mut places, titles, &fresh, &facts)?;
    Ok(places)
}

/// The places of so many title sheets, which are always handed out.
fn title_places(alloc: Global, titles: usize) -> Result<Vec<u64>, AllocError>
    ensures { IfOk result (λ places. places.items ≡ places_from 0 (replicate titles true)) }
{
    let mut places = Vec::new(alloc);
    for place in 0..titles {
        places.push(place as u64)?;
    }
    Ok(places)
}

/// Adds the places of the sheets that are handed out, of those behind so many title sheets.
fn add_handed(
    places: &mut Vec<u64>,
    titles: usize,
    fresh: &FreshCounts,
    facts: &[SheetFacts],
) -> Result<(), AllocError>
    requires within { All (LieWithin (2 ^ 63)) facts.now }
    requires few { titles + length facts.now < 2 ^ 64 }
    ensures { OnOk result
        (places.new.items ≡ places.old.items ++ places_from titles (map (is_handed_by fresh.now) facts.now)) }
{
    for (place, it) in facts.iter().enumerate() {
        if is_handed(fresh, it) {
            places.push((titles + place) as u64)?;
        }
    }
    Ok(())
}
