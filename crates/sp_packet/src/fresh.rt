//! Fresh records, counted.
ghost use Rattle.std.specs.Prelude.{◌≡◌, ◌+◌, ◌-◌, ◌^◌, ◌<◌, ◌||◌, IfOk, map};
ghost use Rattle.sp_packet.specs.Fresh.{count_before, counts_of, has_fresh, has_fresh_cue, is_handed_by, is_of_round};
ghost use Rattle.sp_packet.specs.Runs.{LieWithin, LiesBelow};

use crate::cue::Places;
use crate::facts::SheetFacts;
use sp_locks::PageRecord;
use std::alloc::{AllocError, Global};
use std::marker::Model;

/// How many of the first records are fresh, for each number of them from 0 on, and how many of all.
#[derive(Drop)]
pub(crate) struct FreshCounts {
    counts: Vec<usize>,
    total: usize,
}

impl Model for FreshCounts {
    ghost use Rattle.sp_packet.specs.Fresh.{FreshCounts};

    ghost Value = { FreshCounts };

    ghost view = { λ f. record { counts = f.counts.items; total = f.total } };
}

/// The records that last changed in this round, counted.
pub(crate) fn fresh_counts(
    alloc: Global,
    round: u8,
    records: &[PageRecord],
) -> Result<FreshCounts, AllocError>
    ensures { IfOk result (λ it. it ≡ counts_of (map (is_of_round round) records.now)) }
{
    let mut counts = Vec::new(alloc);
    let mut total = 0;
    counts.push(0)?;
    for record in records {
        if record.changed == round {
            total += 1;
        }
        counts.push(total)?;
    }
    Ok(FreshCounts { counts, total })
}

/// How many of the records before a place are fresh.
fn count_before(fresh: &FreshCounts, place: usize) -> usize
    ensures { result ≡ count_before fresh.now place }
{
    match fresh.counts.get(place) {
        Some(count) => *count,
        None => fresh.total,
    }
}

/// Whether a record from a place on to before another is fresh.
fn has_fresh(fresh: &FreshCounts, from: usize, to: usize) -> bool
    ensures { result ≡ has_fresh fresh.now from to }
{
    count_before(fresh, from) < count_before(fresh, to)
}

/// Whether a record that a cue comes from is fresh.
fn has_fresh_cue(fresh: &FreshCounts, cue: &Option<Places>) -> bool
    requires { LiesBelow (2 ^ 63) cue.now }
    ensures { result ≡ has_fresh_cue fresh.now cue.now }
{
    match cue {
        None => false,
        Some(places) => has_fresh(fresh, places.first, places.last + 1),
    }
}

/// Whether the record directly before some or directly behind them is fresh.
fn has_fresh_neighbour(fresh: &FreshCounts, records: &Places) -> bool
    requires { (records.now).last < 2 ^ 63 }
    ensures { result ≡ (has_fresh fresh.now ((records.now).first - 1) (records.now).first
        || has_fresh fresh.now ((records.now).last + 1) ((records.now).last + 2)) }
{
    has_fresh(fresh, records.first.saturating_sub(1), records.first)
        || has_fresh(fresh, records.last + 1, records.last + 2)
}

/// Whether the packet has the sheet of these facts.
pub(crate) fn is_handed(fresh: &FreshCounts, facts: &SheetFacts) -> bool
    requires { LieWithin (2 ^ 63) facts.now }
    ensures { result ≡ is_handed_by fresh.now facts.now }
{
    let records = &facts.records;
    has_fresh(fresh, records.first, records.last + 1)
        || if facts.pages == 0 {
            has_fresh_neighbour(fresh, records)
        } else {
            facts.pages > 1 || has_fresh_cue(fresh, &facts.cue)
        }
}
