//! Saving: a script's text and its record file, stored on the shelf (docs/RULES.md, "Sessions" and "Record file").
ghost use Rattle.std.specs.Prelude.{◌≢◌, IfOk, OnErr};
ghost use Rattle.spec_state.specs.Keeping.{IsWhole, state_of};
ghost use Rattle.sp_text.specs.Gap.{text_of};
ghost use Rattle.sp_wire.specs.Values.{reply_of};
ghost use Rattle.sp_run.specs.Saving.{RepliesToSave, StoreLeft, StoresBoth, files_of};

use crate::opening::records_name;
use sp_kit::{Shelf, ShelfFault};
use sp_records::{Records, digest, encode};
use sp_text::Lines;
use sp_wire::{Refusal, Reply};
use std::alloc::{AllocError, Global};

/// Stores the text under the name and the record file beside it, and answers the digest of the text; where a store fails
/// the reply is refused `Shelf`. All that takes memory here comes before the first store.
pub fn save<F: Shelf>(
    alloc: Global,
    name: &str,
    lines: &Lines,
    records: &Records,
    shelf: &mut F,
) -> Result<Reply, AllocError>
    requires { IsWhole (state_of (text_of lines.now) records.now) }
    ensures saved { IfOk result (λ reply. RepliesToSave name.now (state_of (text_of lines.now) records.now)
        (F.state shelf.old) (F.state shelf.new) (reply_of reply)) }
    ensures left { OnErr result (StoreLeft (files_of name.now (state_of (text_of lines.now) records.now))
        (F.state shelf.old) (F.state shelf.new)) }
{
    let text = lines.text()?;
    let file = encode(alloc, lines, records)?;
    let sum = digest(alloc, lines)?;
    let beside = records_name(alloc, name)?;
    match store_both(shelf, name, &text, beside.as_str(), &file) {
        Ok(()) => Ok(Reply::Saved(sum)),
        Err(ShelfFault::Failed) => Ok(Reply::Refused(Refusal::Shelf)),
        Err(ShelfFault::NoMemory) => Err(AllocError),
    }
}

/// Stores bytes under a name, and then others under another name; the second store isn't tried where the first failed.
fn store_both<F: Shelf>(
    shelf: &mut F,
    name: &str,
    text: &[u8],
    beside: &str,
    records: &[u8],
) -> Result<(), ShelfFault>
    requires { name.now ≢ beside.now }
    ensures { StoresBoth (record { name = name.now; bytes = text.now; beside = beside.now; records = records.now })
        (F.state shelf.old) (F.state shelf.new) result }
{
    match shelf.store(name, text) {
        Ok(()) => shelf.store(beside, records),
        Err(fault) => Err(fault),
    }
}
