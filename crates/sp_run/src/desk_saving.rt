//! A desk, saved (docs/RULES.md, "Sessions").
ghost use Rattle.std.specs.Prelude.{IfOk, OnErr};
ghost use Rattle.sp_wire.specs.Values.{reply_of};
ghost use Rattle.sp_run.specs.Saving.{RepliesToSave, StoreLeft, files_of};

use crate::save;
use sp_desk::Desk;
use sp_kit::Shelf;
use sp_wire::Reply;
use std::alloc::{AllocError, Global};

/// Stores the present state of a desk, and answers the digest of its text, or refuses `Shelf` where a store failed: then the
/// shelf's count rose. `AllocError` comes for want of memory: then under the name stands what stood there or the text, and all other
/// names, and the count, are as they were.
pub fn save_desk<F: Shelf>(
    alloc: Global,
    name: &str,
    desk: &Desk,
    shelf: &mut F,
) -> Result<Reply, AllocError>
    ensures saved { IfOk result (λ reply.
        RepliesToSave name.now (desk.now).state (F.state shelf.old) (F.state shelf.new) (reply_of reply)) }
    ensures left { OnErr result
        (StoreLeft (files_of name.now (desk.now).state) (F.state shelf.old) (F.state shelf.new)) }
{
    let _sheets = desk.sheets();
    save(alloc, name, desk.lines(), desk.records(), shelf)
}
