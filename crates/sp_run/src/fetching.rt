//! A file of a shelf.
ghost use Rattle.std.specs.Prelude.{◌≡◌, IfOk, IfErr};
ghost use Rattle.sp_run.specs.Asking.{AsksOne};
ghost use Rattle.sp_run.specs.Fetching.{FetchedFile, NotFetched};

use crate::Status;
use sp_kit::{Fetched, Shelf, ShelfFault};
use sp_text::TextFault;
use std::alloc::Global;

/// Fetches the file under a name, of so many bytes at most.
pub(crate) fn fetch_file<F: Shelf>(
    alloc: Global,
    name: &str,
    limit: usize,
    shelf: &mut F,
) -> Result<Vec<u8>, Status>
    ensures given { IfOk result (λ bytes.
        FetchedFile limit (F.state shelf.old) (F.state shelf.new) name.now bytes.items) }
    ensures refused { IfErr result (NotFetched limit (F.state shelf.old) (F.state shelf.new) name.now) }
    ensures files_kept { (F.state shelf.new).files ≡ (F.state shelf.old).files }
    ensures asks { AsksOne name.now (F.state shelf.old) (F.state shelf.new) }
{
    match shelf.fetch(name, limit) {
        Ok(Fetched::Bytes(bytes)) => Ok(bytes),
        Ok(Fetched::Absent) => Err(Status::NoFile(String::from_str(alloc, name)?)),
        Ok(Fetched::Longer) => Err(Status::BadText(TextFault::TextFull)),
        Err(ShelfFault::Failed) => Err(Status::ShelfFault),
        Err(ShelfFault::NoMemory) => Err(Status::NoMemory),
    }
}
