//! The collation of two files of printed sheets (docs/RULES.md, "The program" and "Collation").
ghost use Rattle.std.specs.Prelude.{◌≡◌, IfOk, IfErr};
ghost use Rattle.sp_run.specs.Asking.{CollatedAsks, CollationAsks};
ghost use Rattle.sp_run.specs.Collating.{Comes, NotCollated, CollateEnds, gives};

use crate::Status;
use crate::fetching::fetch_file;
use sp_kit::{Shelf, Sink, write_whole};
use sp_packet::collate;
use std::alloc::Global;

/// The most bytes of a file of sheets.
const SHEETS_LIMIT: usize = 268_435_456;

/// The collation of the files under two names, both fetched first.
fn collated<F: Shelf>(alloc: Global, old: &str, new: &str, shelf: &mut F) -> Result<Vec<u8>, Status>
    ensures comes { IfOk result
        (λ bytes. Comes old.now new.now (F.state shelf.old) (F.state shelf.new) (gives bytes.items)) }
    ensures refused { IfErr result (NotCollated old.now new.now (F.state shelf.old) (F.state shelf.new)) }
    ensures files_kept { (F.state shelf.new).files ≡ (F.state shelf.old).files }
    ensures asks { CollatedAsks old.now new.now (F.state shelf.old) (F.state shelf.new) result }
{
    let first = fetch_file(alloc, old, SHEETS_LIMIT, shelf)?;
    let second = fetch_file(alloc, new, SHEETS_LIMIT, shelf)?;
    Ok(collate(alloc, &first, &second)?)
}

/// Writes the collation of the files under two names, which is made whole first.
pub fn collate_files<O: Sink, F: Shelf>(
    alloc: Global,
    old: &str,
    new: &str,
    output: &mut O,
    shelf: &mut F,
) -> Status
    ensures ends { CollateEnds old.now new.now (F.state shelf.old) (F.state shelf.new)
        (O.state output.old) (O.state output.new) result }
    ensures files_kept { (F.state shelf.new).files ≡ (F.state shelf.old).files }
    ensures asks { CollationAsks old.now new.now (F.state shelf.old) (F.state shelf.new) result }
{
    match collated(alloc, old, new, shelf) {
        Ok(bytes) => match write_whole(output, &bytes) {
            Ok(()) => Status::Done,
            Err(_) => Status::WriteFault,
        },
        Err(status) => status,
    }
}
