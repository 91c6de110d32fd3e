//! A script opened with the records that stand beside it (docs/RULES.md, "The program" and "Record file").
ghost use Rattle.std.specs.Prelude.{◌≡◌, ◌+◌, None, Some, IfOk, IfErr, option_map, string_bytes};
ghost use Rattle.spec_text.specs.Limits.{raw_limit};
ghost use Rattle.spec_text.specs.Lines.{line_texts};
ghost use Rattle.spec_state.specs.Keeping.{IsWhole, state_of};
ghost use Rattle.sp_kit.specs.Outside.{SinkState};
ghost use Rattle.sp_text.specs.Gap.{text_of};
ghost use Rattle.sp_run.specs.Forms.{origin_of};
ghost use Rattle.sp_run.specs.Records.{records_name};
ghost use Rattle.sp_run.specs.Opening.{AreFresh, FoundBeside, HadState, LeavesShelf, LeavesSource, NotBeside, OpensFresh, RefusesFresh};
ghost use Rattle.sp_run.specs.Asking.{BesideAsks, OriginAsks};
ghost use Rattle.sp_run.specs.Fetching.{FetchedRecords, NoRecords};
ghost use Rattle.sp_run.specs.Unopened.{ReadsUpTo, Unopened, outside};

use crate::script::{open_script, read_lines};
use crate::{Origin, Status};
use sp_kit::{Fetched, Shelf, ShelfFault, Source};
use sp_records::{Records, RecordsFault, decode};
use sp_text::Lines;
use std::alloc::{AllocError, Global};

/// The most bytes of a record file.
const RECORDS_LIMIT: usize = 268_435_456;

/// Lines, and the records that they have.
#[derive(Drop)]
pub struct Opened {
    pub lines: Lines,
    pub records: Records,
}

/// The script that the source gives to its end, without records, or the one that the shelf has under the name, with those
/// that it has beside it.
pub fn open_state<I: Source, F: Shelf>(
    alloc: Global,
    origin: Origin<'_>,
    input: &mut I,
    shelf: &mut F,
) -> Result<Opened, Status>
    ensures had { IfOk result (λ opened. HadState (origin_of origin.entry) (I.state input.old) (I.state input.new)
        (F.state shelf.old) (F.state shelf.new) (state_of (text_of opened.lines) opened.records)) }
    ensures whole { IfOk result (λ opened. IsWhole (state_of (text_of opened.lines) opened.records)) }
    ensures refused { (sink : SinkState) → IfErr result (Unopened (origin_of origin.entry)
        (outside (I.state input.old) sink (F.state shelf.old)) (outside (I.state input.new) sink (F.state shelf.new))) }
    ensures budget { ReadsUpTo (I.state input.old).unread (I.state input.new).unread (raw_limit + 1) }
    ensures source_kept { LeavesSource (origin_of origin.entry) input.old input.new }
    ensures shelf_kept { LeavesShelf (origin_of origin.entry) shelf.old shelf.new }
    ensures files_kept { (F.state shelf.new).files ≡ (F.state shelf.old).files }
    ensures asks { OriginAsks (origin_of origin.entry) (F.state shelf.old) (F.state shelf.new) result }
{
    let script = open_script(alloc, origin, input, shelf)?;
    let lines = read_lines(alloc, &script)?;
    drop(script);
    match origin {
        Origin::Source => Ok(without_records(lines)),
        Origin::File(name) => open_beside(alloc, name, lines, shelf),
    }
}

/// Lines that were just read, without records.
fn without_records(lines: Lines) -> Opened
    requires { AreFresh lines }
    ensures { OpensFresh lines None (state_of (text_of result.lines) result.records) }
{
    let _count = lines.len();
    Opened {
        lines,
        records: Records::none(),
    }
}

/// Lines that were just read, with the records that the shelf has beside the script of this name.
fn open_beside<F: Shelf>(
    alloc: Global,
    name: &str,
    lines: Lines,
    shelf: &mut F,
) -> Result<Opened, Status>
    requires { AreFresh lines }
    ensures found { IfOk result (λ opened. FoundBeside name.now (F.state shelf.old) (F.state shelf.new)
        (line_texts lines.lines) (state_of (text_of opened.lines) opened.records)) }
    ensures whole { IfOk result (λ opened. IsWhole (state_of (text_of opened.lines) opened.records)) }
    ensures refused { IfErr result
        (NotBeside name.now (F.state shelf.old) (F.state shelf.new) (line_texts lines.lines)) }
    ensures files_kept { (F.state shelf.new).files ≡ (F.state shelf.old).files }
    ensures asks { BesideAsks name.now (F.state shelf.old) (F.state shelf.new) result }
{
    match fetch_records(alloc, name, shelf)? {
        Some(bytes) => with_records(alloc, lines, &bytes),
        None => Ok(without_records(lines)),
    }
}

/// Lines that were just read, with the records of these bytes.
fn with_records(alloc: Global, lines: Lines, bytes: &[u8]) -> Result<Opened, Status>
    requires { AreFresh lines }
    ensures opened { IfOk result (λ opened.
        OpensFresh lines (Some bytes.now) (state_of (text_of opened.lines) opened.records)) }
    ensures refused { IfErr result (RefusesFresh lines bytes.now) }
{
    let mut lines = lines;
    let _count = lines.len();
    let records = decode(alloc, bytes, &mut lines)?;
    Ok(Opened { lines, records })
}

/// The name of the record file of a script.
pub fn records_name(alloc: Global, name: &str) -> Result<String, AllocError>
    ensures { IfOk result (λ beside. string_bytes beside ≡ records_name name.now) }
{
    let mut beside = String::from_str(alloc, name)?;
    beside.push_str(".desk")?;
    Ok(beside)
}

/// Fetches what stands beside the script of this name.
fn fetch_records<F: Shelf>(
    alloc: Global,
    name: &str,
    shelf: &mut F,
) -> Result<Option<Vec<u8>>, Status>
    ensures given { IfOk result (λ records.
        FetchedRecords (F.state shelf.old) (F.state shelf.new) name.now (option_map (λ v. v.items) records)) }
    ensures refused { IfErr result (NoRecords (F.state shelf.old) (F.state shelf.new) name.now) }
    ensures files_kept { (F.state shelf.new).files ≡ (F.state shelf.old).files }
    ensures asks { BesideAsks name.now (F.state shelf.old) (F.state shelf.new) result }
{
    let beside = records_name(alloc, name)?;
    match shelf.fetch(beside.as_str(), RECORDS_LIMIT) {
        Ok(Fetched::Bytes(bytes)) => Ok(Some(bytes)),
        Ok(Fetched::Absent) => Ok(None),
        Ok(Fetched::Longer) => Err(Status::BadRecords(RecordsFault::BadForm(1))),
        Err(ShelfFault::Failed) => Err(Status::ShelfFault),
        Err(ShelfFault::NoMemory) => Err(Status::NoMemory),
    }
}
