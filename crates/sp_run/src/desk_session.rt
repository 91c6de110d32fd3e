//! A session of a desk (docs/RULES.md, "The program" and "Sessions").
ghost use Rattle.std.specs.Prelude.{◌≡◌, IfOk, IfErr};
ghost use Rattle.sp_kit.specs.Outside.{SinkState};
ghost use Rattle.sp_run.specs.Forms.{from_file};
ghost use Rattle.sp_run.specs.Records.{records_name};
ghost use Rattle.sp_run.specs.Saving.{Changes, KeepsAllBut};
ghost use Rattle.spec_session.specs.Runs.{counts_of};
ghost use Rattle.sp_run.specs.CountedLines.{NotOpenedCounts};
ghost use Rattle.sp_run.specs.Counted.{OpeningCounts};
ghost use Rattle.sp_run.specs.Asking.{CommandsAsk, OriginAsks};
ghost use Rattle.sp_run.specs.DeskEnding.{DeskEnds, OpensDesk};
ghost use Rattle.sp_run.specs.Unopened.{Unopened, outside};

use crate::desk_lines::DeskLines;
use crate::{Origin, Status, open_state};
use sp_desk::Desk;
use sp_kit::{Shelf, Sink, Source, Steps};
use sp_session::session;
use std::alloc::Global;
use std::mem;

/// The desk of the script that the shelf has under a name, with the records beside it. An error is the status that the form ends
/// with (docs/RULES.md, "The program"). The source is not read, and what the shelf holds stays.
pub fn open_desk<I: Source, F: Shelf, S: Steps>(
    alloc: Global,
    name: &str,
    input: &mut I,
    shelf: &mut F,
    steps: &mut S,
) -> Result<Desk, Status>
    ensures opened { IfOk result (OpensDesk (F.state shelf.old) (F.state shelf.new) name.now) }
    ensures counts { IfOk result (λ desk. OpeningCounts desk.state (counts_of (S.reads steps.old) (S.fills steps.old))
        (counts_of (S.reads steps.new) (S.fills steps.new))) }
    ensures uncounted { IfErr result (NotOpenedCounts (F.state shelf.old) name.now
        (counts_of (S.reads steps.old) (S.fills steps.old)) (counts_of (S.reads steps.new) (S.fills steps.new))) }
    ensures refused { (sink : SinkState) → IfErr result (Unopened (from_file name.now)
        (outside (I.state input.old) sink (F.state shelf.old)) (outside (I.state input.new) sink (F.state shelf.new))) }
    ensures source_kept { input.new ≡ input.old }
    ensures files_kept { (F.state shelf.new).files ≡ (F.state shelf.old).files }
    ensures asks { OriginAsks (from_file name.now) (F.state shelf.old) (F.state shelf.new) result }
{
    let opened = open_state(alloc, Origin::File(name), input, shelf)?;
    let desk = Desk::open(alloc, opened.lines, opened.records, steps)?;
    let _sheets = desk.sheets();
    Ok(desk)
}

/// Answers the command lines of the source by a desk of the script that the shelf has under a name, and tells how the session ended
/// (docs/RULES.md, "The program" and "Sessions"). What stands under other names than the script's and its records' stays.
pub fn hold_session<I: Source, O: Sink, F: Shelf, S: Steps>(
    alloc: Global,
    name: &str,
    input: &mut I,
    output: &mut O,
    shelf: &mut F,
    steps: &mut S,
) -> Status
    ensures ends { DeskEnds name.now (outside (I.state input.old) (O.state output.old) (F.state shelf.old))
        (outside (I.state input.new) (O.state output.new) (F.state shelf.new))
        (counts_of (S.reads steps.old) (S.fills steps.old)) (counts_of (S.reads steps.new) (S.fills steps.new)) result }
    ensures others { Changes (F.state shelf.old).files (F.state shelf.new).files (λ old new.
        KeepsAllBut old new name.now (records_name name.now)) }
    ensures asks { CommandsAsk name.now (F.state shelf.old) (F.state shelf.new) result }
{
    let desk = match open_desk(alloc, name, input, shelf, steps) {
        Ok(desk) => desk,
        Err(status) => return status,
    };
    let mut lines = DeskLines { alloc, name, desk };
    let ended = session(alloc, &mut lines, input, output, shelf, steps);
    // The program ends here: nothing needs its memory back.
    mem::forget(lines);
    Status::from(ended)
}
