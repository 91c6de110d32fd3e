//! A session of a room (docs/RULES.md, "The program" and "Sessions").
ghost use Rattle.sp_run.specs.Records.{records_name};
ghost use Rattle.sp_run.specs.Saving.{Changes, KeepsAllBut};
ghost use Rattle.sp_run.specs.Asking.{CommandsAsk};
ghost use Rattle.sp_run.specs.RoomEnding.{RoomEnds};
ghost use Rattle.sp_run.specs.World.{world};

use crate::room_lines::RoomLines;
use crate::{Status, open_desk};
use sp_kit::{Shelf, Sink, Source, Steps};
use sp_room::Room;
use sp_session::session;
use std::alloc::Global;
use std::mem;

/// Answers the command lines of the source by a room round the desk of the script that the shelf has under a name.
pub fn hold_room<I: Source, O: Sink, F: Shelf, S: Steps>(
    alloc: Global,
    name: &str,
    input: &mut I,
    output: &mut O,
    shelf: &mut F,
    steps: &mut S,
) -> Status
    ensures ends { let here = world I.state O.state F.state S.reads S.fills in
        let before = here input.old output.old shelf.old steps.old in
        let after = here input.new output.new shelf.new steps.new in
        RoomEnds name.now before.told after.told before.counts after.counts result }
    ensures others { Changes (F.state shelf.old).files (F.state shelf.new).files
        (λ old new. KeepsAllBut old new name.now (records_name name.now)) }
    ensures asks { CommandsAsk name.now (F.state shelf.old) (F.state shelf.new) result }
{
    let desk = match open_desk(alloc, name, input, shelf, steps) {
        Ok(desk) => desk,
        Err(status) => return status,
    };
    let mut lines = RoomLines {
        alloc,
        name,
        room: Room::open(alloc, desk),
    };
    let ended = session(alloc, &mut lines, input, output, shelf, steps);
    // The program ends here: nothing needs its memory back.
    mem::forget(lines);
    Status::from(ended)
}
