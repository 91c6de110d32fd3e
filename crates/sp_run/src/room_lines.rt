//! Command lines of several seats, answered by a room.
ghost use Rattle.std.specs.Prelude.{◌≡◌, ◌+◌, ◌-◌, ◌^◌, ◌<◌, ◌≤◌, false, IfOk, OnOk, OnErr};
ghost use Rattle.std.specs.declared.result.Result.TheVariants.{Ok};
ghost use Rattle.spec_wire.specs.Lines.{room_line_of_line};
ghost use Rattle.sp_wire.specs.Values.{room_line_of, reply_of};
ghost use Rattle.sp_wire.specs.Done.{may_have_changed};
ghost use Rattle.sp_room.specs.Answers.{IsRoomAnswer};
ghost use Rattle.spec_session.specs.Runs.{counts_of};
ghost use Rattle.sp_room.specs.Counts.{RoomReads, RoomFills};
ghost use Rattle.sp_run.specs.SeatCounted.{SeatCounts, SeatCountsAtMost};
ghost use Rattle.sp_run.specs.Promises.{Follows};
ghost use Rattle.sp_run.specs.RoomLines.{SeatReplies, SeatStops, room_at};

use crate::{is_packet, is_save, packet_reply, save_desk};
use sp_desk::DeskFault;
use sp_kit::{Shelf, Steps};
use sp_room::Room;
use sp_session::Responder;
use sp_wire::{
    Refusal, Reply, RoomLine, WireFault, line_buffer, read_room_command, write_room_reply,
};
use std::alloc::{AllocError, Global};
use std::marker::Model;

/// What answers the command lines of several seats: a room, and its script's name.
#[derive(Drop)]
pub struct RoomLines<'a> {
    pub alloc: Global,
    pub name: &'a str,
    pub room: Room,
}

impl<'a> Model for RoomLines<'a> {
    ghost use Rattle.sp_run.specs.RoomLines.{NamedRoom};

    ghost Value = { NamedRoom };

    ghost view = { λ r. record { name = r.name.now; room = r.room } };
}

/// Does a seat's command by the room. A refusal and want of memory leave it as it was.
fn ask_room<S: Steps>(room: &mut Room, asked: RoomLine, steps: &mut S) -> Result<Reply, DeskFault>
    requires version { (room.old).version + 1 < 2 ^ 64 }
    ensures step { IsRoomAnswer room.old (room_line_of asked) room.new result }
    ensures same { OnErr result (room.new ≡ room.old) }
    ensures unchanged { IfOk result (λ reply. may_have_changed (reply_of reply) ≡ false → room.new ≡ room.old) }
    ensures reads { RoomReads room.old (room_line_of asked) result (S.reads steps.old) (S.reads steps.new) }
    ensures fills { RoomFills room.old (room_line_of asked) result (S.fills steps.old) (S.fills steps.new) }
    ensures follows { Follows (room.old).desk (room.new).desk }
    ensures version { (room.new).version ≤ (room.old).version + 1 }
{
    let RoomLine {
        seat,
        seen,
        command,
    } = asked;
    let _before = room.desk().sheets();
    let answer = room.apply(seat.as_str(), seen, command, steps);
    let _after = room.desk().sheets();
    answer
}

/// Does a seat's command, and answers it. Only `save` touches the shelf.
fn reply_to_seat<F: Shelf, S: Steps>(
    alloc: Global,
    name: &str,
    room: &mut Room,
    asked: RoomLine,
    shelf: &mut F,
    steps: &mut S,
) -> Result<Reply, AllocError>
    requires version { (room.old).version + 1 < 2 ^ 64 }
    ensures reply { IfOk result (λ reply. SeatReplies
        (room_at name.now room.old (F.state shelf.old) (counts_of (S.reads steps.old) (S.fills steps.old)))
        (Ok (room_line_of asked))
        (room_at name.now room.new (F.state shelf.new) (counts_of (S.reads steps.new) (S.fills steps.new)))
        (reply_of reply)) }
    ensures stops { OnErr result (SeatStops
        (room_at name.now room.old (F.state shelf.old) (counts_of (S.reads steps.old) (S.fills steps.old)))
        (Ok (room_line_of asked))
        (room_at name.now room.new (F.state shelf.new) (counts_of (S.reads steps.new) (S.fills steps.new)))) }
    ensures counts { OnOk result (SeatCounts room.old (Ok (room_line_of asked))
        (counts_of (S.reads steps.old) (S.fills steps.old)) (counts_of (S.reads steps.new) (S.fills steps.new))) }
    ensures at_most { OnErr result (SeatCountsAtMost room.old (Ok (room_line_of asked))
        (counts_of (S.reads steps.old) (S.fills steps.old)) (counts_of (S.reads steps.new) (S.fills steps.new))) }
    ensures unchanged { IfOk result (λ reply. may_have_changed (reply_of reply) ≡ false → room.new ≡ room.old) }
    ensures follows { Follows (room.old).desk (room.new).desk }
    ensures version { (room.new).version ≤ (room.old).version + 1 }
{
    if is_save(&asked.command) {
        let _sheets = room.desk().sheets();
        return save_desk(alloc, name, room.desk(), shelf);
    }
    if is_packet(&asked.command) {
        let _sheets = room.desk().sheets();
        return packet_reply(alloc, room.desk());
    }
    match ask_room(room, asked, steps) {
        Ok(reply) => Ok(reply),
        Err(DeskFault::Refused(reason)) => Ok(Reply::Refused(reason)),
        Err(DeskFault::NoMemory) => Err(AllocError),
    }
}

/// Does what a line asks for, and answers it; a line that is no command of a seat changes nothing.
fn reply_to_room_line<F: Shelf, S: Steps>(
    alloc: Global,
    name: &str,
    room: &mut Room,
    line: &[u8],
    shelf: &mut F,
    steps: &mut S,
) -> Result<Reply, AllocError>
    requires version { (room.old).version + 1 < 2 ^ 64 }
    ensures reply { IfOk result (λ reply. SeatReplies
        (room_at name.now room.old (F.state shelf.old) (counts_of (S.reads steps.old) (S.fills steps.old)))
        (room_line_of_line line.now)
        (room_at name.now room.new (F.state shelf.new) (counts_of (S.reads steps.new) (S.fills steps.new)))
        (reply_of reply)) }
    ensures stops { OnErr result (SeatStops
        (room_at name.now room.old (F.state shelf.old) (counts_of (S.reads steps.old) (S.fills steps.old)))
        (room_line_of_line line.now)
        (room_at name.now room.new (F.state shelf.new) (counts_of (S.reads steps.new) (S.fills steps.new)))) }
    ensures counts { OnOk result (SeatCounts room.old (room_line_of_line line.now)
        (counts_of (S.reads steps.old) (S.fills steps.old)) (counts_of (S.reads steps.new) (S.fills steps.new))) }
    ensures at_most { OnErr result (SeatCountsAtMost room.old (room_line_of_line line.now)
        (counts_of (S.reads steps.old) (S.fills steps.old)) (counts_of (S.reads steps.new) (S.fills steps.new))) }
    ensures unchanged { IfOk result (λ reply. may_have_changed (reply_of reply) ≡ false → room.new ≡ room.old) }
    ensures follows { Follows (room.old).desk (room.new).desk }
    ensures version { (room.new).version ≤ (room.old).version + 1 }
{
    let _sheets = room.desk().sheets();
    match read_room_command(alloc, line) {
        Ok(asked) => reply_to_seat(alloc, name, room, asked, shelf, steps),
        Err(WireFault::BadJson) => Ok(Reply::Refused(Refusal::BadJson)),
        Err(WireFault::UnknownCommand) => Ok(Reply::Refused(Refusal::UnknownCommand)),
        Err(WireFault::BadField(name)) => Ok(Reply::Refused(Refusal::BadField(name))),
        Err(WireFault::NoMemory) => Err(AllocError),
    }
}

impl<'a> Responder for RoomLines<'a> {
    ghost use Rattle.std.specs.Prelude.{◌-◌, ◌^◌};
    ghost use Rattle.sp_run.specs.RoomLines.{AnswersRoomLine, StopsAtRoomLine};

    ghost answers = { AnswersRoomLine };

    ghost stops = { StopsAtRoomLine };

    ghost lasts = { λ r. 2 ^ 64 - 1 - r.room.version };

    fn answer<F: Shelf, S: Steps>(
        &mut self,
        line: &[u8],
        shelf: &mut F,
        steps: &mut S,
    ) -> Result<Vec<u8>, AllocError> {
        let buffer = line_buffer(self.alloc)?;
        let reply = reply_to_room_line(self.alloc, self.name, &mut self.room, line, shelf, steps)?;
        write_room_reply(self.alloc, &reply, self.room.version(), buffer)
    }
}
