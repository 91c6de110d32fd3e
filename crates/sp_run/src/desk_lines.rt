//! Command lines, answered by a desk.
ghost use Rattle.std.specs.Prelude.{◌≡◌, IfOk, OnOk, OnErr};
ghost use Rattle.std.specs.declared.result.Result.TheVariants.{Ok};
ghost use Rattle.spec_wire.specs.Lines.{command_of_line};
ghost use Rattle.spec_machine.specs.LabelPromises.{LosesNone};
ghost use Rattle.sp_wire.specs.Values.{command_of, reply_of};
ghost use Rattle.spec_session.specs.Runs.{counts_of};
ghost use Rattle.sp_run.specs.CountedLines.{LineCounts, LineCountsAtMost};
ghost use Rattle.sp_run.specs.DeskLines.{RepliesTo, StopsAt, is_packet, is_save, packet_reply, desk_at};

use crate::desk_saving::save_desk;
use sp_desk::{Desk, DeskFault};
use sp_kit::{Shelf, Steps};
use sp_packet::{PacketFault, packet};
use sp_session::Responder;
use sp_wire::{Command, Refusal, Reply, WireFault, line_buffer, read_command, write_reply};
use std::alloc::{AllocError, Global};
use std::marker::Model;

/// What answers the command lines of a session: a desk, and its script's name.
#[derive(Drop)]
pub struct DeskLines<'a> {
    pub alloc: Global,
    pub name: &'a str,
    pub desk: Desk,
}

impl<'a> Model for DeskLines<'a> {
    ghost use Rattle.sp_run.specs.DeskLines.{NamedDesk};

    ghost Value = { NamedDesk };

    ghost view = { λ d. record { name = d.name.now; memory = d.desk } };
}

/// Whether the command is `save`.
pub fn is_save(command: &Command) -> bool
    ensures { result ≡ is_save (command_of command.now) }
{
    matches!(command, Command::Save)
}

/// Whether the command is `packet`.
pub fn is_packet(command: &Command) -> bool
    ensures { result ≡ is_packet (command_of command.now) }
{
    matches!(command, Command::Packet)
}

/// The packet of the present state, or the refusal where pages aren't locked (docs/RULES.md, "Packets"). `AllocError` comes for
/// want of memory alone.
pub fn packet_reply(alloc: Global, desk: &Desk) -> Result<Reply, AllocError>
    ensures { IfOk result (λ reply. reply_of reply ≡ packet_reply (desk.now).state) }
{
    match packet(alloc, desk.script()) {
        Ok(places) => Ok(Reply::Packet(places)),
        Err(PacketFault::PagesNotLocked) => Ok(Reply::Refused(Refusal::PagesNotLocked)),
        Err(PacketFault::NoMemory) => Err(AllocError),
    }
}

/// Does a command, and answers it. Only `save` touches the shelf.
fn reply_to_command<F: Shelf, S: Steps>(
    alloc: Global,
    name: &str,
    desk: &mut Desk,
    command: Command,
    shelf: &mut F,
    steps: &mut S,
) -> Result<Reply, AllocError>
    ensures reply { IfOk result (λ reply. RepliesTo
        (desk_at name.now desk.old (F.state shelf.old) (counts_of (S.reads steps.old) (S.fills steps.old)))
        (Ok (command_of command))
        (desk_at name.now desk.new (F.state shelf.new) (counts_of (S.reads steps.new) (S.fills steps.new)))
        (reply_of reply)) }
    ensures stops { OnErr result (StopsAt
        (desk_at name.now desk.old (F.state shelf.old) (counts_of (S.reads steps.old) (S.fills steps.old)))
        (Ok (command_of command))
        (desk_at name.now desk.new (F.state shelf.new) (counts_of (S.reads steps.new) (S.fills steps.new)))) }
    ensures counts { OnOk result (LineCounts desk.old (Ok (command_of command))
        (counts_of (S.reads steps.old) (S.fills steps.old)) (counts_of (S.reads steps.new) (S.fills steps.new))) }
    ensures at_most { OnErr result (LineCountsAtMost desk.old (Ok (command_of command))
        (counts_of (S.reads steps.old) (S.fills steps.old)) (counts_of (S.reads steps.new) (S.fills steps.new))) }
    ensures lost { LosesNone (desk.old).state (desk.new).state }
{
    if is_save(&command) {
        return save_desk(alloc, name, desk, shelf);
    }
    if is_packet(&command) {
        return packet_reply(alloc, desk);
    }
    match desk.apply(alloc, command, steps) {
        Ok(reply) => Ok(reply),
        Err(DeskFault::Refused(reason)) => Ok(Reply::Refused(reason)),
        Err(DeskFault::NoMemory) => Err(AllocError),
    }
}

/// Does what a line asks for, and answers it; a line that is no command changes nothing.
fn reply_to_line<F: Shelf, S: Steps>(
    alloc: Global,
    name: &str,
    desk: &mut Desk,
    line: &[u8],
    shelf: &mut F,
    steps: &mut S,
) -> Result<Reply, AllocError>
    ensures reply { IfOk result (λ reply. RepliesTo
        (desk_at name.now desk.old (F.state shelf.old) (counts_of (S.reads steps.old) (S.fills steps.old)))
        (command_of_line line.now)
        (desk_at name.now desk.new (F.state shelf.new) (counts_of (S.reads steps.new) (S.fills steps.new)))
        (reply_of reply)) }
    ensures stops { OnErr result (StopsAt
        (desk_at name.now desk.old (F.state shelf.old) (counts_of (S.reads steps.old) (S.fills steps.old)))
        (command_of_line line.now)
        (desk_at name.now desk.new (F.state shelf.new) (counts_of (S.reads steps.new) (S.fills steps.new)))) }
    ensures counts { OnOk result (LineCounts desk.old (command_of_line line.now)
        (counts_of (S.reads steps.old) (S.fills steps.old)) (counts_of (S.reads steps.new) (S.fills steps.new))) }
    ensures at_most { OnErr result (LineCountsAtMost desk.old (command_of_line line.now)
        (counts_of (S.reads steps.old) (S.fills steps.old)) (counts_of (S.reads steps.new) (S.fills steps.new))) }
    ensures lost { LosesNone (desk.old).state (desk.new).state }
{
    match read_command(alloc, line) {
        Ok(command) => reply_to_command(alloc, name, desk, command, shelf, steps),
        Err(WireFault::BadJson) => Ok(Reply::Refused(Refusal::BadJson)),
        Err(WireFault::UnknownCommand) => Ok(Reply::Refused(Refusal::UnknownCommand)),
        Err(WireFault::BadField(name)) => Ok(Reply::Refused(Refusal::BadField(name))),
        Err(WireFault::NoMemory) => Err(AllocError),
    }
}

impl<'a> Responder for DeskLines<'a> {
    ghost use Rattle.spec_session.specs.CommandLines.{command_count_limit};
    ghost use Rattle.sp_run.specs.DeskLines.{AnswersLine, StopsAtLine};

    ghost answers = { AnswersLine };

    ghost stops = { StopsAtLine };

    ghost lasts = { λ d. command_count_limit };

    fn answer<F: Shelf, S: Steps>(
        &mut self,
        line: &[u8],
        shelf: &mut F,
        steps: &mut S,
    ) -> Result<Vec<u8>, AllocError> {
        let buffer = line_buffer(self.alloc)?;
        let reply = reply_to_line(self.alloc, self.name, &mut self.desk, line, shelf, steps)?;
        let _sheets = self.desk.sheets();
        write_reply(self.alloc, &reply, buffer)
    }
}
