//! What a room asks of its desk.
ghost use Rattle.std.specs.Prelude.{◌≡◌, false, IfOk, OnErr};
ghost use Rattle.spec_wire.specs.Replies.{is_refused};
ghost use Rattle.sp_wire.specs.Values.{command_of, reply_of};
ghost use Rattle.sp_desk.specs.Answers.{IsAnswer};
ghost use Rattle.sp_desk.specs.Reads.{CommandReads};
ghost use Rattle.sp_desk.specs.Fills.{CommandFills};

use sp_desk::{Desk, DeskFault};
use sp_kit::Steps;
use sp_wire::{Command, Reply};
use std::alloc::Global;

/// Asks a command of the desk. A refusal and want of memory leave it as it was.
pub fn ask<S: Steps>(
    alloc: Global,
    desk: &mut Desk,
    command: Command,
    steps: &mut S,
) -> Result<Reply, DeskFault>
    ensures step { IsAnswer desk.old (command_of command) desk.new result }
    ensures unrefused { IfOk result (λ reply. is_refused (reply_of reply) ≡ false) }
    ensures same { OnErr result (desk.new ≡ desk.old) }
    ensures reads { CommandReads (desk.old).state (command_of command) result (S.reads steps.old) (S.reads steps.new) }
    ensures fills { CommandFills (desk.old).state (command_of command) result (S.fills steps.old) (S.fills steps.new) }
{
    desk.apply(alloc, command, steps)
}
