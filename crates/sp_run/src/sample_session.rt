//! The session of a sample.
ghost use Rattle.std.specs.Prelude.{◌≡◌, ◌≤◌, fold, map, IfOk, OnOk, OnErr};
ghost use Rattle.spec_machine.specs.Machine.{opened_memory};
ghost use Rattle.spec_sample.specs.Sample.{sample_lines, sample_opened, sample_output, stepped};
ghost use Rattle.sp_wire.specs.Values.{command_of};
ghost use Rattle.sp_reread.specs.Cache.{ReadsAtMostAll, ReadsAll};
ghost use Rattle.sp_desk.specs.Outcomes.{FillsAtMost, FillsOf, ReadsAtMost, ReadsOf};
ghost use Rattle.sp_run.specs.SampleCounts.{SampleFills, SampleFillsAtMost, SampleReads, SampleReadsAtMost, ReadsAlong, FillsAlong, ReadsUpTo, FillsUpTo, SessionReads, SessionFills, SessionReadsUpTo, SessionFillsUpTo};
ghost use Rattle.sp_sheets.specs.Pages.{FillsAll, FillsAtMostAll};

use crate::script_line::state_line;
use crate::{sample_commands, sample_script};
use sp_desk::{Desk, DeskFault};
use sp_kit::Steps;
use sp_text::{Lines, TextFault};
use sp_wire::Command;
use std::alloc::{AllocError, Global};

/// The line that tells of a sample of up to 2,000 rooms: its script is opened, and each command of its session answered; a
/// refused one changes nothing (docs/RULES.md, "The sample"). `AllocError` comes for want of memory alone.
pub fn run_sample<S: Steps>(alloc: Global, rooms: u32, steps: &mut S) -> Result<Vec<u8>, AllocError>
    requires { rooms ≤ 2000 }
    ensures line { IfOk result (λ line. line.items ≡ sample_output rooms) }
    ensures reads { OnOk result (SampleReads rooms (S.reads steps.old) (S.reads steps.new)) }
    ensures fills { OnOk result (SampleFills rooms (S.fills steps.old) (S.fills steps.new)) }
    ensures reads_at_most { OnErr result (SampleReadsAtMost rooms (S.reads steps.old) (S.reads steps.new)) }
    ensures fills_at_most { OnErr result (SampleFillsAtMost rooms (S.fills steps.old) (S.fills steps.new)) }
{
    let mut desk = open_sample(alloc, rooms, steps)?;
    hold_sample(alloc, rooms, &mut desk, steps)
}

/// The desk of the script of a sample, which keeps the limits.
fn open_sample<S: Steps>(alloc: Global, rooms: u32, steps: &mut S) -> Result<Desk, AllocError>
    requires { rooms ≤ 2000 }
    ensures memory { IfOk result (λ desk. desk ≡ opened_memory (sample_opened rooms)) }
    ensures reads { OnOk result (ReadsAll (sample_lines rooms) (S.reads steps.old) (S.reads steps.new)) }
    ensures fills { OnOk result (FillsAll (sample_opened rooms) (S.fills steps.old) (S.fills steps.new)) }
    ensures reads_at_most { ReadsAtMostAll (sample_lines rooms) (S.reads steps.old) (S.reads steps.new) }
    ensures fills_at_most { FillsAtMostAll (sample_opened rooms) (S.fills steps.old) (S.fills steps.new) }
{
    let script = sample_script(alloc, rooms)?;
    match Lines::read(alloc, script.as_slice()) {
        Ok(lines) => Desk::new(alloc, lines, steps),
        Err(TextFault::NoMemory) => Err(AllocError),
        Err(TextFault::TextFull | TextFault::NotUtf8(_) | TextFault::LineFull(_)) => unreachable!(),
    }
}

/// The line that tells of a sample whose desk was opened, once each command of its session is answered there.
fn hold_sample<S: Steps>(
    alloc: Global,
    rooms: u32,
    desk: &mut Desk,
    steps: &mut S,
) -> Result<Vec<u8>, AllocError>
    requires { desk.old ≡ opened_memory (sample_opened rooms) }
    ensures line { IfOk result (λ line. line.items ≡ sample_output rooms) }
    ensures reads { OnOk result (SessionReads rooms (S.reads steps.old) (S.reads steps.new)) }
    ensures fills { OnOk result (SessionFills rooms (S.fills steps.old) (S.fills steps.new)) }
    ensures reads_at_most { OnErr result (SessionReadsUpTo rooms (S.reads steps.old) (S.reads steps.new)) }
    ensures fills_at_most { OnErr result (SessionFillsUpTo rooms (S.fills steps.old) (S.fills steps.new)) }
{
    let commands = sample_commands(alloc, rooms)?;
    answer_all(alloc, desk, commands, steps)?;
    state_line(alloc, rooms, desk.script())
}

/// Answers commands, one after another.
fn answer_all<S: Steps>(
    alloc: Global,
    desk: &mut Desk,
    commands: Vec<Command>,
    steps: &mut S,
) -> Result<(), AllocError>
    ensures memory { OnOk result (desk.new ≡ fold stepped desk.old (map command_of commands.items)) }
    ensures reads { OnOk result (ReadsAlong desk.old commands.items (S.reads steps.old) (S.reads steps.new)) }
    ensures fills { OnOk result (FillsAlong desk.old commands.items (S.fills steps.old) (S.fills steps.new)) }
    ensures reads_at_most { OnErr result (ReadsUpTo desk.old commands.items (S.reads steps.old) (S.reads steps.new)) }
    ensures fills_at_most { OnErr result (FillsUpTo desk.old commands.items (S.fills steps.old) (S.fills steps.new)) }
{
    for command in commands {
        answer(alloc, desk, command, steps)?;
    }
    Ok(())
}

/// Answers a command. A refused one changes nothing.
fn answer<S: Steps>(
    alloc: Global,
    desk: &mut Desk,
    command: Command,
    steps: &mut S,
) -> Result<(), AllocError>
    ensures memory { OnOk result (desk.new ≡ stepped desk.old (command_of command)) }
    ensures reads { OnOk result (ReadsOf desk.old (command_of command) (S.reads steps.old) (S.reads steps.new)) }
    ensures fills { OnOk result (FillsOf desk.old (command_of command) (S.fills steps.old) (S.fills steps.new)) }
    ensures reads_at_most { OnErr result (ReadsAtMost desk.old (command_of command)
        (S.reads steps.old) (S.reads steps.new)) }
    ensures fills_at_most { OnErr result (FillsAtMost desk.old (command_of command)
        (S.fills steps.old) (S.fills steps.new)) }
{
    match desk.apply(alloc, command, steps) {
        Ok(_) => Ok(()),
        Err(DeskFault::Refused(_)) => Ok(()),
        Err(DeskFault::NoMemory) => Err(AllocError),
    }
}
