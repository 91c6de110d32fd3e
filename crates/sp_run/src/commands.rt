//! The commands of a sample's session.
ghost use Rattle.std.specs.Prelude.{◌≡◌, ◌+◌, ◌-◌, ◌*◌, ◌++◌, map, codes, replicate, IfOk, OnOk};
ghost use Rattle.spec_sample.specs.Sample.{added_lines, lamp_line, sample_commands, told_more};
ghost use Rattle.spec_text.specs.Edits.{replace, splice};
ghost use Rattle.sp_text.specs.Changing.{edit_of};
ghost use Rattle.sp_wire.specs.Values.{command_of};

use sp_text::Edit;
use sp_wire::Command;
use std::alloc::{AllocError, Global};

/// The commands of the session of a sample of so many rooms, in order (docs/RULES.md, "The sample"). `AllocError` comes for
/// want of memory alone.
pub fn sample_commands(alloc: Global, rooms: u32) -> Result<Vec<Command>, AllocError>
    ensures { IfOk result (λ commands. map command_of commands.items ≡ sample_commands rooms) }
{
    let mut commands = Vec::new(alloc);
    commands.push(Command::LockScenes)?;
    commands.push(Command::LockPages)?;
    commands.push(Command::NextRound)?;
    for behind in 0..rooms {
        add_edits(alloc, &mut commands, rooms - behind)?;
    }
    commands.push(Command::Undo)?;
    commands.push(Command::Redo)?;
    Ok(commands)
}

/// Puts the edits of a room behind the commands.
fn add_edits(alloc: Global, commands: &mut Vec<Command>, room: u32) -> Result<(), AllocError>
    ensures { OnOk result (map command_of commands.new.items ≡ map command_of commands.old.items
        ++ (told_more room ++ added_lines room)) }
{
    if room % 3 == 0 {
        commands.push(Command::Edit(telling(alloc, room)?))?;
    }
    if room % 10 == 0 {
        commands.push(Command::Edit(adding(alloc, room)?))?;
    }
    Ok(())
}

/// The edit that tells more of the lamp of a room.
fn telling(alloc: Global, room: u32) -> Result<Edit, AllocError>
    ensures { IfOk result (λ edit. edit_of edit ≡ splice (lamp_line room) 0 0 (codes "Now and then. ")) }
{
    Ok(Edit::Splice {
        line: lamp_line(room),
        from: 0,
        to: 0,
        text: String::from_str(alloc, "Now and then. ")?,
    })
}

/// The edit that puts ten lines before the line that tells of the lamp of a room.
fn adding(alloc: Global, room: u32) -> Result<Edit, AllocError>
    ensures { IfOk result (λ edit.
        edit_of edit ≡ replace (lamp_line room) 0 (replicate 10 (codes "A new line of action."))) }
{
    let mut lines = Vec::new(alloc);
    for _ in 0..10u32 {
        lines.push(String::from_str(alloc, "A new line of action.")?)?;
    }
    Ok(Edit::Replace {
        first: lamp_line(room),
        count: 0,
        lines,
    })
}

/// The line of a room that tells of its lamp.
fn lamp_line(room: u32) -> u64
    ensures { result ≡ lamp_line room }
{
    11 * u64::from(room.saturating_sub(1)) + 2
}
