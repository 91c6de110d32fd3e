//! The script of a sample.
ghost use Rattle.std.specs.Prelude.{◌≡◌, ◌≤◌, ◌++◌, IfOk, OnOk};
ghost use Rattle.std.specs.List.{flat_map};
ghost use Rattle.spec_text.specs.Lines.{lines, reading_of};
ghost use Rattle.spec_sample.specs.Sample.{ended_line, room_lines, sample_lines, sample_script, second_cue};

use crate::numbers::add_numbered;
use std::alloc::{AllocError, Global};

/// The script of a sample of so many rooms. Up to 2,000 rooms it keeps the limits, and reading it gives their lines
/// (docs/RULES.md, "The sample"). `AllocError` comes for want of memory alone.
pub fn sample_script(alloc: Global, rooms: u32) -> Result<Vec<u8>, AllocError>
    ensures text { IfOk result (λ script. script.items ≡ sample_script rooms) }
    ensures reads { rooms ≤ 2000 → IfOk result (λ script. reading_of script.items ≡ lines (sample_lines rooms)) }
{
    let mut script = Vec::new(alloc);
    for before in 0..rooms {
        add_room(&mut script, before + 1)?;
    }
    Ok(script)
}

/// Puts the lines of a room behind a script.
fn add_room(script: &mut Vec<u8>, room: u32) -> Result<(), AllocError>
    ensures { OnOk result (script.new.items ≡ script.old.items ++ flat_map ended_line (room_lines room)) }
{
    let number = u64::from(room);
    add_numbered(script, b"INT. ROOM ", number)?;
    add_numbered(script, b" - DAY\n\nThe lamp in room ", number)?;
    add_numbered(
        script,
        b" is lit.\n\nANNA\n(to BERT)\nI have counted ",
        number,
    )?;
    script.extend_from_slice(b" lamps today. They are all lit.\n\n")?;
    script.extend_from_slice(second_cue(room))?;
    script.extend_from_slice(b"\nCount them again.\n\n")?;
    Ok(())
}

/// The cue of the second speech of a room.
fn second_cue(room: u32) -> &'static [u8]
    ensures { result.now ≡ second_cue room }
{
    if room % 5 == 0 { b"BERT ^" } else { b"BERT" }
}
