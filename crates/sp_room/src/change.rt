//! What edits of a room change, and where they are made.
ghost use Rattle.std.specs.Prelude.{◌≡◌};
ghost use Rattle.spec_room.specs.Changes.{turned};
ghost use Rattle.spec_room.specs.Kinds.{edit_range, edit_moved, kind_of};
ghost use Rattle.sp_text.specs.Changing.{edit_of};
ghost use Rattle.sp_wire.specs.Values.{command_of};
ghost use Rattle.sp_room.specs.Changes.{range_of};
ghost use Rattle.sp_room.specs.Asking.{is_forgetting};

use sp_text::Edit;
use sp_wire::Command;

/// What an accepted edit, undo or redo changed: at the line `first`, from 0, `taken` lines made way for `put` others (docs/RULES.md, "The
/// room"). None of the calls on it takes memory.
#[derive(Clone, Copy, PartialEq, Eq, Drop)]
pub struct Change {
    pub first: u64,
    pub taken: u64,
    pub put: u64,
}

/// The change that takes a change back (docs/RULES.md, "The room").
pub fn turned(change: Change) -> Change
    ensures { range_of result ≡ turned (range_of change) }
{
    Change {
        first: change.first,
        taken: change.put,
        put: change.taken,
    }
}

/// The lines that an edit names, as a change: its first line, how many it takes away and how many it puts there. A splice takes one and
/// puts one (docs/RULES.md, "The room").
pub fn edit_change(edit: &Edit) -> Change
    ensures { range_of result ≡ edit_range (edit_of edit.now) }
{
    match edit {
        Edit::Replace {
            first,
            count,
            lines,
        } => Change {
            first: *first,
            taken: *count,
            put: lines.len() as u64,
        },
        Edit::Splice { line, .. } => Change {
            first: *line,
            taken: 1,
            put: 1,
        },
    }
}

/// The change at another first line.
pub fn change_at(change: Change, place: u64) -> Change
    ensures { result ≡ record { first = place; taken = change.taken; put = change.put } }
{
    Change {
        first: place,
        taken: change.taken,
        put: change.put,
    }
}

/// The edit made at another line (docs/RULES.md, "The room").
pub fn moved_to(edit: Edit, place: u64) -> Edit
    ensures { edit_of result ≡ edit_moved (edit_of edit) place }
{
    match edit {
        Edit::Replace { count, lines, .. } => Edit::Replace {
            first: place,
            count,
            lines,
        },
        Edit::Splice { from, to, text, .. } => Edit::Splice {
            line: place,
            from,
            to,
            text,
        },
    }
}

/// Whether the command empties what can be undone and redone: it locks, begins a round, or sets the speakers or the paper
/// (docs/RULES.md, "The desk").
pub fn is_forgetting(command: &Command) -> bool
    ensures { result ≡ is_forgetting (kind_of (command_of command.now)) }
{
    matches!(
        command,
        Command::LockScenes
            | Command::LockPages
            | Command::NextRound
            | Command::Speakers(_)
            | Command::Paper(_)
    )
}
