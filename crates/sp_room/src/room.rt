ghost use Rattle.std.specs.Prelude.{◌≡◌, ℕ, ◌+◌, ◌<◌, ◌^◌, false, List, [], ◌∷◌, length, IfOk, OnErr};
ghost use Rattle.spec_wire.specs.Commands as commands;
ghost use Rattle.spec_wire.specs.Replies.{is_refused};
ghost use Rattle.spec_room.specs.Kinds.{kind_of, looks};
ghost use Rattle.spec_room.specs.Rooms.{opened_room};
ghost use Rattle.spec_room.specs.Standing.{StandsFor};
ghost use Rattle.sp_text.specs.Changing.{edit_of};
ghost use Rattle.sp_wire.specs.Values.{command_of, reply_of};
ghost use Rattle.sp_room.specs.Asking.{MakesNoChange};
ghost use Rattle.sp_room.specs.Answers.{line_of, IsRoomAnswer, KeepsSeenLines, KeepsTexts};
ghost use Rattle.sp_room.specs.Counts.{RoomReads, RoomFills};

use crate::ask::ask;
use crate::owner::{Owner, last_owner, make_room, move_last};
use crate::{
    Change, change_at, edit_change, is_forgetting, moved_to, present_place, remember, turned,
};
use sp_desk::{Desk, DeskFault};
use sp_kit::Steps;
use sp_text::Edit;
use sp_wire::{Command, Refusal, Reply};
use std::alloc::Global;
use std::collections::VecDeque;
use std::marker::Model;

/// A desk with several seats (docs/RULES.md, "The room"). It keeps no texts: only its last 1,000 changes, and beside each entry of the
/// desk the seat that made it.
pub struct Room {
    alloc: Global,
    desk: Desk,
    version: u64,
    changes: VecDeque<Change>,
    done: Vec<Owner>,
    undone: Vec<Owner>,
}

/// One call wherever it is dropped, so that no proof there follows each of its fields.
impl Drop for Room {
    fn drop(self) {
        let Room {
            alloc: _alloc,
            desk: _desk,
            version: _version,
            changes: _changes,
            done: _done,
            undone: _undone,
        } = self;
    }
}

impl Model for Room {
    ghost use Rattle.spec_room.specs.Rooms.{RoomState};
    ghost use Rattle.sp_room.specs.Inside.{room_of, Keeps};

    ghost Value = { RoomState };

    ghost view = { λ r. room_of r.desk r.version r.changes.items r.done.items r.undone.items };

    ghost invariant = { λ r. Keeps r.desk r.version r.changes.items r.done.items r.undone.items };
}

impl Room {
    /// A room round a desk that has nothing to undo or redo: version 0, no change and no seat (docs/RULES.md, "The
    /// room"). It takes no memory.
    pub fn open(alloc: Global, desk: Desk) -> Room
        requires done { desk.done ≡ [] }
        requires undone { desk.undone ≡ [] }
        ensures room { result ≡ opened_room desk }
        ensures stands { StandsFor result (desk.state.lines ∷ []) }
    {
        Room {
            alloc,
            desk,
            version: 0,
            changes: VecDeque::new(alloc),
            done: Vec::new(alloc),
            undone: Vec::new(alloc),
        }
    }

    /// The version of the text, which is the number of accepted edits, undos and redos (docs/RULES.md, "The room"). It takes no memory.
    pub fn version(&self) -> u64
        ensures { result ≡ self.now.version }
    {
        self.version
    }

    /// Lends the desk, which says what the text is at the present version. It takes no memory.
    pub fn desk(&self) -> &Desk
        ensures { result.now ≡ self.now.desk }
    {
        &self.desk
    }

    /// Does what a seat asks (docs/RULES.md, "The room"). An edit names the version `seen` of the text that its seat saw, and is taken at the
    /// place where the lines that it names stand now; other commands leave `seen` unread. A refusal is the first in order, the room's own or
    /// the desk's for the command at its place, and never `Reply::Refused`. `Save` and `Packet` are refused UnknownCommand, as by a desk.
    /// NoMemory may come in place of any answer. Each fault leaves the room as it was. It reads stanzas and fills pages as its desk does for
    /// the command at its place, and none where it refuses the command itself. The version has to be one below the greatest 64-bit number or
    /// less.
    pub fn apply<S: Steps>(
        &mut self,
        seat: &str,
        seen: u64,
        command: Command,
        steps: &mut S,
    ) -> Result<Reply, DeskFault>
        requires version { self.old.version + 1 < 2 ^ 64 }
        ensures step { IsRoomAnswer self.old (line_of seat.now seen (command_of command)) self.new result }
        ensures unrefused { IfOk result (λ reply. is_refused (reply_of reply) ≡ false) }
        ensures same { OnErr result (self.new ≡ self.old) }
        ensures reads { RoomReads self.old (line_of seat.now seen (command_of command)) result
            (S.reads steps.old) (S.reads steps.new) }
        ensures fills { RoomFills self.old (line_of seat.now seen (command_of command)) result
            (S.fills steps.old) (S.fills steps.new) }

        // A command that only looks leaves the room as it was.
        ensures looks { kind_of (command_of command) ≡ looks → self.new ≡ self.old }

        // An edit takes away or changes just the lines that its seat saw.
        ensures seen { KeepsSeenLines self.old seen (command_of command) self.new result }
        ensures stands { KeepsTexts self.old (command_of command) self.new result }
    {
        let lines = self.desk.lines().len() as u64;
        match command {
            Command::Edit(edit) => self.edit(lines, seat, seen, edit, steps),
            Command::Undo => self.undo(seat, steps),
            Command::Redo => self.redo(seat, steps),
            command => self.ask_other(command, steps),
        }
    }

    /// An edit, at its present place.
    fn edit<S: Steps>(
        &mut self,
        lines: u64,
        seat: &str,
        seen: u64,
        edit: Edit,
        steps: &mut S,
    ) -> Result<Reply, DeskFault>
        requires lines { lines ≡ length self.old.desk.state.lines }
        requires version { self.old.version + 1 < 2 ^ 64 }
        ensures step { IsRoomAnswer self.old (line_of seat.now seen (commands.edit (edit_of edit))) self.new result }
        ensures unrefused { IfOk result (λ reply. is_refused (reply_of reply) ≡ false) }
        ensures reads { RoomReads self.old (line_of seat.now seen (commands.edit (edit_of edit))) result
            (S.reads steps.old) (S.reads steps.new) }
        ensures fills { RoomFills self.old (line_of seat.now seen (commands.edit (edit_of edit))) result
            (S.fills steps.old) (S.fills steps.new) }
    {
        let range = edit_change(&edit);
        let place = match present_place(&self.changes, self.version, lines, seen, range) {
            Ok(place) => place,
            Err(refusal) => return Err(DeskFault::Refused(refusal)),
        };
        let change = change_at(range, place);
        let seat = String::from_str(self.alloc, seat)?;
        make_room(&mut self.changes, &mut self.done)?;
        let reply = ask(
            self.alloc,
            &mut self.desk,
            Command::Edit(moved_to(edit, place)),
            steps,
        )?;
        self.done.push_reserved(Owner {
            seat,
            range: change,
        });
        self.undone.clear();
        remember(&mut self.changes, change);
        self.version += 1;
        Ok(reply)
    }

    /// An undo, for the seat that made the last edit that can be undone.
    fn undo<S: Steps>(&mut self, seat: &str, steps: &mut S) -> Result<Reply, DeskFault>
        requires lines { length self.old.desk.state.lines < 2 ^ 64 }
        requires version { self.old.version + 1 < 2 ^ 64 }
        ensures step { (seen : ℕ) → IsRoomAnswer self.old (line_of seat.now seen commands.undo) self.new result }
        ensures unrefused { IfOk result (λ reply. is_refused (reply_of reply) ≡ false) }
        ensures reads { S.reads steps.new ≡ S.reads steps.old }
        ensures fills { S.fills steps.new ≡ S.fills steps.old }
    {
        let Some(owner) = last_owner(&self.done) else {
            return ask(self.alloc, &mut self.desk, Command::Undo, steps);
        };
        if owner.seat.as_str() != seat {
            return Err(DeskFault::Refused(Refusal::NotYours(owner.seat.clone()?)));
        }
        let change = turned(owner.range);
        make_room(&mut self.changes, &mut self.undone)?;
        let reply = ask(self.alloc, &mut self.desk, Command::Undo, steps)?;
        move_last(&mut self.done, &mut self.undone);
        remember(&mut self.changes, change);
        self.version += 1;
        Ok(reply)
    }

    /// A redo, for the seat that made the last edit that was undone.
    fn redo<S: Steps>(&mut self, seat: &str, steps: &mut S) -> Result<Reply, DeskFault>
        requires lines { length self.old.desk.state.lines < 2 ^ 64 }
        requires version { self.old.version + 1 < 2 ^ 64 }
        ensures step { (seen : ℕ) → IsRoomAnswer self.old (line_of seat.now seen commands.redo) self.new result }
        ensures unrefused { IfOk result (λ reply. is_refused (reply_of reply) ≡ false) }
        ensures reads { S.reads steps.new ≡ S.reads steps.old }
        ensures fills { S.fills steps.new ≡ S.fills steps.old }
    {
        let Some(owner) = last_owner(&self.undone) else {
            return ask(self.alloc, &mut self.desk, Command::Redo, steps);
        };
        if owner.seat.as_str() != seat {
            return Err(DeskFault::Refused(Refusal::NotYours(owner.seat.clone()?)));
        }
        let change = owner.range;
        make_room(&mut self.changes, &mut self.done)?;
        let reply = ask(self.alloc, &mut self.desk, Command::Redo, steps)?;
        move_last(&mut self.undone, &mut self.done);
        remember(&mut self.changes, change);
        self.version += 1;
        Ok(reply)
    }

    /// Any other command, which makes no change. Where it empties what can be undone and redone, the seats go too.
    fn ask_other<S: Steps>(&mut self, command: Command, steps: &mut S) -> Result<Reply, DeskFault>
        requires lines { length self.old.desk.state.lines < 2 ^ 64 }
        requires kind { MakesNoChange (kind_of (command_of command)) }
        ensures step { (seat : List ℕ) (seen : ℕ)
            → IsRoomAnswer self.old (line_of seat seen (command_of command)) self.new result }
        ensures unrefused { IfOk result (λ reply. is_refused (reply_of reply) ≡ false) }
        ensures reads { (seat : List ℕ) (seen : ℕ)
            → RoomReads self.old (line_of seat seen (command_of command)) result (S.reads steps.old)
            (S.reads steps.new) }
        ensures fills { (seat : List ℕ) (seen : ℕ)
            → RoomFills self.old (line_of seat seen (command_of command)) result (S.fills steps.old)
            (S.fills steps.new) }
    {
        let forgets = is_forgetting(&command);
        let reply = ask(self.alloc, &mut self.desk, command, steps)?;
        if forgets {
            self.done.clear();
            self.undone.clear();
        }
        Ok(reply)
    }
}
