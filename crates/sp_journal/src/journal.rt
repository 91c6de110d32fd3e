ghost use Rattle.std.specs.Prelude.{◌≡◌, ◌+◌, ◌-◌, ◌<◌, ◌≤◌, [], ◌∷◌, ◌++◌, length, IfSome, IfNone, OnOk, OnErr, IsOk};

use std::alloc::{AllocError, Global};
use std::collections::VecDeque;
use std::marker::Model;

/// One part of so many is the room that the lists get beside what is asked for, but for the first few entries.
const MORE_ROOM: usize = 16;

/// A list of what was done and a list of what was undone, each with its last entry last (docs/RULES.md, "Journal"). They stand in one
/// queue, so that what is undone takes the place that it had: from its front on what was undone, the last first, and then what was done.
#[derive(Drop)]
pub struct Journal<T> {
    entries: VecDeque<T>,
    undone: usize,
}

impl<T> Model for Journal<T> {
    ghost use Rattle.std.specs.Prelude.{◌-◌, ◌≤◌, length};
    ghost use Rattle.std.specs.VecDeque.{deque_len, deque_capacity};
    ghost use Rattle.sp_journal.specs.Entries.{Entries, queued};

    ghost Value = { Entries T };

    ghost view = { λ j. queued j.undone j.entries.items (deque_capacity j.entries - deque_len j.entries) };

    ghost invariant = { λ j. j.undone ≤ length j.entries.items };
}

impl<T> Journal<T> {
    /// A journal without entries and without room. It takes no memory.
    pub fn new(alloc: Global) -> Journal<T>
        ensures { result ≡ record { done = []; undone = []; room = 0 } }
    {
        Journal {
            entries: VecDeque::from_vec(Vec::new(alloc)),
            undone: 0,
        }
    }

    /// Makes room for one more entry. Where there is room it answers Ok. On an error there is no memory for it.
    pub fn reserve_one(&mut self) -> Result<(), AllocError>
        ensures entries { self.new ≡ record { done = self.old.done; undone = self.old.undone; room = self.new.room } }
        ensures room { self.old.room ≤ self.new.room }
        ensures ok { OnOk result (0 < self.new.room) }
        ensures err { OnErr result (self.new ≡ self.old) }
        ensures succeeds { 0 < self.old.room → IsOk result }
    {
        let len = self.entries.len();
        if len < self.entries.capacity() {
            return Ok(());
        }
        self.entries.reserve_exact(len / MORE_ROOM + 4)
    }

    /// Adds an entry to done and empties undone. The room of what it empties stays. It needs room for one, as there is after
    /// `reserve_one`, and takes no memory.
    pub fn push(&mut self, entry: T)
    where
        T: Drop,
        requires { 0 < self.old.room }
        ensures { self.new ≡ record {
          done = self.old.done ++ entry ∷ [];
          undone = [];
          room = self.old.room + length self.old.undone - 1;
        } }
    {
        self.forget_undone();
        self.keep_done(entry);
    }

    /// Empties undone. The room of what it empties stays.
    fn forget_undone(&mut self)
    where
        T: Drop,
        ensures { self.new ≡ record {
          done = self.old.done;
          undone = [];
          room = self.old.room + length self.old.undone;
        } }
    {
        for _ in 0..self.undone {
            self.entries.pop_front();
        }
        self.undone = 0;
    }

    /// Takes the last entry of done, or gives None exactly where there is none. The room of the entry stays.
    pub fn take_done(&mut self) -> Option<T>
        ensures some { IfSome result (λ entry. self.old.done ≡ self.new.done ++ entry ∷ []) }
        ensures some_leaves { IfSome result (λ _.
            self.new ≡ record { done = self.new.done; undone = self.old.undone; room = self.old.room + 1 }) }
        ensures none { IfNone result ((self.old.done ≡ []) × (self.new ≡ self.old)) }
    {
        if self.entries.len() == self.undone {
            return None;
        }
        self.entries.pop_back()
    }

    /// Takes the last entry of undone, or gives None exactly where there is none. The room of the entry stays.
    pub fn take_undone(&mut self) -> Option<T>
        ensures some { IfSome result (λ entry. self.old.undone ≡ self.new.undone ++ entry ∷ []) }
        ensures some_leaves { IfSome result (λ _.
            self.new ≡ record { done = self.old.done; undone = self.new.undone; room = self.old.room + 1 }) }
        ensures none { IfNone result ((self.old.undone ≡ []) × (self.new ≡ self.old)) }
    {
        if self.undone == 0 {
            return None;
        }
        self.undone -= 1;
        self.entries.pop_front()
    }

    /// Adds an entry to done. It needs room for one, and takes no memory.
    pub fn keep_done(&mut self, entry: T)
        requires { 0 < self.old.room }
        ensures { self.new ≡ record {
          done = self.old.done ++ entry ∷ [];
          undone = self.old.undone;
          room = self.old.room - 1;
        } }
    {
        self.entries.push_back_reserved(entry);
    }

    /// Adds an entry to undone. It needs room for one, and takes no memory.
    pub fn keep_undone(&mut self, entry: T)
        requires { 0 < self.old.room }
        ensures { self.new ≡ record {
          done = self.old.done;
          undone = self.old.undone ++ entry ∷ [];
          room = self.old.room - 1;
        } }
    {
        self.undone += 1;
        self.entries.push_front_reserved(entry);
    }

    /// Empties both lists. The room of what it empties stays.
    pub fn clear(&mut self)
    where
        T: Drop,
        ensures { self.new ≡ record {
          done = [];
          undone = [];
          room = self.old.room + length self.old.done + length self.old.undone;
        } }
    {
        self.entries.clear();
        self.undone = 0;
    }
}
