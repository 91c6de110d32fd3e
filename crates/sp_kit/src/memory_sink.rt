ghost use Rattle.std.specs.Prelude.{◌≡◌, ◌-◌, ◌<◌, ◌≤◌, ◌↔◌, ◌⊎◌, [], length, min, Contains, IsErr, IfOk, OnErr};
ghost use Rattle.std.specs.Io.{WritesAtMost};
ghost use Rattle.std.specs.Io.KnownBytes.{WriteAppends};
ghost use Rattle.sp_kit.specs.Causes.{HasCause, one_more};

use crate::outside::{Failed, Sink};
use std::alloc::{AllocError, Global};
use std::marker::Model;

/// A sink in memory that has its room from the start and fails at chosen calls.
#[derive(Drop)]
pub struct MemorySink {
    bytes: Vec<u8>,
    room: usize,
    piece: usize,
    fails: Vec<u64>,
    call: u64,
    faults: u64,
}

impl Model for MemorySink {
    ghost use Rattle.std.specs.Prelude.{◌≤◌, ◌<◌, vec_len, vec_capacity};
    ghost use Rattle.sp_kit.specs.Memory.{MemorySinkState};

    ghost Value = { MemorySinkState };

    ghost view = { λ s. record { taken = s.bytes.items; room = s.room; piece = s.piece; fails = s.fails.items; call = s.call; faults = s.faults } };

    ghost invariant = { λ s. (vec_len s.bytes ≤ s.room) × (s.room ≤ vec_capacity s.bytes) × (0 < s.piece) };
}

impl MemorySink {
    /// Has room for `room` bytes, takes at most `piece` of them per call, and fails exactly the calls whose numbers are
    /// listed, and every call once it is full; calls count from 0. Later calls take no memory.
    pub fn new(
        alloc: Global,
        room: usize,
        piece: usize,
        fails: Vec<u64>,
    ) -> Result<MemorySink, AllocError>
        requires { 0 < piece }
        ensures { IfOk result (λ s.
            s ≡ record { taken = []; room = room; piece = piece; fails = fails.items; call = 0; faults = 0 }) }
    {
        let bytes = Vec::with_capacity(alloc, room)?;
        Ok(MemorySink {
            bytes,
            room,
            piece,
            fails,
            call: 0,
            faults: 0,
        })
    }

    /// What the sink took.
    pub fn taken(&self) -> &[u8]
        ensures { result.now ≡ self.now.taken }
    {
        self.bytes.as_slice()
    }
}

impl Sink for MemorySink {
    ghost use Rattle.std.specs.declared.option.Option.TheVariants.{Some};

    ghost state = { λ s. record { taken = Some s.taken; faults = s.faults } };

    /// Takes as many bytes as the piece and the room allow, and fails exactly the listed calls and every call once it is
    /// full. A failure counts one fault.
    fn write(&mut self, piece: &[u8]) -> Result<usize, Failed>
        ensures bound { WritesAtMost result piece.now }
        ensures bytes { WriteAppends (Some self.old.taken) (Some self.new.taken) result piece.now }
        ensures progress { 0 < length piece.now → IfOk result (λ n. 0 < n) }
        ensures cause { HasCause self.old.faults self.new.faults result }
        ensures one_fault { OnErr result (self.new.faults ≡ one_more self.old.faults) }
        ensures fails { IsErr result
            ↔ (Contains self.old.fails self.old.call ⊎ (self.old.room ≤ length self.old.taken)) }
        ensures count { IfOk result (λ n.
            n ≡ min (min self.old.piece (length piece.now)) (self.old.room - length self.old.taken)) }
        ensures call { self.new.call ≡ one_more self.old.call }
        ensures plan { (self.new.piece ≡ self.old.piece) × (self.new.fails ≡ self.old.fails)
            × (self.new.room ≡ self.old.room) }
    {
        let is_listed = self.fails.contains(&self.call);
        self.call = self.call.saturating_add(1);
        if is_listed || self.bytes.len() >= self.room {
            self.faults = self.faults.saturating_add(1);
            return Err(Failed);
        }
        let count = self
            .piece
            .min(piece.len())
            .min(self.room - self.bytes.len());
        match self.bytes.extend_from_slice(&piece[..count]) {
            Ok(()) => Ok(count),
            Err(_) => unreachable!(),
        }
    }
}
