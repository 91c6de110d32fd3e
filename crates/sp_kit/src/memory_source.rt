ghost use Rattle.std.specs.Prelude.{◌≡◌, ◌<◌, ◌↔◌, length, min, Contains, IsErr, IfOk, OnErr};
ghost use Rattle.std.specs.Io.{ReadsAtMost};
ghost use Rattle.std.specs.Io.KnownBytes.{ReadConsumes};
ghost use Rattle.sp_kit.specs.Causes.{HasCause, one_more};

use crate::outside::{Failed, Source};
use std::marker::Model;

/// A source in memory that fails at chosen calls.
#[derive(Drop)]
pub struct MemorySource {
    bytes: Vec<u8>,
    at: usize,
    piece: usize,
    fails: Vec<u64>,
    call: u64,
    faults: u64,
}

impl Model for MemorySource {
    ghost use Rattle.std.specs.Prelude.{◌≤◌, ◌<◌, drop, vec_len};
    ghost use Rattle.sp_kit.specs.Memory.{MemorySourceState};

    ghost Value = { MemorySourceState };

    ghost view = { λ s. record { unread = drop s.at s.bytes.items; piece = s.piece; fails = s.fails.items; call = s.call; faults = s.faults } };

    ghost invariant = { λ s. (s.at ≤ vec_len s.bytes) × (0 < s.piece) };
}

impl MemorySource {
    /// Holds the bytes, gives at most `piece` of them per call, and fails exactly the calls whose numbers are listed;
    /// calls count from 0. Takes no memory.
    pub fn new(bytes: Vec<u8>, piece: usize, fails: Vec<u64>) -> MemorySource
        requires { 0 < piece }
        ensures { result ≡ record { unread = bytes.items; piece = piece; fails = fails.items; call = 0; faults = 0 } }
    {
        MemorySource {
            bytes,
            at: 0,
            piece,
            fails,
            call: 0,
            faults: 0,
        }
    }
}

impl Source for MemorySource {
    ghost use Rattle.std.specs.declared.option.Option.TheVariants.{Some};

    ghost state = { λ s. record { unread = Some s.unread; faults = s.faults } };

    /// Gives as many bytes as the piece, the buffer and what is unread allow, and fails exactly the listed calls. A failure
    /// counts one fault.
    fn read(&mut self, buf: &mut [u8]) -> Result<usize, Failed>
        ensures bound { ReadsAtMost result buf.new }
        ensures bytes { ReadConsumes (Some self.old.unread) (Some self.new.unread) result buf.new }
        ensures cause { HasCause self.old.faults self.new.faults result }
        ensures one_fault { OnErr result (self.new.faults ≡ one_more self.old.faults) }
        ensures fails { IsErr result ↔ Contains self.old.fails self.old.call }
        ensures count { IfOk result (λ n. n ≡ min (min self.old.piece (length self.old.unread)) (length buf.old)) }
        ensures call { self.new.call ≡ one_more self.old.call }
        ensures plan { (self.new.piece ≡ self.old.piece) × (self.new.fails ≡ self.old.fails) }
    {
        let is_listed = self.fails.contains(&self.call);
        self.call = self.call.saturating_add(1);
        if is_listed {
            self.faults = self.faults.saturating_add(1);
            return Err(Failed);
        }
        let unread = &self.bytes[self.at..];
        let count = self.piece.min(unread.len()).min(buf.len());
        buf[..count].copy_from_slice(&unread[..count]);
        self.at += count;
        Ok(count)
    }
}
