//! Streams as a source and as sinks. They tell what their streams tell, and count a fault at each error.
ghost use Rattle.std.specs.Prelude.{◌≡◌};

use sp_kit::{Failed, Sink, Source};
use std::io::{Read, Write};

/// A stream to read from.
#[derive(Drop)]
pub struct Input<R: Read + Drop> {
    stream: R,
    faults: u64,
}

impl<R: Read + Drop> Input<R> {
    /// Reads from this stream; no fault is counted yet. Takes no memory.
    pub fn new(stream: R) -> Self
        ensures stream { result.stream ≡ stream }
        ensures faults { result.faults ≡ 0 }
    {
        Input { stream, faults: 0 }
    }
}

impl<R: Read + Drop> Source for Input<R> {
    ghost state = { λ s. record { unread = R.remaining s.stream; faults = s.faults } };

    fn read(&mut self, buf: &mut [u8]) -> Result<usize, Failed> {
        match self.stream.read(buf) {
            Ok(count) => Ok(count),
            Err(_) => {
                self.faults = self.faults.saturating_add(1);
                Err(Failed)
            }
        }
    }
}

/// A stream to write to. A write that takes nothing of a piece that isn't empty is a fault.
#[derive(Drop)]
pub struct Output<W: Write + Drop> {
    stream: W,
    faults: u64,
}

impl<W: Write + Drop> Output<W> {
    /// Writes to this stream; no fault is counted yet. Takes no memory.
    pub fn new(stream: W) -> Self
        ensures stream { result.stream ≡ stream }
        ensures faults { result.faults ≡ 0 }
    {
        Output { stream, faults: 0 }
    }
}

impl<W: Write + Drop> Sink for Output<W> {
    ghost state = { λ s. record { taken = W.contents s.stream; faults = s.faults } };

    fn write(&mut self, piece: &[u8]) -> Result<usize, Failed> {
        match self.stream.write(piece) {
            Ok(count) if count > 0 || piece.is_empty() => Ok(count),
            _ => {
                self.faults = self.faults.saturating_add(1);
                Err(Failed)
            }
        }
    }
}
