ghost use Rattle.std.specs.Prelude.{◌≡◌, [], string_bytes};
ghost use Rattle.std.specs.Str.{IsUtf8};

use crate::outside::{Failed, Sink};
use std::alloc::Global;
use std::marker::Model;

/// A sink in memory that grows. It fails where there is no memory.
#[derive(Drop)]
pub struct GrowingSink {
    bytes: Vec<u8>,
    faults: u64,
}

impl Model for GrowingSink {
    ghost use Rattle.sp_kit.specs.Memory.{GrowingSinkState};

    ghost Value = { GrowingSinkState };

    ghost view = { λ s. record { taken = s.bytes.items; faults = s.faults } };
}

impl GrowingSink {
    /// An empty one. Takes no memory.
    pub fn new(alloc: Global) -> GrowingSink
        ensures taken { result.taken ≡ [] }
        ensures faults { result.faults ≡ 0 }
    {
        GrowingSink {
            bytes: Vec::new(alloc),
            faults: 0,
        }
    }

    /// What it took.
    pub fn taken(&self) -> &[u8]
        ensures { result.now ≡ self.now.taken }
    {
        self.bytes.as_slice()
    }

    /// Lets go what it took, and keeps the room.
    pub fn clear(&mut self)
        ensures taken { self.new.taken ≡ [] }
        ensures faults { self.new.faults ≡ self.old.faults }
    {
        self.bytes.clear();
    }

    /// What it took, as a text.
    pub fn into_text(self) -> String
        requires { IsUtf8 self.taken }
        ensures { string_bytes result ≡ self.taken }
    {
        match String::from_utf8(self.bytes) {
            Ok(text) => text,
            Err(_) => unreachable!(),
        }
    }
}

impl Sink for GrowingSink {
    ghost use Rattle.std.specs.declared.option.Option.TheVariants.{Some};

    ghost state = { λ s. record { taken = Some s.taken; faults = s.faults } };

    fn write(&mut self, piece: &[u8]) -> Result<usize, Failed> {
        match self.bytes.extend_from_slice(piece) {
            Ok(()) => Ok(piece.len()),
            Err(_) => {
                self.faults = self.faults.saturating_add(1);
                Err(Failed)
            }
        }
    }
}
