//! The names of rounds, as replies tell them.
ghost use Rattle.std.specs.Prelude.{◌≡◌, string_bytes, IfOk};
ghost use Rattle.spec_sheets.specs.Rounds.{round_name};

use sp_kit::GrowingSink;
use sp_print::write_round_name;
use std::alloc::{AllocError, Global};

/// The name of a round (docs/RULES.md, "Sheets"). `AllocError` comes for want of memory alone.
pub fn round_name(alloc: Global, round: u8) -> Result<String, AllocError>
    ensures { IfOk result (λ name. string_bytes name ≡ round_name round) }
{
    let mut sink = GrowingSink::new(alloc);
    match write_round_name(round, &mut sink) {
        Ok(()) => Ok(sink.into_text()),
        Err(_) => Err(AllocError),
    }
}
