use std::alloc::AllocError;

/// Why two files were not collated (docs/RULES.md, "Collation").
#[derive(Clone, Copy, PartialEq, Eq, Drop)]
pub enum CollateFault {
    /// This file, 0 for the old and 1 for the new, is no list of sheets: this is the first sheet that breaks it.
    BadSheets { file: u8, sheet: u64 },
    /// There is no memory.
    NoMemory,
}

impl From<AllocError> for CollateFault {
    ghost use Rattle.std.specs.Prelude.{◌≡◌};
    ghost use Rattle.sp_packet.specs.declared.fault.CollateFault.TheVariants.{NoMemory};

    ghost from_gives = { λ _ r. r ≡ NoMemory };

    fn from(_error: AllocError) -> CollateFault {
        CollateFault::NoMemory
    }
}
