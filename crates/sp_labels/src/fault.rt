use std::alloc::AllocError;

/// Why a list of records was not made or not extended (docs/RULES.md, "Scene numbers" and "Page records").
#[derive(Clone, Copy, PartialEq, Eq, Drop)]
pub enum LockFault {
    /// The list would have more than 100,000 records.
    RecordsFull,
    /// There is no memory.
    NoMemory,
}

impl From<AllocError> for LockFault {
    ghost use Rattle.std.specs.Prelude.{◌≡◌};
    ghost use Rattle.sp_labels.specs.declared.fault.LockFault.TheVariants.{NoMemory};

    ghost from_gives = { λ _ r. r ≡ NoMemory };

    fn from(_error: AllocError) -> LockFault {
        LockFault::NoMemory
    }
}
