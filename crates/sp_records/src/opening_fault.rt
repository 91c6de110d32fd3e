use sp_labels::LockFault;
use sp_scenes::SceneFault;
use std::alloc::AllocError;

/// Why a lock or a round changed nothing (docs/RULES.md, "Commands").
#[derive(Clone, Copy, PartialEq, Eq, Drop)]
pub enum OpeningFault {
    /// Scenes are locked already.
    ScenesLocked,
    /// A written number is no label, or is label 0. It carries the place of the first such heading.
    SceneForm(u64),
    /// A label isn't above the one before. It carries the place of the first such heading.
    SceneOrder(u64),
    /// Pages are locked only where scenes are.
    ScenesNotLocked,
    /// Pages are locked already.
    PagesLocked,
    /// There are no rows.
    NoPages,
    /// It is the last round.
    RoundsFull,
    /// There would be more than 100,000 records of scenes or of pages.
    RecordsFull,
    /// There is no memory.
    NoMemory,
}

impl From<AllocError> for OpeningFault {
    ghost use Rattle.std.specs.Prelude.{◌≡◌};
    ghost use Rattle.sp_records.specs.declared.opening_fault.OpeningFault.TheVariants.{NoMemory};

    ghost from_gives = { λ _ fault. fault ≡ NoMemory };

    fn from(_error: AllocError) -> OpeningFault {
        OpeningFault::NoMemory
    }
}

impl From<SceneFault> for OpeningFault {
    ghost use Rattle.std.specs.Prelude.{◌≡◌};
    ghost use Rattle.sp_records.specs.OpeningFaults.{scene_fault_of};

    ghost from_gives = { λ scenes fault. fault ≡ scene_fault_of scenes };

    fn from(fault: SceneFault) -> OpeningFault {
        match fault {
            SceneFault::SceneForm(place) => OpeningFault::SceneForm(place),
            SceneFault::SceneOrder(place) => OpeningFault::SceneOrder(place),
            SceneFault::RecordsFull => OpeningFault::RecordsFull,
            SceneFault::NoMemory => OpeningFault::NoMemory,
        }
    }
}

impl From<LockFault> for OpeningFault {
    ghost use Rattle.std.specs.Prelude.{◌≡◌};
    ghost use Rattle.sp_records.specs.OpeningFaults.{lock_fault_of};

    ghost from_gives = { λ records fault. fault ≡ lock_fault_of records };

    fn from(fault: LockFault) -> OpeningFault {
        match fault {
            LockFault::RecordsFull => OpeningFault::RecordsFull,
            LockFault::NoMemory => OpeningFault::NoMemory,
        }
    }
}
