use std::alloc::AllocError;
use thiserror::Error;

/// Why scenes are not locked (docs/RULES.md, "Scene numbers").
#[derive(Debug, Clone, Copy, PartialEq, Eq, Drop, Error)]
pub enum SceneFault {
    /// A written number is no label, or is label 0. It carries the place of the first such heading.
    #[error("the number at line {0} is no scene number")]
    SceneForm(u64),
    /// A label isn't above the one before. It carries the place of the first such heading.
    #[error("the scene at line {0} is out of order")]
    SceneOrder(u64),
    /// There are more than 100,000 headings.
    #[error("there are too many scenes")]
    RecordsFull,
    /// There is no memory.
    #[error("no memory")]
    NoMemory,
}

impl From<AllocError> for SceneFault {
    ghost use Rattle.std.specs.Prelude.{◌≡◌};
    ghost use Rattle.sp_scenes.specs.declared.fault.SceneFault.TheVariants.{NoMemory};

    ghost from_gives = { λ _ r. r ≡ NoMemory };

    fn from(_error: AllocError) -> SceneFault {
        SceneFault::NoMemory
    }
}
