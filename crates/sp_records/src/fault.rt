use std::alloc::AllocError;
use thiserror::Error;

/// Why bytes are no record file of a text (docs/RULES.md, "Record file").
#[derive(Debug, PartialEq, Eq, Drop, Error)]
pub enum RecordsFault {
    /// It carries the first rule that is broken.
    #[error("bad records, rule {0}")]
    BadForm(u8),
    /// The file is of another text. It carries the digest that the file has and that of the text, in hexadecimal.
    #[error("records are of another text, kept {kept}, found {found}")]
    Mismatch { kept: String, found: String },
    /// There is no memory.
    #[error("no memory")]
    NoMemory,
}

impl From<AllocError> for RecordsFault {
    ghost use Rattle.std.specs.Prelude.{◌≡◌};
    ghost use Rattle.sp_records.specs.declared.fault.RecordsFault.TheVariants.{NoMemory};

    ghost from_gives = { λ _ r. r ≡ NoMemory };

    fn from(_error: AllocError) -> RecordsFault {
        RecordsFault::NoMemory
    }
}
