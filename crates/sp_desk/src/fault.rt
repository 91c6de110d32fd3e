use sp_records::OpeningFault;
use sp_text::EditFault;
use sp_wire::Refusal;
use std::alloc::AllocError;

/// Why a desk changed nothing.
#[derive(Drop)]
pub enum DeskFault {
    /// The command is refused (docs/RULES.md, "The desk").
    Refused(Refusal),
    /// There is no memory.
    NoMemory,
}

impl From<AllocError> for DeskFault {
    ghost use Rattle.std.specs.Prelude.{◌≡◌};
    ghost use Rattle.sp_desk.specs.declared.fault.DeskFault.TheVariants.{NoMemory};

    ghost from_gives = { λ _ fault. fault ≡ NoMemory };

    fn from(_error: AllocError) -> DeskFault {
        DeskFault::NoMemory
    }
}

impl From<EditFault> for DeskFault {
    ghost use Rattle.std.specs.Prelude.{◌≡◌};
    ghost use Rattle.sp_desk.specs.Answers.{fault_of};

    ghost from_gives = { λ edit fault. fault ≡ fault_of edit };

    fn from(fault: EditFault) -> DeskFault {
        match fault {
            EditFault::Range => DeskFault::Refused(Refusal::Range),
            EditFault::Boundary => DeskFault::Refused(Refusal::Boundary),
            EditFault::LineBreak => DeskFault::Refused(Refusal::LineBreak),
            EditFault::LineFull => DeskFault::Refused(Refusal::LineFull),
            EditFault::TextFull => DeskFault::Refused(Refusal::TextFull),
            EditFault::IdsSpent => DeskFault::Refused(Refusal::IdsSpent),
            EditFault::NoMemory => DeskFault::NoMemory,
        }
    }
}

impl From<OpeningFault> for DeskFault {
    ghost use Rattle.std.specs.Prelude.{◌≡◌};
    ghost use Rattle.sp_desk.specs.Answers.{opening_fault_of};

    ghost from_gives = { λ opening fault. fault ≡ opening_fault_of opening };

    fn from(fault: OpeningFault) -> DeskFault {
        match fault {
            OpeningFault::ScenesLocked => DeskFault::Refused(Refusal::ScenesLocked),
            OpeningFault::SceneForm(place) => DeskFault::Refused(Refusal::SceneForm(place)),
            OpeningFault::SceneOrder(place) => DeskFault::Refused(Refusal::SceneOrder(place)),
            OpeningFault::ScenesNotLocked => DeskFault::Refused(Refusal::ScenesNotLocked),
            OpeningFault::PagesLocked => DeskFault::Refused(Refusal::PagesLocked),
            OpeningFault::NoPages => DeskFault::Refused(Refusal::NoPages),
            OpeningFault::RoundsFull => DeskFault::Refused(Refusal::RoundsFull),
            OpeningFault::RecordsFull => DeskFault::Refused(Refusal::RecordsFull),
            OpeningFault::NoMemory => DeskFault::NoMemory,
        }
    }
}
