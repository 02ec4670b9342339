ghost use Rattle.std.specs.Prelude.{◌≡◌};
ghost use Rattle.ss_base.specs.Faults.{fault_number, fault_words};
ghost use Rattle.ss_base.specs.declared.fault.Refused.TheVariants.{Fault, Memory};

use std::alloc::{AllocError, AllocFailed};

/// What can be wrong with a statement as it runs, in the order of its numbers, from 1 to 22.
#[derive(Clone, Copy, Debug, PartialEq, Eq)]
pub enum FaultKind {
    NoEntity,
    NeverCreated,
    DestroyedEntity,
    WrongClass,
    Index,
    FiledTwice,
    NotFiled,
    EmptySet,
    InASet,
    OwnsMembers,
    AlreadyScheduled,
    NotScheduled,
    PastTime,
    Overflow,
    ZeroDivisor,
    LoopMemberGone,
    LoopStep,
    CreatedTwice,
    EndOfData,
    BadData,
    Scheduled,
    BadCount,
}

impl FaultKind {
    /// The number that the fault is reported by, from 1 to 22.
    pub fn number(&self) -> u32
        ensures { result ≡ fault_number self.now }
    {
        match self {
            FaultKind::NoEntity => 1,
            FaultKind::NeverCreated => 2,
            FaultKind::DestroyedEntity => 3,
            FaultKind::WrongClass => 4,
            FaultKind::Index => 5,
            FaultKind::FiledTwice => 6,
            FaultKind::NotFiled => 7,
            FaultKind::EmptySet => 8,
            FaultKind::InASet => 9,
            FaultKind::OwnsMembers => 10,
            FaultKind::AlreadyScheduled => 11,
            FaultKind::NotScheduled => 12,
            FaultKind::PastTime => 13,
            FaultKind::Overflow => 14,
            FaultKind::ZeroDivisor => 15,
            FaultKind::LoopMemberGone => 16,
            FaultKind::LoopStep => 17,
            FaultKind::CreatedTwice => 18,
            FaultKind::EndOfData => 19,
            FaultKind::BadData => 20,
            FaultKind::Scheduled => 21,
            FaultKind::BadCount => 22,
        }
    }

    /// The words that the fault is reported by, in capitals.
    pub fn text(&self) -> &str
        ensures { result.now ≡ fault_words self.now }
    {
        match self {
            FaultKind::NoEntity => "NO ENTITY",
            FaultKind::NeverCreated => "NEVER CREATED",
            FaultKind::DestroyedEntity => "DESTROYED ENTITY",
            FaultKind::WrongClass => "WRONG CLASS",
            FaultKind::Index => "INDEX",
            FaultKind::FiledTwice => "FILED TWICE",
            FaultKind::NotFiled => "NOT FILED",
            FaultKind::EmptySet => "EMPTY SET",
            FaultKind::InASet => "IN A SET",
            FaultKind::OwnsMembers => "OWNS MEMBERS",
            FaultKind::AlreadyScheduled => "ALREADY SCHEDULED",
            FaultKind::NotScheduled => "NOT SCHEDULED",
            FaultKind::PastTime => "PAST TIME",
            FaultKind::Overflow => "OVERFLOW",
            FaultKind::ZeroDivisor => "ZERO DIVISOR",
            FaultKind::LoopMemberGone => "LOOP MEMBER GONE",
            FaultKind::LoopStep => "LOOP STEP",
            FaultKind::CreatedTwice => "CREATED TWICE",
            FaultKind::EndOfData => "END OF DATA",
            FaultKind::BadData => "BAD DATA",
            FaultKind::Scheduled => "SCHEDULED",
            FaultKind::BadCount => "BAD COUNT",
        }
    }
}

/// Why a call that may need memory did nothing: a fault of the statement that made it, or no memory.
#[derive(Clone, Copy, Debug, PartialEq, Eq)]
pub enum Refused {
    Fault(FaultKind),
    Memory,
}

impl From<FaultKind> for Refused {
    ghost from_gives = { λ kind refused. refused ≡ Fault kind };

    fn from(kind: FaultKind) -> Refused {
        Refused::Fault(kind)
    }
}

impl From<AllocError> for Refused {
    ghost from_gives = { λ _ refused. refused ≡ Memory };

    fn from(_error: AllocError) -> Refused {
        Refused::Memory
    }
}

impl<T: Drop> From<AllocFailed<T>> for Refused {
    ghost from_gives = { λ _ refused. refused ≡ Memory };

    fn from(_error: AllocFailed<T>) -> Refused {
        Refused::Memory
    }
}
