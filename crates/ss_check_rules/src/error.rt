//! Why a program is refused for what it does with its names.

ghost use Rattle.std.specs.Prelude.{◌≡◌};
ghost use Rattle.ss_check_rules.specs.Order.{check_error_order};
ghost use Rattle.ss_check_rules.specs.declared.error.CheckError.TheVariants.{Memory};
ghost use Rattle.ss_names_declarations.specs.Earliest.{unless};

use ss_base::Line;
use ss_names_declarations::Breach;
use std::alloc::AllocError;
use thiserror::Error;

/// Why a program is refused for what it does with its names and values, with the line of the first place
/// where it breaks the rule; 0 for `NoMain`. The rules are in the order in which they are looked at.
#[derive(Clone, Copy, Debug, PartialEq, Eq, Error)]
pub enum CheckError {
    /// There is no MAIN.
    #[error("line {}: no MAIN", .0.0)]
    NoMain(Line),
    /// A class of notices has no EVENT section.
    #[error("line {}: no event routine", .0.0)]
    NoEventRoutine(Line),
    /// START SIMULATION outside MAIN.
    #[error("line {}: START SIMULATION outside MAIN", .0.0)]
    StartPlace(Line),
    /// A name isn't of the kind that its place needs.
    #[error("line {}: unknown name", .0.0)]
    Unknown(Line),
    /// A subscript where none may be, or none where one has to be, or more than one.
    #[error("line {}: subscript", .0.0)]
    Subscript(Line),
    /// A target to which nothing can be assigned.
    #[error("line {}: not assignable", .0.0)]
    NotAssignable(Line),
    /// Other counts of arguments than are taken.
    #[error("line {}: number of arguments", .0.0)]
    Arguments(Line),
    /// A text is where a number has to be, two modes are joined, or a MEAN is used as a value.
    #[error("line {}: mode", .0.0)]
    Mode(Line),
    /// The pictures of a PRINT have another number of fields than it has items, a field has more than 9 decimals, or the item of a
    /// field with decimals is no MEAN.
    #[error("line {}: number of fields", .0.0)]
    Fields(Line),
    /// Memory was refused.
    #[error("out of memory")]
    Memory,
}

/// The breach of a rule, if it is broken.
pub(crate) fn unless(holds: bool, breach: CheckError) -> Option<CheckError>
    ensures { result ≡ unless holds breach }
{
    if holds { None } else { Some(breach) }
}

impl From<AllocError> for CheckError {
    ghost from_gives = { λ _ error. error ≡ Memory };

    fn from(_error: AllocError) -> CheckError {
        CheckError::Memory
    }
}

impl Breach for CheckError {
    ghost order = { check_error_order };

    fn order_of(&self) -> (u32, u32) {
        match self {
            CheckError::NoMain(line) => (1, line.0),
            CheckError::NoEventRoutine(line) => (2, line.0),
            CheckError::StartPlace(line) => (3, line.0),
            CheckError::Unknown(line) => (4, line.0),
            CheckError::Subscript(line) => (5, line.0),
            CheckError::NotAssignable(line) => (6, line.0),
            CheckError::Arguments(line) => (7, line.0),
            CheckError::Mode(line) => (8, line.0),
            CheckError::Fields(line) => (9, line.0),
            CheckError::Memory => (10, 0),
        }
    }
}
