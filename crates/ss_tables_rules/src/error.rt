//! Why a program has no tables.

ghost use Rattle.std.specs.Prelude.{◌≡◌};
ghost use Rattle.ss_tables_rules.specs.Order.{table_error_order};
ghost use Rattle.ss_tables_rules.specs.declared.error.TableError.TheVariants.{Memory};

use ss_base::Line;
use ss_names_declarations::Breach;
use std::alloc::AllocError;
use thiserror::Error;

/// Why a program is refused for what it declares, with the line of the first place where it breaks the rule. The rules
/// are in the order in which they are looked at.
#[derive(Clone, Copy, Debug, PartialEq, Eq, Error)]
pub enum TableError {
    /// Something is declared or said twice, or a local name hides what may not be hidden.
    #[error("line {}: declared twice", .0.0)]
    Twice(Line),
    /// A name has no mode, or is said to be REAL.
    #[error("line {}: no mode", .0.0)]
    RealMode(Line),
    /// A priority or ties of what is no class of notices.
    #[error("line {}: no class of notices", .0.0)]
    UnknownClass(Line),
    /// A DEFINE as a set of what nobody owns or belongs to.
    #[error("line {}: no set", .0.0)]
    UnknownSet(Line),
    /// A set has members and no owner.
    #[error("line {}: a set without an owner", .0.0)]
    NoOwner(Line),
    /// A set has an owner and no members.
    #[error("line {}: a set without members", .0.0)]
    NoMember(Line),
    /// A rank is no attribute of the class of the set's members.
    #[error("line {}: a rank that is no attribute", .0.0)]
    RankKey(Line),
    /// A second TALLY or ACCUMULATE of one name.
    #[error("line {}: a second history of one name", .0.0)]
    TallyTwice(Line),
    /// More than 64 classes, sets, or attributes of one class.
    #[error("line {}: too many", .0.0)]
    TooMany(Line),
    /// A key for ties is no attribute of the class.
    #[error("line {}: a tie key that is no attribute", .0.0)]
    TieKey(Line),
    /// Memory was refused.
    #[error("out of memory")]
    Memory,
}

impl From<AllocError> for TableError {
    ghost from_gives = { λ _ error. error ≡ Memory };

    fn from(_error: AllocError) -> TableError {
        TableError::Memory
    }
}

impl Breach for TableError {
    ghost order = { table_error_order };

    fn order_of(&self) -> (u32, u32) {
        match self {
            TableError::Twice(line) => (51, line.0),
            TableError::RealMode(line) => (52, line.0),
            TableError::UnknownClass(line) => (53, line.0),
            TableError::UnknownSet(line) => (54, line.0),
            TableError::NoOwner(line) => (55, line.0),
            TableError::NoMember(line) => (56, line.0),
            TableError::RankKey(line) => (57, line.0),
            TableError::TallyTwice(line) => (58, line.0),
            TableError::TooMany(line) => (59, line.0),
            TableError::TieKey(line) => (60, line.0),
            TableError::Memory => (61, 0),
        }
    }
}
