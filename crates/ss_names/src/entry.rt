//! Entries of the table.

use ss_base::{Mode, Name, Owner};
use ss_names_declarations::SetRule;

/// An attribute: the number of its class, its number in the class, and its mode.
#[derive(Clone, Copy, Debug, PartialEq, Eq)]
pub struct Attribute {
    pub class: usize,
    pub field: usize,
    pub mode: Mode,
}

/// How a DEFINE orders a set, and the number of its statement.
#[derive(Clone, Copy, Debug, PartialEq, Eq)]
pub struct DefinedOrder {
    pub rule: SetRule,
    pub statement: usize,
}

/// A set: its owner, the class of its members, and its DEFINE; None for what nothing says.
#[derive(Clone, Copy, Debug, PartialEq, Eq)]
pub struct Set {
    pub owner: Option<Owner>,
    pub member: Option<usize>,
    pub order: Option<DefinedOrder>,
}

/// A routine: its section, and how many values it is given and yields.
#[derive(Clone, Copy, Debug, PartialEq, Eq)]
pub struct RoutineSection {
    pub section: usize,
    pub given: usize,
    pub yielding: usize,
}

/// An event routine: its section, how many values it is given, and whether it saves its notice.
#[derive(Clone, Copy, Debug, PartialEq, Eq)]
pub struct EventSection {
    pub section: usize,
    pub given: usize,
    pub saving: bool,
}

/// A key by which the DEFINE of this number ranks its sets.
#[derive(Clone, Copy)]
pub struct RankedBy {
    pub statement: usize,
    pub attribute: Name,
    pub high: bool,
}

/// A key for the ties of a class.
#[derive(Clone, Copy)]
pub struct TiedBy {
    pub class: Name,
    pub attribute: Name,
    pub high: bool,
}
