//! One use.

use ss_base::{Line, Name};
use ss_tree::expression::{Designator, Function};
use ss_tree::preamble::ModeWord;

/// The role of a named place.
#[derive(Clone, Copy, Debug, PartialEq, Eq)]
pub enum Role {
    /// A value in an expression.
    Value,
    /// An item of PRINT, which may be a MEAN.
    Item,
    Target,
    /// A statistic of RESET.
    Reset,
    Set,
    /// The variable of a loop.
    LoopVariable,
}

/// The kind of class that a place needs.
#[derive(Clone, Copy, Debug, PartialEq, Eq)]
pub enum ClassNeed {
    /// One whose entities are created one by one: temporary, or of notices.
    Single,
    Permanent,
    Notice,
}

/// The mode of a value, as far as a section says it.
#[derive(Clone, Copy)]
pub enum ModeOf {
    Integer,
    Alpha,
    /// That of what a name means.
    Named(Name),
    /// That of what a routine is given in this place, from 0.
    Given { routine: Name, place: usize },
    /// That of what a routine yields in this place, from 0.
    Yielded { routine: Name, place: usize },
    /// That of the attribute of a class in this place, from 0.
    Attribute { class: Name, place: usize },
}

/// How many arguments are wanted.
#[derive(Clone, Copy)]
pub enum CountNeed {
    /// As many as a function takes.
    Arguments(Function),
    /// As many as a routine is given.
    Given(Name),
    /// As many as a routine yields.
    Yielded(Name),
    /// At most as many as a class has attributes.
    Attributes(Name),
}

/// What is used.
#[derive(Clone, Copy)]
pub enum Used {
    Parameter {
        name: Name,
    },
    /// A local variable, by a DEFINE.
    Local {
        name: Name,
        mode: ModeWord,
    },
    /// A named place with so many subscripts, and whether it has to be a number.
    Place {
        role: Role,
        place: Designator,
        subscripts: usize,
        number: bool,
    },
    /// A class, and whether its entity is named: if not, it is that in the variable of the class.
    Class {
        need: ClassNeed,
        class: Name,
        called: bool,
    },
    Routine {
        routine: Name,
    },
    /// START SIMULATION.
    Start,
    /// Two modes that have to be the same.
    Same {
        found: ModeOf,
        wanted: ModeOf,
    },
    /// So many arguments.
    Count {
        found: usize,
        wanted: CountNeed,
    },
    /// A place in a field with decimals, which has to be a MEAN.
    Mean {
        place: Designator,
    },
    /// Fields of a PRINT that don't fit its items.
    Unfit,
}

/// A use, with the line of the innermost statement that has it: the head of a loop has the line of the loop, a parameter
/// that of its section, a local variable that of its DEFINE.
#[derive(Clone, Copy)]
pub struct Use {
    pub line: Line,
    pub what: Used,
}
