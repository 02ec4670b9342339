//! Statements.

use crate::condition::Condition;
use crate::expression::{Expression, SetOwner, Sign, Variable};
use crate::head::{Guard, Head, Phrase};
pub use ss_base::End;
use ss_base::{Line, Mode};

/// A permanent class, and the number of the global variable N. of the class, which says how many
/// entities of it are to be made.
#[derive(Clone, Copy, Debug, PartialEq, Eq)]
pub struct CountedClass {
    pub class: usize,
    pub variable: usize,
}

/// What a value is assigned to.
#[derive(Drop)]
pub enum Place {
    ToVariable {
        variable: Variable,
    },
    /// An attribute of an entity of a class.
    ToAttribute {
        class: usize,
        field: usize,
        of: Expression,
    },
    /// N. of a permanent class.
    ToCount {
        count: CountedClass,
    },
}

/// What takes a word of input, and its mode.
#[derive(Drop)]
pub struct InputTarget {
    pub place: Place,
    pub mode: Mode,
}

/// Where FILE puts a member.
#[derive(Drop)]
pub enum Position {
    /// Where the discipline of the set says.
    ByDiscipline,
    AsFirst,
    AsLast,
    /// Directly before a member.
    BeforeMember { member: Expression },
    /// Directly after a member.
    AfterMember { member: Expression },
}

/// The time for which a notice is scheduled.
#[derive(Drop)]
pub enum When {
    /// AT: this time, in units.
    At { time: Expression },
    /// IN: so many units from now.
    In { units: Expression },
    /// NOW.
    Now,
}

/// A statistic that is started afresh, and the entity or owner whose it is, if it is one's.
#[derive(Drop)]
pub struct Restart {
    pub statistic: usize,
    pub of: Option<Expression>,
}

/// What PRINT shows in a field, before it is evaluated.
#[derive(Drop)]
pub enum PrintItem {
    /// A value.
    Value {
        value: Expression,
    },
    /// The mean of a statistic of a global variable, or of N. of THE SYSTEM's set.
    Mean {
        statistic: usize,
    },
    /// The mean of a statistic of an attribute of an entity, or of N. of the set of an owner.
    MeanOf {
        statistic: usize,
        entity: Expression,
    },
}

/// A statement. Those that may fault have the line of their first word.
#[derive(Drop)]
pub enum Statement {
    /// LET: the value is assigned to the target.
    Let {
        line: Line,
        target: Place,
        value: Expression,
    },
    /// ADD and SUBTRACT: the value is added to the target, or taken from it.
    Change {
        line: Line,
        sign: Sign,
        target: Place,
        value: Expression,
    },
    /// CALL: the number of the routine, the values that it is given, and the targets that take what it
    /// yields.
    Call {
        line: Line,
        routine: usize,
        given: Vec<Expression>,
        yielding: Vec<Place>,
    },
    Return,
    Stop,
    /// READ: each target takes the next word of input.
    Read {
        line: Line,
        targets: Vec<InputTarget>,
    },
    /// START SIMULATION: the events that are pending, one after the other, until none is.
    Simulate,
    /// IF: the statements before ELSE, or those after it.
    If {
        line: Line,
        condition: Condition,
        then: Vec<Statement>,
        otherwise: Vec<Statement>,
    },
    /// A loop that begins with WHILE or UNTIL.
    Loop {
        line: Line,
        guards: Vec<Guard>,
        body: Vec<Statement>,
    },
    /// A FOR.
    For {
        line: Line,
        head: Head,
        phrases: Vec<Phrase>,
        body: Vec<Statement>,
    },
    /// FIND THE FIRST CASE of a FOR: what follows where one was found, and where none was.
    Find {
        line: Line,
        head: Head,
        phrases: Vec<Phrase>,
        found: Vec<Statement>,
        none: Vec<Statement>,
    },
    /// CREATE A: a new entity of a temporary or notice class, whose number goes to the target.
    Create {
        line: Line,
        class: usize,
        into: Place,
    },
    /// CREATE EVERY: all entities of permanent classes, one class after the other.
    CreateEvery {
        line: Line,
        classes: Vec<CountedClass>,
    },
    /// DESTROY: an entity of a temporary or notice class goes.
    Destroy {
        line: Line,
        class: usize,
        entity: Expression,
    },
    /// FILE: an entity becomes a member of a set.
    File {
        line: Line,
        set: usize,
        member: Expression,
        position: Position,
        owner: SetOwner,
    },
    /// REMOVE FIRST and REMOVE LAST: the member at an end of the set goes out of it and to the target.
    RemoveEnd {
        line: Line,
        end: End,
        set: usize,
        into: Place,
        owner: SetOwner,
    },
    /// REMOVE: a member goes out of the set.
    Remove {
        line: Line,
        set: usize,
        member: Expression,
        owner: SetOwner,
    },
    /// SCHEDULE A: a new notice of a class, whose number goes to the target, gets the values given as its first
    /// attributes and is scheduled.
    ScheduleNew {
        line: Line,
        class: usize,
        into: Place,
        given: Vec<Expression>,
        when: When,
    },
    /// SCHEDULE THE: the same with a notice that there is.
    Schedule {
        line: Line,
        class: usize,
        notice: Expression,
        given: Vec<Expression>,
        when: When,
    },
    /// CANCEL: a notice is scheduled no longer.
    Cancel {
        line: Line,
        class: usize,
        notice: Expression,
    },
    /// RESET: statistics start afresh.
    Reset {
        line: Line,
        restarts: Vec<Restart>,
    },
    /// PRINT: the items in the fields of the lines.
    Print {
        line: Line,
        items: Vec<PrintItem>,
        pictures: Vec<Vec<u8>>,
    },
    /// SKIP: so many empty lines.
    Skip {
        line: Line,
        count: Expression,
    },
}
