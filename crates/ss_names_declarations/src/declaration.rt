//! Declarations: what a preamble and the heads of sections say.

use ss_base::{Line, Name};
use ss_tree::preamble::{ClassKind, ModeWord, StatisticKind, Weighting};

/// How a DEFINE orders its sets. The keys of ranked sets have declarations of their own.
#[derive(Clone, Copy, Debug, PartialEq, Eq)]
pub enum SetRule {
    /// FIFO, which is also the rule of a DEFINE that gives none.
    Fifo,
    Lifo,
    Ranked,
}

/// What is declared. A statement of the preamble and a section are numbered by their places.
#[derive(Clone, Copy)]
pub enum Declared {
    /// NORMALLY.
    Normally {
        mode: ModeWord,
    },
    Class {
        class: Name,
        kind: ClassKind,
    },
    Attribute {
        attribute: Name,
        class: Name,
    },
    /// The class that owns a set; None where THE SYSTEM owns it.
    Owner {
        set: Name,
        class: Option<Name>,
    },
    /// The class whose entities may belong to a set.
    Member {
        set: Name,
        class: Name,
    },
    /// DEFINE as a variable.
    Variable {
        variable: Name,
        mode: ModeWord,
    },
    /// DEFINE as a set, by the statement of this number.
    Order {
        set: Name,
        rule: SetRule,
        statement: usize,
    },
    /// A key by which the DEFINE of this number ranks its sets.
    RankKey {
        attribute: Name,
        high: bool,
        statement: usize,
    },
    PriorityOrder,
    /// A class in the priority order.
    Priority {
        class: Name,
    },
    /// BREAK, of a class.
    Ties {
        class: Name,
    },
    /// A key for the ties of a class.
    TieKey {
        class: Name,
        attribute: Name,
        high: bool,
    },
    /// The subject of a TALLY or an ACCUMULATE.
    Subject {
        subject: Name,
        weighting: Weighting,
    },
    /// A statistic of a subject.
    Statistic {
        statistic: Name,
        kind: StatisticKind,
        subject: Name,
    },
    Main,
    /// A routine, its section, and how many values it is given and yields.
    Routine {
        routine: Name,
        section: usize,
        given: usize,
        yielding: usize,
    },
    /// The event routine of a class, its section, how many values it is given, and whether it saves its notice.
    Event {
        class: Name,
        section: usize,
        given: usize,
        saving: bool,
    },
    /// What a section is given or yields.
    Parameter {
        parameter: Name,
        section: usize,
    },
    /// DEFINE at the head of a section.
    Local {
        variable: Name,
        section: usize,
        mode: ModeWord,
    },
}

/// A declaration, with the line of its statement of the preamble, its section or its local DEFINE.
#[derive(Clone, Copy)]
pub struct Declaration {
    pub line: Line,
    pub what: Declared,
}
