//! The statements of a preamble.

pub use ss_base::{ClassKind, Weighting};
use ss_base::{Line, Name};

/// What a value is.
#[derive(Clone, Copy)]
pub enum ModeWord {
    Integer,
    Alpha,
    Real,
}

/// What an EVERY says of its class.
#[derive(Drop)]
pub enum Clause {
    /// HAS attributes.
    Has(Vec<Name>),
    /// OWNS sets.
    Owns(Vec<Name>),
    /// MAY BELONG TO sets.
    BelongsTo(Vec<Name>),
}

/// A name by which members or events are ranked, the highest value first or the lowest.
#[derive(Clone, Copy)]
pub struct NamedKey {
    pub high: bool,
    pub name: Name,
}

/// How a set is ordered.
#[derive(Drop)]
pub enum SetOrder {
    /// FIFO, written or not.
    Fifo,
    Lifo,
    /// RANKED BY keys.
    Ranked(Vec<NamedKey>),
}

/// What a statistic reports of its subject.
#[derive(Clone, Copy)]
pub enum StatisticKind {
    Number,
    Sum,
    Maximum,
    Minimum,
    Mean,
}

/// A statistic and its name.
#[derive(Clone, Copy)]
pub struct NamedStatistic {
    pub name: Name,
    pub kind: StatisticKind,
}

/// A statement of the preamble. The head of a group of declarations is one.
#[derive(Drop)]
pub enum PreambleStatement {
    /// PERMANENT ENTITIES, the head of a group.
    PermanentEntities {
        line: Line,
    },
    /// TEMPORARY ENTITIES, the head of a group.
    TemporaryEntities {
        line: Line,
    },
    /// EVENT NOTICES, the head of a group, and the classes that it includes.
    EventNotices {
        line: Line,
        included: Vec<Name>,
    },
    /// EVERY class, of the kind of the group that it is in.
    Every {
        line: Line,
        kind: ClassKind,
        class: Name,
        clauses: Vec<Clause>,
    },
    /// NORMALLY MODE IS.
    Normally {
        line: Line,
        mode: ModeWord,
    },
    /// THE SYSTEM OWNS.
    SystemOwns {
        line: Line,
        sets: Vec<Name>,
    },
    /// DEFINE as a variable.
    DefineVariables {
        line: Line,
        names: Vec<Name>,
        mode: ModeWord,
    },
    /// DEFINE as a set.
    DefineSets {
        line: Line,
        names: Vec<Name>,
        order: SetOrder,
    },
    /// PRIORITY ORDER IS.
    PriorityOrder {
        line: Line,
        classes: Vec<Name>,
    },
    /// BREAK class TIES BY.
    BreakTies {
        line: Line,
        class: Name,
        keys: Vec<NamedKey>,
    },
    /// TALLY or ACCUMULATE.
    Statistics {
        line: Line,
        weighting: Weighting,
        statistics: Vec<NamedStatistic>,
        subject: Name,
    },
}
