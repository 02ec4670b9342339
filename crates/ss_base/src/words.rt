//! Words that the text of a program and its meaning have in common.

/// How two values compare.
#[derive(Clone, Copy, Debug, PartialEq, Eq)]
pub enum Relation {
    Equal,
    NotEqual,
    Less,
    Greater,
    LessOrEqual,
    GreaterOrEqual,
}

/// The sign before a term, and whether a statement adds or subtracts.
#[derive(Clone, Copy, Debug, PartialEq, Eq)]
pub enum Sign {
    Plus,
    Minus,
}

/// What makes one whole number of two.
#[derive(Clone, Copy, Debug, PartialEq, Eq)]
pub enum Operator {
    Add,
    Subtract,
    Multiply,
    /// DIV.F
    Quotient,
    /// MOD.F
    Remainder,
    /// MIN.F
    Least,
    /// MAX.F
    Greatest,
}

/// What makes one whole number of another.
#[derive(Clone, Copy, Debug, PartialEq, Eq)]
pub enum UnaryOperator {
    /// ABS.F
    Absolute,
}

/// What a phrase does with a candidate, by its condition.
#[derive(Clone, Copy, Debug, PartialEq, Eq)]
pub enum PhraseKind {
    /// WITH or WHEN: passes a candidate where the condition holds.
    With,
    /// UNLESS: passes a candidate where the condition doesn't hold.
    Unless,
    /// WHILE: ends the loop where the condition doesn't hold.
    While,
    /// UNTIL: ends the loop where the condition holds.
    Until,
}

/// How the condition of a loop that begins with WHILE or UNTIL ends it.
#[derive(Clone, Copy, Debug, PartialEq, Eq)]
pub enum GuardKind {
    /// WHILE: ends the loop where the condition doesn't hold.
    While,
    /// UNTIL: ends the loop where the condition holds.
    Until,
}

/// An end of a set.
#[derive(Clone, Copy, Debug, PartialEq, Eq)]
pub enum End {
    First,
    Last,
}

/// How statistics weigh the values of their subject.
#[derive(Clone, Copy, Debug, PartialEq, Eq)]
pub enum Weighting {
    /// TALLY: each value once.
    Tally,
    /// ACCUMULATE: each value by the time for which it lasted.
    Accumulate,
}
