//! Statements.

use crate::condition::Condition;
use crate::expression::{Expression, Named};
use crate::head::{Head, LoopHead};
pub use ss_base::End;
use ss_base::{Line, Name, PictureLine};

/// Where a member is filed.
#[derive(Drop)]
pub enum Position {
    /// By the discipline of the set.
    Discipline,
    First,
    Last,
    Before(Expression),
    After(Expression),
}

/// When a notice is due.
#[derive(Drop)]
pub enum When {
    /// AT: at this time.
    At(Expression),
    /// IN .. UNITS: so many units of time from now.
    In(Expression),
    Now,
}

/// The outcome that the first branch of a FIND's IF is for: the case was found, or it was not.
#[derive(Clone, Copy)]
pub enum FindOutcome {
    Found,
    None,
}

/// A statement.
#[derive(Drop)]
pub enum Statement {
    Let {
        line: Line,
        target: Named,
        value: Expression,
    },
    Add {
        line: Line,
        amount: Expression,
        target: Named,
    },
    Subtract {
        line: Line,
        amount: Expression,
        target: Named,
    },
    Call {
        line: Line,
        routine: Name,
        given: Vec<Expression>,
        yielding: Vec<Named>,
    },
    Return {
        line: Line,
    },
    Stop {
        line: Line,
    },
    Read {
        line: Line,
        targets: Vec<Named>,
    },
    StartSimulation {
        line: Line,
    },
    If {
        line: Line,
        condition: Condition,
        then: Vec<Statement>,
        otherwise: Vec<Statement>,
    },
    /// A loop over one statement, or over those between DO and LOOP.
    Loop {
        line: Line,
        head: LoopHead,
        body: Vec<Statement>,
    },
    /// FIND THE FIRST CASE after the head of a FOR.
    Find {
        line: Line,
        head: Head,
    },
    /// FIND THE FIRST CASE and the IF after it.
    FindIf {
        line: Line,
        head: Head,
        outcome: FindOutcome,
        then: Vec<Statement>,
        otherwise: Vec<Statement>,
    },
    /// CREATE A class CALLED target.
    Create {
        line: Line,
        class: Name,
        called: Option<Named>,
    },
    CreateEvery {
        line: Line,
        classes: Vec<Name>,
    },
    Destroy {
        line: Line,
        class: Name,
        called: Option<Expression>,
    },
    File {
        line: Line,
        member: Expression,
        position: Position,
        set: Named,
    },
    /// REMOVE FIRST or LAST.
    RemoveEnd {
        line: Line,
        end: End,
        target: Named,
        set: Named,
    },
    /// REMOVE of a given member.
    Remove {
        line: Line,
        member: Expression,
        set: Named,
    },
    /// SCHEDULE A: a new notice.
    ScheduleNew {
        line: Line,
        class: Name,
        called: Option<Named>,
        given: Vec<Expression>,
        when: When,
    },
    /// SCHEDULE THE: a notice that is there.
    Schedule {
        line: Line,
        class: Name,
        called: Option<Expression>,
        given: Vec<Expression>,
        when: When,
    },
    Cancel {
        line: Line,
        class: Name,
        called: Option<Expression>,
    },
    Reset {
        line: Line,
        targets: Vec<Named>,
    },
    Print {
        line: Line,
        items: Vec<Expression>,
        pictures: Vec<PictureLine>,
    },
    Skip {
        line: Line,
        count: Expression,
    },
}
