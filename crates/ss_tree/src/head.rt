//! The heads of loops.

use crate::condition::Condition;
use crate::expression::{Expression, Named};
use ss_base::Name;
pub use ss_base::{GuardKind, PhraseKind};

/// A phrase of a FOR.
#[derive(Drop)]
pub struct Phrase {
    pub kind: PhraseKind,
    pub condition: Condition,
}

/// A condition of a loop that begins with WHILE or UNTIL.
#[derive(Drop)]
pub struct Guard {
    pub kind: GuardKind,
    pub condition: Condition,
}

/// The member with which a loop over a set begins.
#[derive(Drop)]
pub enum MemberStart {
    /// The first, or the last in reverse order.
    End,
    /// FROM: this one.
    From(Expression),
    /// AFTER: the one that follows this one in walking order.
    After(Expression),
}

/// The head of a FOR: what it goes over, and its phrases.
#[derive(Drop)]
pub enum Head {
    /// FOR v = from TO to BY step.
    Range {
        variable: Name,
        from: Expression,
        to: Expression,
        step: Option<Expression>,
        phrases: Vec<Phrase>,
    },
    /// FOR EACH v IN set.
    Members {
        variable: Name,
        set: Named,
        start: MemberStart,
        reverse: bool,
        phrases: Vec<Phrase>,
    },
    /// FOR EACH class CALLED v.
    Class {
        class: Name,
        called: Option<Name>,
        phrases: Vec<Phrase>,
    },
}

/// The head of a loop.
#[derive(Drop)]
pub enum LoopHead {
    For(Head),
    /// WHILE or UNTIL, with one condition at least.
    Guards(Vec<Guard>),
}
