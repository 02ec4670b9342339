//! What loops go over, and what ends them.

use crate::condition::Condition;
use crate::expression::{Expression, SetOwner, Variable};
pub use ss_base::{GuardKind, PhraseKind};

/// A condition of a loop that begins with WHILE or UNTIL.
#[derive(Drop)]
pub struct Guard {
    pub kind: GuardKind,
    pub condition: Condition,
}

/// A phrase of a FOR.
#[derive(Drop)]
pub struct Phrase {
    pub kind: PhraseKind,
    pub condition: Condition,
}

/// The member with which a FOR over the members of a set begins.
#[derive(Drop)]
pub enum Start {
    /// The first one or, in reverse, the last one.
    AtEnd,
    /// This member.
    From { member: Expression },
    /// The member that comes after this one.
    After { member: Expression },
}

/// What a FOR goes over.
#[derive(Drop)]
pub enum Head {
    /// Numbers: from the first on, each by the step more (1 where none is given), up to the limit.
    Numbers {
        variable: Variable,
        first: Expression,
        limit: Expression,
        step: Option<Expression>,
    },
    /// The members of a set, in reverse from the last one backwards.
    Members {
        variable: Variable,
        set: usize,
        owner: SetOwner,
        start: Start,
        reverse: bool,
    },
    /// The entities of a permanent class.
    Each {
        variable: Variable,
        class: usize,
    },
}
