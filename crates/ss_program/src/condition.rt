//! Conditions.

use crate::expression::{Expression, SetOwner};
pub use ss_base::Relation;

/// A test, which holds or does not.
#[derive(Drop)]
pub enum Test {
    Compare {
        relation: Relation,
        left: Expression,
        right: Expression,
    },
    /// Whether no word of input is left or, if negated, whether one is.
    DataEnded {
        negated: bool,
    },
    /// Whether a set has no member or, if negated, whether it has one.
    Empty {
        negated: bool,
        set: usize,
        owner: SetOwner,
    },
    /// Whether an entity is in a set or, if negated, whether it is not.
    Member {
        negated: bool,
        set: usize,
        member: Expression,
        owner: SetOwner,
    },
}

/// Tests joined by AND.
#[derive(Drop)]
pub struct Conjunction {
    pub tests: Vec<Test>,
}

/// Conjunctions joined by OR.
#[derive(Drop)]
pub struct Condition {
    pub alternatives: Vec<Conjunction>,
}
