//! Conditions.

use crate::expression::{Expression, Named};
pub use ss_base::Relation;

/// A test. A negated one has the word NOT.
#[derive(Drop)]
pub enum Test {
    Compare {
        left: Expression,
        relation: Relation,
        right: Expression,
    },
    /// Whether a set has no member.
    Empty {
        set: Named,
        negated: bool,
    },
    /// Whether an entity is in a set.
    Member {
        member: Expression,
        set: Named,
        negated: bool,
    },
    /// Whether no word of input is left.
    DataEnded {
        negated: bool,
    },
}

/// Tests joined by AND, of which there is one at least.
#[derive(Drop)]
pub struct Conjunction {
    pub tests: Vec<Test>,
}

/// Conjunctions joined by OR, of which there is one at least.
#[derive(Drop)]
pub struct Condition {
    pub alternatives: Vec<Conjunction>,
}
