//! What entities and sets are, and which notices are pending: the definitions that a run works on.
#![tactic(auto)]

mod ties;

pub use ties::{Tie, TieShape};
