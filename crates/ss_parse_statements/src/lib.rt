//! Reading statements.
#![tactic(auto)]

mod parts;
pub mod simple;
pub mod statements;
