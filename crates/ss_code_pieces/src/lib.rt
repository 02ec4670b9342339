//! Pieces of code, and what the generator looks up in a resolved program.
#![tactic(auto)]

pub mod backward;
pub mod facts;
pub mod leaves;
pub mod lines;
pub mod piece;
