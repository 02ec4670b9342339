//! The tree of a program.
//!
//! Every sequence is a `Vec`. A statement, a statement of the preamble, a local definition and a section
//! have the line of their first word.
#![tactic(auto)]

pub mod condition;
pub mod expression;
pub mod head;
pub mod preamble;
pub mod program;
pub mod release;
pub mod statement;
