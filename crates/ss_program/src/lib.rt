//! The resolved program: each name is replaced by the number of what it names, and nothing is implied.
//!
//! Every sequence is a `Vec`. Contracts see a program as the plain data of `specs/Program.antt`.
#![tactic(auto)]

pub mod checked;
pub mod checking;
pub mod condition;
pub mod expression;
pub mod head;
pub mod release;
pub mod sections;
pub mod statement;
