//! The meaning of a resolved program, and that a well-typed one never goes wrong.
#![tactic(auto)]

pub mod laws;

pub use ss_program as program;
