//! The code of statements, loops, conditions and expressions.
#![tactic(auto)]

pub mod conditions;
pub mod events;
pub mod expressions;
pub mod generator;
pub mod loops;
pub mod printing;
pub mod sets;
pub mod statements;
pub mod targets;
