//! Reading below statements: single words and tokens, names, expressions, conditions and heads of loops.
#![tactic(auto)]

pub mod classes;
pub mod conditions;
pub mod expressions;
pub mod failure;
pub mod heads;
pub mod names;
pub mod nesting;
pub mod places;
pub mod reading;
pub mod steps;
pub mod tables;
pub mod tokens;
pub mod words;
