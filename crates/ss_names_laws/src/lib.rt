//! Laws of the table of a program that breaks no rule.
#![tactic(auto)]

pub mod table_laws;
