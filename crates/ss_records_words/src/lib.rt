//! The words of records: what the words of a block say, by the plan of a layout.
#![tactic(auto)]

pub mod attributes;
pub mod laying;
pub mod notes;
pub mod placing;
pub mod plan;
pub mod shape;
pub mod words;
