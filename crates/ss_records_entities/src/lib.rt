//! Records in blocks: finding, creating and destroying entities, and the links between the members of sets.
#![tactic(auto)]

pub mod filing;
pub mod finding;
pub mod records;
pub mod sets;
pub mod skimming;
pub mod ties;
